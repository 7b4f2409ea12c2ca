use crate::runs::ran;
use pallet_top::Code;
use std::alloc::Global;
use std::test::Fail;

const HEADER: &str = "id,pallet_x,pallet_y,long_from,long_to,short_from,short_to,least_area";

// A designs file of this row.
fn file(alloc: Global, row: &str) -> Result<Vec<u8>, Fail> {
    let text = format!(in alloc; "{HEADER}\n{row}\n")?;
    Ok(text.as_bytes().to_vec(alloc)?)
}

#[test]
fn best_sizes(rt: HostRuntime) -> Result<(), Fail> {
    let alloc = rt.alloc();
    let cases = [
        // Four cases of 3 by 2 cover 24 cells of 25, and one of 3 by 3 covers 9.
        ("D,5,5,3,3,2,3,1", 0, "\nbest 1 covers 24\ndone 2\n"),
        // Eight cases of 4 by 1 cover 32 cells of 36, and seven of 5 by 1 cover 35. Neither can be more.
        ("D,6,6,4,5,1,1,1", 0, "\nbest 2 covers 35\ndone 2\n"),
        // A strip of 256 cells is full of cases of one cell. Each other length that divides 256 fills it too.
        ("D,256,1,1,256,1,1,1", 0, "\nbest 1 covers 256\ndone 256\n"),
        // Of cases of 3 to 5 by 2 on 4 by 2 the longest does not fit.
        ("D,4,2,3,5,2,2,1", 1, "\nbest 2 covers 8\ndone 3\n"),
        // None of 256 lengths fits on one cell.
        ("D,1,1,2,257,1,1,1", 1, "\nend\nbest none\ndone 256\n"),
        (
            "D,4000,4000,4000,4000,4000,4000,16000000",
            0,
            "\nbest 1 covers 16000000\ndone 1\n",
        ),
    ];
    for (row, status, end) in cases {
        let design = ran(&rt, alloc, "design", &file(alloc, row)?)?;
        assert_eq!(rt; design.code as u8, status, "{row}");
        assert!(rt;
            design
                .written
                .starts_with(b"pallet-design 1\nid D\nentry 1\n"),
            "{row}"
        );
        assert!(rt; design.written.ends_with(end.as_bytes()), "{row}");
        let workers = ran(&rt, alloc, "design --workers 16", &file(alloc, row)?)?;
        assert!(rt; workers.code == design.code, "{row}");
        assert!(rt;
            workers.written.as_slice() == design.written.as_slice(),
            "{row}"
        );
    }
    Ok(())
}

// The first fault of a row: the kinds of fault in their order, and of one kind the leftmost column.
#[test]
fn faulty_rows(rt: HostRuntime) -> Result<(), Fail> {
    let alloc = rt.alloc();
    let cases = [
        ("D,5,5,3,3,2,3", "FieldCount"),
        (",0,x,3,3,2,3,1", "BadId"),
        ("D,0,x,3,y,2,3,1", "BadNumber pallet_y"),
        ("D,5,5,4001,3,0,3,1", "OutOfRange long_from"),
        ("D,5,5,3,3,2,3,16000001", "OutOfRange least_area"),
        ("D,5,5,4,3,1,3,1", "NoSize"),
        ("D,5,5,3,3,2,3,26", "NoSize"),
        ("D,5,5,2,3,4,5,1", "NoSize"),
        ("D,1,1,2,258,1,1,1", "TooManySizes"),
    ];
    for (row, fault) in cases {
        let design = ran(&rt, alloc, "design", &file(alloc, row)?)?;
        let text = format!(in alloc; "pallet-design 1\nrefused {fault}\ndone 0\n")?;
        assert!(rt; design.code == Code::Findings, "{row}");
        assert!(rt; design.written.as_slice() == text.as_bytes(), "{row}");
    }
    Ok(())
}

// Files that ask for nothing, or for more than one design.
#[test]
fn no_designs(rt: HostRuntime) -> Result<(), Fail> {
    let alloc = rt.alloc();
    let nothing = ran(&rt, alloc, "design", HEADER.as_bytes())?;
    assert!(rt; nothing.code == Code::Done);
    assert!(rt; nothing.written.as_slice() == b"pallet-design 1\ndone 0\n".as_slice());
    let two = ran(
        &rt,
        alloc,
        "design",
        &file(alloc, "D,5,5,3,3,2,3,1\nD,5,5,3,3,2,3,1")?,
    )?;
    assert!(rt; two.code == Code::TooManyRows && two.written.is_empty());
    let orders = ran(&rt, alloc, "design", b"id,pallet_x,pallet_y\n")?;
    assert!(rt; orders.code == Code::NoHeader && orders.written.is_empty());
    Ok(())
}
