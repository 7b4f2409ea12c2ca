use crate::{check_floor, floor};
use plan_io::{MemSink, MemSource};
use run_parts::{Answer, Code};
use std::alloc::Global;
use std::test::Fail;

const HEADER: &str =
    "id,floor_x,floor_y,pallet_x,pallet_y,case_x,case_y,case_z,weight,max_height,max_weight,contact,support,cut,gap\n";

// Two pallets of one case each, and rows of too few fields.
const SMALL: &str = "T,2,1,1,1,1,1,1,1,1,3,0,0,100,0\n";

const SHORT: &str = "T,2,1,1,1,1,1,1,1,1,3,0,0,100\n";

// The header, and these rows.
fn file_of(alloc: Global, rows: &[&str]) -> Result<Vec<u8>, Fail> {
    let mut file = HEADER.as_bytes().to_vec(alloc)?;
    for row in rows {
        file.extend_from_slice(row.as_bytes())?;
    }
    Ok(file)
}

// More bytes than any text here has.
const ROOM: usize = 20_000;

// The code of a run of `floor` over a file, and what it wrote. The sink has room for so many bytes, and fails at the calls
// of these numbers.
fn floored(
    alloc: Global,
    file: Vec<u8>,
    room: usize,
    failing: Vec<u64>,
) -> Result<(Code, Vec<u8>), Fail> {
    let mut source = MemSource::new(file, 50, Vec::new(alloc));
    let mut sink = MemSink::new(alloc, room, 64, failing)?;
    let code = floor(alloc, &mut source, &mut sink);
    Ok((code, sink.written().to_vec(alloc)?))
}

// Whether the bytes stand somewhere in the text.
fn has(text: &[u8], bytes: &[u8]) -> bool {
    let mut found = false;
    for at in 0..text.len() {
        found |= text[at..].starts_with(bytes);
    }
    found
}

// A truck of 1360 by 245 with pallets of 120 by 80: 34 of them, each with seven layers of eight cases.
#[test]
fn trucks(rt: HostRuntime) -> Result<(), Fail> {
    let alloc = rt.alloc();
    let row = "T,1360,245,120,80,40,30,22,8000,160,1000000,70,0,100,0\n";
    let (code, text) = floored(
        alloc,
        file_of(alloc, [row].as_slice())?,
        ROOM,
        Vec::new(alloc),
    )?;
    assert!(rt; code == Code::Done);
    assert!(rt;
        text.starts_with(
            b"pallet-floor 1\nentry 1\nid T\norder 1360 245 120 80 1 1 1 100000000 0 0 100 0\n".as_slice()
        )
    );
    assert!(rt; has(&text, b"\ncount 34\nbound 34\nstatus optimal\n"));
    assert!(rt;
        has(
            &text,
            b"\nentry 2\nid T\norder 120 80 40 30 22 8000 160 1000000 70 0 100 0\n"
        )
    );
    assert!(rt; has(&text, b"\ncount 8\nbound 8\nstatus optimal\n"));
    assert!(rt; has(&text, b"\nallowed 7\nstack "));
    assert!(rt; text.ends_with(b"\nend\ntotal 34 x 56 of 34 x 56 optimal\ndone 2\n".as_slice()));
    let row = "T,1360,245,120,80,40,30,22,8000,160,1000000,70,1,100,0\n";
    let (code, text) = floored(
        alloc,
        file_of(alloc, [row].as_slice())?,
        ROOM,
        Vec::new(alloc),
    )?;
    assert!(rt; code == Code::Done);
    assert!(rt; has(&text, b"\nunmet\nrule contact "));
    assert!(rt; text.ends_with(b"\nend\ntotal 34 x 0 of 34 x 56 open\ndone 2\n".as_slice()));
    Ok(())
}

// The weight allows twelve cases on a pallet, which is one layer of eight.
#[test]
fn heavy_loads(rt: HostRuntime) -> Result<(), Fail> {
    let alloc = rt.alloc();
    let row = "T,120,160,120,80,40,30,22,8000,160,100000,0,0,100,0\n";
    let (code, text) = floored(
        alloc,
        file_of(alloc, [row].as_slice())?,
        ROOM,
        Vec::new(alloc),
    )?;
    assert!(rt; code == Code::Done);
    assert!(rt;
        text.ends_with(
            b"\nallowed 1\nstack 1\nend\ntotal 2 x 8 of 2 x 12 open\ndone 2\n".as_slice()
        )
    );
    Ok(())
}

#[test]
fn refused_rows(rt: HostRuntime) -> Result<(), Fail> {
    let alloc = rt.alloc();
    let none = "T,60,60,120,80,40,30,22,8000,160,1000000,70,0,100,0\n";
    let file = file_of(alloc, [none, SMALL].as_slice())?;
    let (code, text) = floored(alloc, file, ROOM, Vec::new(alloc))?;
    assert!(rt; code == Code::Findings);
    assert!(rt;
        text.starts_with(
            b"pallet-floor 1\nentry 1\nrefused DoesNotFit\nend\nentry 2\nid T\n".as_slice()
        )
    );
    assert!(rt; has(&text, b"\nend\ntotal none\nentry 3\nid T\n"));
    assert!(rt; text.ends_with(b"\nend\ntotal 2 x 1 of 2 x 1 optimal\ndone 4\n".as_slice()));
    // The load alone is refused.
    let load = "T,2,1,1,1,2,1,1,1,1,3,0,0,100,0\n";
    let (code, text) = floored(
        alloc,
        file_of(alloc, [load].as_slice())?,
        ROOM,
        Vec::new(alloc),
    )?;
    assert!(rt; code == Code::Findings);
    assert!(rt;
        text.ends_with(b"\nend\nentry 2\nrefused DoesNotFit\nend\ntotal none\ndone 2\n".as_slice())
    );
    let long = "T,2,1,1,1,1,1,1,1,1,3,0,0,100,0,0\n";
    let file = file_of(alloc, [SHORT, long].as_slice())?;
    let (code, text) = floored(alloc, file, ROOM, Vec::new(alloc))?;
    assert!(rt; code == Code::Findings);
    assert_eq!(rt;
        text.as_slice(),
        b"\
    pallet-floor 1\n\
    entry 1\n\
    refused FieldCount\n\
    end\n\
    entry 2\n\
    refused FieldCount\n\
    end\n\
    total none\n\
    entry 3\n\
    refused FieldCount\n\
    end\n\
    entry 4\n\
    refused FieldCount\n\
    end\n\
    total none\n\
    done 4\n"
            .as_slice()
    );
    Ok(())
}

#[test]
fn no_rows(rt: HostRuntime) -> Result<(), Fail> {
    let alloc = rt.alloc();
    let file = file_of(alloc, [].as_slice())?;
    let (code, text) = floored(alloc, file, ROOM, Vec::new(alloc))?;
    assert!(rt; code == Code::Done);
    assert_eq!(rt; text.as_slice(), b"pallet-floor 1\ndone 0\n".as_slice());
    let (code, text) = floored(alloc, Vec::new(alloc), ROOM, Vec::new(alloc))?;
    assert!(rt; code == Code::NoHeader && text.is_empty());
    let orders =
        "id,pallet_x,pallet_y,case_x,case_y,case_z,weight,max_height,max_weight,contact,support,cut,gap\n";
    let file = orders.as_bytes().to_vec(alloc)?;
    let (code, text) = floored(alloc, file, ROOM, Vec::new(alloc))?;
    assert!(rt; code == Code::NoHeader && text.is_empty());
    let many = file_of(alloc, [SHORT; 129].as_slice())?;
    let (code, text) = floored(alloc, many, ROOM, Vec::new(alloc))?;
    assert!(rt; code == Code::TooManyRows && text.is_empty());
    let most = file_of(alloc, [SHORT; 128].as_slice())?;
    let (code, text) = floored(alloc, most, ROOM, Vec::new(alloc))?;
    assert!(rt; code == Code::Findings && text.ends_with(b"\ntotal none\ndone 256\n".as_slice()));
    let long = vec![in alloc; b'A'; 262_145]?;
    let (code, text) = floored(alloc, long, ROOM, Vec::new(alloc))?;
    assert!(rt; code == Code::TooLong && text.is_empty());
    Ok(())
}

// What `floor` writes of a row of too few fields.
const REFUSED: &str =
    "entry 1\nrefused FieldCount\nend\nentry 2\nrefused FieldCount\nend\ntotal none\n";

// The first line, a row and the end are a piece each: of calls that take 64 bytes the row takes two.
#[test]
fn pieces_of_floors(rt: HostRuntime) -> Result<(), Fail> {
    let alloc = rt.alloc();
    let whole = format!(in alloc; "pallet-floor 1\n{REFUSED}done 2\n")?;
    for (place, len) in [0, 15, 79, 15 + REFUSED.len()].iter().enumerate() {
        let failing = vec![in alloc; place as u64 + 1]?;
        let file = file_of(alloc, [SHORT].as_slice())?;
        let (code, text) = floored(alloc, file, ROOM, failing)?;
        assert!(rt; code == Code::WriteFault);
        assert_eq!(rt; text.as_slice(), &whole.as_bytes()[..*len]);
    }
    let file = file_of(alloc, [SHORT].as_slice())?;
    let (code, text) = floored(alloc, file, ROOM, vec![in alloc; 5]?)?;
    assert!(rt; code == Code::Findings);
    assert_eq!(rt; text.as_slice(), whole.as_bytes());
    Ok(())
}

#[test]
fn short_rooms(rt: HostRuntime) -> Result<(), Fail> {
    let alloc = rt.alloc();
    let whole = format!(in alloc; "pallet-floor 1\n{REFUSED}done 2\n")?;
    for room in [7, 20, 15 + REFUSED.len(), whole.len() - 1] {
        let file = file_of(alloc, [SHORT].as_slice())?;
        let (code, text) = floored(alloc, file, room, Vec::new(alloc))?;
        assert!(rt; code == Code::WriteFault);
        assert_eq!(rt; text.as_slice(), &whole.as_bytes()[..room]);
    }
    Ok(())
}

// A read that fails, and one that fails in mid-file.
#[test]
fn failing_sources(rt: HostRuntime) -> Result<(), Fail> {
    let alloc = rt.alloc();
    for call in [1, 2] {
        let file = file_of(alloc, [SHORT].as_slice())?;
        let mut source = MemSource::new(file, 50, vec![in alloc; call]?);
        let mut sink = MemSink::new(alloc, ROOM, 64, Vec::new(alloc))?;
        assert!(rt; floor(alloc, &mut source, &mut sink) == Code::ReadFault);
        assert!(rt; sink.written().is_empty());
        let text = text_of(alloc, TWO, ONE, "total 2 x 1 of 2 x 1 optimal\n")?;
        let mut source = MemSource::new(text, 50, vec![in alloc; call]?);
        let answer = check_floor(alloc, &mut source, &mut sink);
        assert!(rt; answer.code == Code::ReadFault && answer.line == 0);
        assert!(rt; sink.written().is_empty());
    }
    Ok(())
}

// The floor of 2 by 1 with two pallets of 1 by 1, from its order on.
const TWO: &str =
    "order 2 1 1 1 1 1 1 100000000 0 0 100 0\nreduced 2 1 1 1\ncount 2\nbound 2\nstatus optimal\ncert given-area\nlayers 1\nlayer 1 same\n0 0 L\n1 0 L\nallowed 1\nstack 1\nend\n";

// The same of a floor that tells another weight of a pallet, and of one whose bound no certificate shows.
const OTHER_WEIGHT: &str =
    "order 2 1 1 1 1 2 1 100000000 0 0 100 0\nreduced 2 1 1 1\ncount 2\nbound 2\nstatus optimal\ncert given-area\nlayers 1\nlayer 1 same\n0 0 L\n1 0 L\nallowed 1\nstack 1\nend\n";

const LOW_BOUND: &str =
    "order 2 1 1 1 1 1 1 100000000 0 0 100 0\nreduced 2 1 1 1\ncount 2\nbound 1\nstatus open\ncert given-area\nlayers 1\nlayer 1 same\n0 0 L\n1 0 L\nallowed 1\nstack 1\nend\n";

// One case on a pallet of 1 by 1: three could be borne, but one is as high as the stack may be.
const ONE: &str =
    "order 1 1 1 1 1 1 1 3 0 0 100 0\nreduced 1 1 1 1\ncount 1\nbound 1\nstatus optimal\ncert given-area\nlayers 1\nlayer 1 same\n0 0 L\nallowed 1\nstack 1\nend\n";

// The same where two are as high as the stack may be, but one is told to be allowed.
const ONE_OF_TWO: &str =
    "order 1 1 1 1 1 1 2 3 0 0 100 0\nreduced 1 1 1 1\ncount 1\nbound 1\nstatus optimal\ncert given-area\nlayers 1\nlayer 1 same\n0 0 L\nallowed 1\nstack 1\nend\n";

// A floor for one pallet of 2 by 1, and the same with the pallet's sides exchanged.
const LYING: &str =
    "order 2 1 2 1 1 1 1 100000000 0 0 100 0\nreduced 2 1 2 1\ncount 1\nbound 1\nstatus optimal\ncert given-area\nlayers 1\nlayer 1 same\n0 0 L\nallowed 1\nstack 1\nend\n";

const EXCHANGED: &str =
    "order 2 1 1 2 1 1 1 100000000 0 0 100 0\nreduced 2 1 2 1\ncount 1\nbound 1\nstatus optimal\ncert given-area\nlayers 1\nlayer 1 same\n0 0 L\nallowed 1\nstack 1\nend\n";

// Two cases on a pallet of 2 by 1, and the same where the weight allows one case, so no layer.
const PAIR: &str =
    "order 2 1 1 1 1 1 1 3 0 0 100 0\nreduced 2 1 1 1\ncount 2\nbound 2\nstatus optimal\ncert given-area\nlayers 1\nlayer 1 same\n0 0 L\n1 0 L\nallowed 1\nstack 1\nend\n";

const HEAVY_PAIR: &str =
    "order 2 1 1 1 1 1 1 1 0 0 100 0\nreduced 2 1 1 1\ncount 2\nbound 2\nstatus optimal\ncert given-area\nlayers 1\nlayer 1 same\n0 0 L\n1 0 L\nallowed 0\nstack\nend\n";

// The text of a floor of one row, of whose entries these are the texts behind the id.
fn text_of(alloc: Global, floor: &str, load: &str, total: &str) -> Result<Vec<u8>, Fail> {
    let mut text = Vec::new(alloc);
    for part in [
        "pallet-floor 1\nentry 1\nid T\n",
        floor,
        "entry 2\nid T\n",
        load,
        total,
        "done 2\n",
    ] {
        text.extend_from_slice(part.as_bytes())?;
    }
    Ok(text)
}

// The answer of a run of `check_floor` over a text, and what it wrote. The sink fails at the calls of these numbers.
fn judged(alloc: Global, text: Vec<u8>, failing: Vec<u64>) -> Result<(Answer, Vec<u8>), Fail> {
    let mut source = MemSource::new(text, 100, Vec::new(alloc));
    let mut sink = MemSink::new(alloc, ROOM, 64, failing)?;
    let answer = check_floor(alloc, &mut source, &mut sink);
    Ok((answer, sink.written().to_vec(alloc)?))
}

static ALL_YES: &[u8] = b"entry 1 yes\nentry 2 yes\ntotal yes\ndone 2\n";

static TOTAL_NO: &[u8] = b"entry 1 yes\nentry 2 yes\ntotal no\ndone 2\n";

#[test]
fn right_totals(rt: HostRuntime) -> Result<(), Fail> {
    let alloc = rt.alloc();
    let right = [
        (TWO, ONE, "total 2 x 1 of 2 x 1 optimal\n"),
        (LYING, PAIR, "total 1 x 2 of 1 x 2 optimal\n"),
        (LYING, HEAVY_PAIR, "total 1 x 0 of 1 x 1 open\n"),
    ];
    for (floor, load, total) in right {
        let text = text_of(alloc, floor, load, total)?;
        let (answer, written) = judged(alloc, text, Vec::new(alloc))?;
        assert!(rt; answer.code == Code::Done && answer.line == 0);
        assert_eq!(rt; written.as_slice(), ALL_YES);
    }
    Ok(())
}

#[test]
fn wrong_totals(rt: HostRuntime) -> Result<(), Fail> {
    let alloc = rt.alloc();
    let wrong = [
        // The last word, and each number.
        (TWO, ONE, "total 2 x 1 of 2 x 1 open\n"),
        (TWO, ONE, "total 1 x 1 of 2 x 1 open\n"),
        (TWO, ONE, "total 2 x 0 of 2 x 1 open\n"),
        (TWO, ONE, "total 2 x 1 of 3 x 1 open\n"),
        (TWO, ONE, "total 2 x 1 of 2 x 3 open\n"),
        (TWO, ONE, "total 2 x 1 of 2 x 2 optimal\n"),
        (TWO, ONE, "total none\n"),
        // Numbers of a pallet that the weight allows no layer.
        (LYING, HEAVY_PAIR, "total 1 x 2 of 1 x 2 optimal\n"),
        (LYING, HEAVY_PAIR, "total 1 x 0 of 1 x 2 open\n"),
        // Orders that do not go together.
        (OTHER_WEIGHT, ONE, "total 2 x 1 of 2 x 1 optimal\n"),
        (EXCHANGED, PAIR, "total 1 x 2 of 1 x 2 optimal\n"),
        (TWO, PAIR, "total 2 x 2 of 2 x 2 optimal\n"),
    ];
    for (floor, load, total) in wrong {
        let text = text_of(alloc, floor, load, total)?;
        let (answer, written) = judged(alloc, text, Vec::new(alloc))?;
        assert!(rt; answer.code == Code::Findings && answer.line == 0);
        assert_eq!(rt; written.as_slice(), TOTAL_NO);
    }
    Ok(())
}

// Totals that would be right of entries that are.
#[test]
fn wrong_entries(rt: HostRuntime) -> Result<(), Fail> {
    let alloc = rt.alloc();
    let text = text_of(alloc, LOW_BOUND, ONE, "total 2 x 1 of 1 x 1 open\n")?;
    let (answer, written) = judged(alloc, text, Vec::new(alloc))?;
    assert!(rt; answer.code == Code::Findings);
    assert_eq!(rt;
        written.as_slice(),
        b"entry 1 no bound 0\nentry 2 yes\ntotal no\ndone 2\n".as_slice()
    );
    let text = text_of(alloc, TWO, ONE_OF_TWO, "total 2 x 1 of 2 x 2 open\n")?;
    let (answer, written) = judged(alloc, text, Vec::new(alloc))?;
    assert!(rt; answer.code == Code::Findings);
    assert_eq!(rt;
        written.as_slice(),
        b"entry 1 yes\nentry 2 no allowed 0\ntotal no\ndone 2\n".as_slice()
    );
    Ok(())
}

#[test]
fn refused_entries(rt: HostRuntime) -> Result<(), Fail> {
    let alloc = rt.alloc();
    let text = format!(in alloc;
        "pallet-floor 1\n{REFUSED}entry 3\nrefused BadId\nend\nentry 4\nid T\n{ONE}total none\nentry 5\nid T\n{TWO}entry 6\nrefused DoesNotFit\nend\ntotal 2 x 1 of 2 x 1 optimal\ndone 6\n"
    )?;
    let (answer, written) = judged(alloc, text.as_bytes().to_vec(alloc)?, Vec::new(alloc))?;
    assert!(rt; answer.code == Code::Findings && answer.line == 0);
    assert_eq!(rt;
        written.as_slice(),
        b"entry 1 refused\nentry 2 refused\ntotal yes\nentry 3 refused\nentry 4 yes\ntotal yes\nentry 5 yes\nentry 6 refused\ntotal no\ndone 6\n".as_slice()
    );
    Ok(())
}

#[test]
fn no_floors(rt: HostRuntime) -> Result<(), Fail> {
    let alloc = rt.alloc();
    let texts = [
        (b"".as_slice(), 1),
        (b"pallet-report 2\ndone 0\n".as_slice(), 1),
        (b"pallet-floor 1\ndone 2\n".as_slice(), 2),
        (b"pallet-floor 1\ntotal none\ndone 0\n".as_slice(), 2),
        (b"pallet-floor 1\ndone 0\n\n".as_slice(), 3),
        (
            b"pallet-floor 1\nentry 1\nrefused BadId\nend\ndone 1\n".as_slice(),
            5,
        ),
    ];
    for (text, line) in texts {
        let (answer, written) = judged(alloc, text.to_vec(alloc)?, Vec::new(alloc))?;
        assert!(rt; answer.code == Code::BadReport && answer.line == line);
        assert!(rt; written.is_empty());
    }
    let none = b"pallet-floor 1\ndone 0\n".as_slice();
    let (answer, written) = judged(alloc, none.to_vec(alloc)?, Vec::new(alloc))?;
    assert!(rt; answer.code == Code::Done);
    assert_eq!(rt; written.as_slice(), b"done 0\n".as_slice());
    Ok(())
}

// The lines of a row and the end are a piece each.
#[test]
fn pieces_of_judgements(rt: HostRuntime) -> Result<(), Fail> {
    let alloc = rt.alloc();
    let wanted = [
        b"".as_slice(),
        b"entry 1 yes\nentry 2 yes\ntotal yes\n".as_slice(),
    ];
    for (place, lines) in wanted.iter().enumerate() {
        let failing = vec![in alloc; place as u64 + 1]?;
        let text = text_of(alloc, TWO, ONE, "total 2 x 1 of 2 x 1 optimal\n")?;
        let (answer, written) = judged(alloc, text, failing)?;
        assert!(rt; answer.code == Code::WriteFault && answer.line == 0);
        assert_eq!(rt; written.as_slice(), *lines);
    }
    let text = text_of(alloc, TWO, ONE, "total 2 x 1 of 2 x 1 optimal\n")?;
    let (answer, _) = judged(alloc, text, vec![in alloc; 3]?)?;
    assert!(rt; answer.code == Code::Done);
    Ok(())
}

#[test]
fn floors_are_judged_right(rt: HostRuntime) -> Result<(), Fail> {
    let alloc = rt.alloc();
    let unmet = "T,1360,245,120,80,40,30,22,8000,160,1000000,70,1,100,0\n";
    let file = file_of(alloc, [SMALL, SHORT, unmet].as_slice())?;
    let (_, text) = floored(alloc, file, ROOM, Vec::new(alloc))?;
    let (answer, written) = judged(alloc, text, Vec::new(alloc))?;
    assert!(rt; answer.code == Code::Done);
    assert_eq!(rt;
        written.as_slice(),
        b"entry 1 yes\nentry 2 yes\ntotal yes\nentry 3 refused\nentry 4 refused\ntotal yes\nentry 5 yes\nentry 6 yes\ntotal yes\ndone 6\n".as_slice()
    );
    Ok(())
}
