use crate::{
    Best, Cover, Design, DesignFault, DesignStop, best_cover, put_best, put_design_head,
    read_design,
};
use order_reader::{Field, Row, RowFault};
use std::alloc::Global;
use std::test::Fail;

const HEADER: &str = "id,pallet_x,pallet_y,long_from,long_to,short_from,short_to,least_area";

// The design of a file with this one row.
fn design_of(alloc: Global, row: &str) -> Result<Design, Fail> {
    let text = format!(in alloc; "{HEADER}\n{row}\n")?;
    let design = read_design(alloc, text.as_bytes())?;
    Ok(design)
}

// The fault of the row, if it has one.
fn fault_of(alloc: Global, row: &str) -> Result<Option<DesignFault>, Fail> {
    match design_of(alloc, row)? {
        Design::Nothing => Err(Fail::from("no row")),
        Design::Refused(fault) => Ok(Some(fault)),
        Design::Rows { .. } => Ok(None),
    }
}

// The sides along x and y of each case, or the number and the fault.
#[derive(Clone, Copy, PartialEq, Eq, Debug)]
enum Seen {
    Sides(u32, u32),
    Refused(u32, RowFault),
}

// What is seen of each row that a row gives.
fn rows_of(alloc: Global, row: &str) -> Result<Vec<Seen>, Fail> {
    let Design::Rows { rows, .. } = design_of(alloc, row)? else {
        return Err(Fail::from("no rows"));
    };
    let mut seen = Vec::new(alloc);
    for row in &rows {
        let own = match row {
            Row::Order(order) => {
                Seen::Sides(order.number(Field::CaseX), order.number(Field::CaseY))
            }
            Row::Refused { number, fault } => Seen::Refused(*number, *fault),
        };
        seen.push(own)?;
    }
    Ok(seen)
}

#[test]
fn sizes(rt: HostRuntime) -> Result<(), Fail> {
    let two = rows_of(rt.alloc(), "D,5,5,3,3,2,3,1")?;
    assert!(rt; two.as_slice() == [Seen::Sides(3, 2), Seen::Sides(3, 3)].as_slice());
    let narrow = rows_of(rt.alloc(), "D,6,6,4,5,1,1,1")?;
    assert!(rt; narrow.as_slice() == [Seen::Sides(4, 1), Seen::Sides(5, 1)].as_slice());
    let six = rows_of(rt.alloc(), "D,9,9,2,4,1,3,4")?;
    let by_rising_sides = [
        Seen::Sides(2, 2),
        Seen::Sides(3, 2),
        Seen::Sides(3, 3),
        Seen::Sides(4, 1),
        Seen::Sides(4, 2),
        Seen::Sides(4, 3),
    ];
    assert!(rt; six.as_slice() == by_rising_sides.as_slice());
    let some = rows_of(rt.alloc(), "D,3,10,10,11,3,4,1")?;
    let one_fits = [
        Seen::Sides(10, 3),
        Seen::Refused(2, RowFault::DoesNotFit),
        Seen::Refused(3, RowFault::DoesNotFit),
        Seen::Refused(4, RowFault::DoesNotFit),
    ];
    assert!(rt; some.as_slice() == one_fits.as_slice());
    let small = rows_of(rt.alloc(), "D,1001,1,1,2,1,1,1")?;
    let first_too_small = [Seen::Refused(1, RowFault::TooManyCases), Seen::Sides(2, 1)];
    assert!(rt; small.as_slice() == first_too_small.as_slice());
    Ok(())
}

#[test]
fn orders_of_sizes(rt: HostRuntime) -> Result<(), Fail> {
    let text = format!(in rt.alloc(); "\u{feff}{HEADER}\r\n\"D,1\",5,6,3,3,2,2,1\r\n")?;
    let Design::Rows { id, rows } = read_design(rt.alloc(), text.as_bytes())? else {
        return Err(Fail::from("no rows"));
    };
    assert_eq!(rt; id.as_slice(), b"D,1".as_slice());
    let [Row::Order(order)] = rows.as_slice() else {
        return Err(Fail::from("not one order"));
    };
    assert_eq!(rt; order.id(), b"D,1".as_slice());
    assert_eq!(rt;
        order.numbers(),
        [5, 6, 3, 2, 1, 1, 1, 100_000_000, 0, 0, 100, 0]
    );
    Ok(())
}

#[test]
fn faults(rt: HostRuntime) -> Result<(), Fail> {
    let table = [
        ("D,5,5,3,3,2,3,1", None),
        ("D,5,5,3,3,2,3", Some(DesignFault::FieldCount)),
        ("D,5,5,3,3,2,3,1,1", Some(DesignFault::FieldCount)),
        (",5,5", Some(DesignFault::FieldCount)),
        (",5,5,3,3,2,3,1", Some(DesignFault::BadId)),
        (",x,5,3,3,2,3,1", Some(DesignFault::BadId)),
        (
            "D,5,05,3,3,2,3,1",
            Some(DesignFault::BadNumber { column: 3 }),
        ),
        (
            "D,5,5,+3,3,2,3,x",
            Some(DesignFault::BadNumber { column: 4 }),
        ),
        (
            "D,4001,5,3,3,2,3,",
            Some(DesignFault::BadNumber { column: 8 }),
        ),
        (
            "D,0,5,3,3,2,3,1",
            Some(DesignFault::OutOfRange { column: 2 }),
        ),
        (
            "D,5,4001,0,3,2,3,1",
            Some(DesignFault::OutOfRange { column: 3 }),
        ),
        (
            "D,5,5,3,3,2,4001,1",
            Some(DesignFault::OutOfRange { column: 7 }),
        ),
        (
            "D,5,5,4,3,2,3,0",
            Some(DesignFault::OutOfRange { column: 8 }),
        ),
        (
            "D,5,5,3,3,2,3,16000001",
            Some(DesignFault::OutOfRange { column: 8 }),
        ),
        ("D,5,5,3,3,2,3,26", Some(DesignFault::NoSize)),
        ("D,5,5,4,3,2,3,1", Some(DesignFault::NoSize)),
        ("D,5,5,3,3,4,5,1", Some(DesignFault::NoSize)),
        ("D,5,5,3,3,3,2,1", Some(DesignFault::NoSize)),
        (
            "D,4000,4000,1,4000,1,4000,1",
            Some(DesignFault::TooManySizes),
        ),
    ];
    for (row, fault) in table {
        let told = fault_of(rt.alloc(), row)?;
        assert_eq!(rt; told, fault, "{row}");
    }
    Ok(())
}

#[test]
fn ends_of_ranges(rt: HostRuntime) -> Result<(), Fail> {
    let least = rows_of(rt.alloc(), "D,1,1,1,1,1,1,1")?;
    assert!(rt; least.as_slice() == [Seen::Sides(1, 1)].as_slice());
    let greatest = rows_of(rt.alloc(), "D,4000,4000,1,4000,1,4000,16000000")?;
    assert!(rt; greatest.as_slice() == [Seen::Sides(4000, 4000)].as_slice());
    let most = rows_of(rt.alloc(), "D,400,300,1,256,1,1,1")?;
    assert_eq!(rt; most.len(), 256);
    assert!(rt; most[0] == Seen::Refused(1, RowFault::TooManyCases));
    assert!(rt; most[255] == Seen::Sides(256, 1));
    let more = fault_of(rt.alloc(), "D,400,300,1,257,1,1,1")?;
    assert_eq!(rt; more, Some(DesignFault::TooManySizes));
    Ok(())
}

#[test]
fn headers_and_rows(rt: HostRuntime) -> Result<(), Fail> {
    let stops = [
        ("", DesignStop::NoHeader),
        ("D,5,5,3,3,2,3,1\n", DesignStop::NoHeader),
        (
            "id,pallet_x,pallet_y,long_from,long_to,short_from,short_to\n",
            DesignStop::NoHeader,
        ),
        (
            "id,pallet_x,pallet_y,long_from,long_to,short_from,short_to,least_area,gap\n",
            DesignStop::NoHeader,
        ),
        (
            "id,pallet_y,pallet_x,long_from,long_to,short_from,short_to,least_area\nD\nE\n",
            DesignStop::NoHeader,
        ),
        (
            "id,pallet_x,pallet_y,long_from,long_to,short_from,short_to,least_area\nD\nE\n",
            DesignStop::TooManyRows,
        ),
    ];
    for (text, stop) in stops {
        assert_eq!(rt;
            read_design(rt.alloc(), text.as_bytes()).err(),
            Some(stop),
            "{text}"
        );
    }
    assert!(rt; matches!(read_design(rt.alloc(), HEADER.as_bytes())?, Design::Nothing));
    Ok(())
}

fn cover(number: u32, covers: u32, may: u32) -> Cover {
    Cover {
        number,
        covers,
        may,
    }
}

#[test]
fn best_covers(rt: HostRuntime) -> Result<(), Fail> {
    let best = best_cover(rt.alloc(), [cover(1, 24, 24), cover(2, 9, 9)].as_slice())?;
    assert!(rt; best.best == Some(cover(1, 24, 24)));
    assert_eq!(rt; best.rivals.len(), 0);
    let best = best_cover(rt.alloc(), [cover(1, 32, 32), cover(2, 35, 35)].as_slice())?;
    assert!(rt; best.best == Some(cover(2, 35, 35)));
    assert_eq!(rt; best.rivals.len(), 0);
    let alike = [
        cover(1, 20, 24),
        cover(3, 24, 26),
        cover(4, 24, 24),
        cover(7, 18, 25),
    ];
    let best = best_cover(rt.alloc(), alike.as_slice())?;
    assert!(rt; best.best == Some(cover(3, 24, 26)));
    assert!(rt; best.rivals.as_slice() == [cover(3, 24, 26), cover(7, 18, 25)].as_slice());
    let none = best_cover(rt.alloc(), [].as_slice())?;
    assert!(rt; none.best.is_none());
    assert_eq!(rt; none.rivals.len(), 0);
    Ok(())
}

// The head of the design of a row, behind a line.
fn head_of(alloc: Global, row: &str) -> Result<String, Fail> {
    let text = format!(in alloc; "{HEADER}\n{row}")?;
    let design = read_design(alloc, text.as_bytes())?;
    let mut out = Vec::from_slice(alloc, b"front\n".as_slice())?;
    put_design_head(&mut out, &design)?;
    let head = String::from_utf8(out).map_err(|_| "no text")?;
    Ok(head)
}

#[test]
fn heads(rt: HostRuntime) -> Result<(), Fail> {
    let table = [
        ("", "front\npallet-design 1\n"),
        ("D 1,5,5,3,3,2,3,1", "front\npallet-design 1\nid D 1\n"),
        ("D", "front\npallet-design 1\nrefused FieldCount\n"),
        (",,,,,,,", "front\npallet-design 1\nrefused BadId\n"),
        (
            "D,,5,3,3,2,3,1",
            "front\npallet-design 1\nrefused BadNumber pallet_x\n",
        ),
        (
            "D,5,,3,3,2,3,1",
            "front\npallet-design 1\nrefused BadNumber pallet_y\n",
        ),
        (
            "D,5,5,,3,2,3,1",
            "front\npallet-design 1\nrefused BadNumber long_from\n",
        ),
        (
            "D,5,5,3,,2,3,1",
            "front\npallet-design 1\nrefused BadNumber long_to\n",
        ),
        (
            "D,5,5,3,3,0,3,1",
            "front\npallet-design 1\nrefused OutOfRange short_from\n",
        ),
        (
            "D,5,5,3,3,2,0,1",
            "front\npallet-design 1\nrefused OutOfRange short_to\n",
        ),
        (
            "D,5,5,3,3,2,3,0",
            "front\npallet-design 1\nrefused OutOfRange least_area\n",
        ),
        (
            "D,5,5,3,3,2,3,26",
            "front\npallet-design 1\nrefused NoSize\n",
        ),
        (
            "D,9,9,1,257,1,1,1",
            "front\npallet-design 1\nrefused TooManySizes\n",
        ),
    ];
    for (row, head) in table {
        assert_eq!(rt; head_of(rt.alloc(), row)?.as_str(), head, "{row}");
    }
    Ok(())
}

#[test]
fn texts_of_bests(rt: HostRuntime) -> Result<(), Fail> {
    let mut out = Vec::from_slice(rt.alloc(), b"front\n".as_slice())?;
    let best = Best {
        best: Some(cover(1, 24, 26)),
        rivals: Vec::from_slice(
            rt.alloc(),
            [cover(1, 24, 26), cover(256, 9, 16_000_000)].as_slice(),
        )?,
    };
    put_best(&mut out, &best)?;
    assert_eq!(rt;
        out.as_slice(),
        b"front\nbest 1 covers 24\nrival 1 covers 26\nrival 256 covers 16000000\n".as_slice()
    );
    let mut out = Vec::new(rt.alloc());
    let none = best_cover(rt.alloc(), [].as_slice())?;
    put_best(&mut out, &none)?;
    assert_eq!(rt; out.as_slice(), b"best none\n".as_slice());
    Ok(())
}
