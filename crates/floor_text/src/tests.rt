use crate::{
    Entry, FloorRow, ReportFault, Rows, TotalLine, check_floor_text, head_line, put_floor_head,
    row_text,
};
use cert_text::Form;
use order_reader::RowFault;
use plan_entries::is_in_range;
use report_text::put_done;
use std::alloc::Global;
use std::test::Fail;
use texts::{count_lines, next_line, put_named};
use truck_floor::Total;

// A floor of 2 by 1 for pallets of 1 by 1 with one case each, and a row of too few fields: 39 lines.
static TWO: &[u8] = b"\
    pallet-floor 1\n\
    entry 1\n\
    id T\n\
    order 2 1 1 1 1 1 1 100000000 0 0 100 0\n\
    reduced 2 1 1 1\n\
    count 2\n\
    bound 2\n\
    status optimal\n\
    cert given-area\n\
    layers 1\n\
    layer 1 same\n\
    0 0 L\n\
    1 0 L\n\
    allowed 1\n\
    stack 1\n\
    end\n\
    entry 2\n\
    id T\n\
    order 1 1 1 1 1 1 1 3 0 0 100 0\n\
    reduced 1 1 1 1\n\
    count 1\n\
    bound 1\n\
    status optimal\n\
    cert given-area\n\
    layers 1\n\
    layer 1 same\n\
    0 0 L\n\
    allowed 1\n\
    stack 1\n\
    end\n\
    total 2 x 1 of 2 x 1 optimal\n\
    entry 3\n\
    refused FieldCount\n\
    end\n\
    entry 4\n\
    refused FieldCount\n\
    end\n\
    total none\n\
    done 4\n";

static NONE: &[u8] = b"pallet-floor 1\ndone 0\n";

// The line of the fault, or 0 where the bytes are a floor's text.
fn line_of(alloc: Global, bytes: &[u8]) -> u32 {
    match check_floor_text(alloc, bytes) {
        Ok(_) => 0,
        Err(ReportFault::Line(line)) => line,
        Err(ReportFault::Memory) => 1_000_000,
    }
}

#[test]
fn texts(rt: HostRuntime) {
    assert_eq!(rt; line_of(rt.alloc(), TWO), 0);
    assert_eq!(rt; line_of(rt.alloc(), NONE), 0);
}

#[test]
fn prefixes(rt: HostRuntime) {
    assert_eq!(rt; count_lines(TWO), 39);
    for len in 0..TWO.len() {
        let part = &TWO[..len];
        let line = line_of(rt.alloc(), part) as usize;
        assert!(rt; count_lines(part).checked_add(1) == Some(line));
    }
}

fn row_at(alloc: Global, rows: &mut Rows) -> Result<FloorRow, Fail> {
    match rows.next(alloc)? {
        Some(row) => Ok(row),
        None => Err("no row".into()),
    }
}

#[test]
fn rows(rt: HostRuntime) -> Result<(), Fail> {
    let Ok(mut rows) = check_floor_text(rt.alloc(), TWO) else {
        return Err("no floor".into());
    };
    assert_eq!(rt; rows.left(), 2);
    let first = row_at(rt.alloc(), &mut rows)?;
    assert!(rt; first.floor.number() == 1 && !first.floor.is_refused());
    assert!(rt; first.load.number() == 2 && !first.load.is_refused());
    let told = Total {
        pallets: 2,
        cases: 1,
        pallet_bound: 2,
        case_bound: 1,
        optimal: true,
    };
    assert!(rt; first.total == TotalLine::Numbers(told));
    assert_eq!(rt; rows.left(), 1);
    let second = row_at(rt.alloc(), &mut rows)?;
    assert!(rt; second.floor.number() == 3 && second.floor.is_refused());
    assert!(rt; second.load.number() == 4 && second.load.is_refused());
    assert!(rt; second.total == TotalLine::Nothing);
    assert_eq!(rt; rows.left(), 0);
    assert!(rt; rows.next(rt.alloc())?.is_none());
    Ok(())
}

#[test]
fn no_rows(rt: HostRuntime) -> Result<(), Fail> {
    let Ok(mut rows) = check_floor_text(rt.alloc(), NONE) else {
        return Err("no floor".into());
    };
    assert_eq!(rt; rows.left(), 0);
    assert!(rt; rows.next(rt.alloc())?.is_none());
    Ok(())
}

// The text of the rows of a text.
fn rewritten(alloc: Global, text: &[u8]) -> Result<Vec<u8>, Fail> {
    let Ok(mut rows) = check_floor_text(alloc, text) else {
        return Err("no floor".into());
    };
    let count = rows.left();
    let mut out = Vec::new(alloc);
    put_floor_head(&mut out)?;
    for _ in 0..count {
        let row = row_at(alloc, &mut rows)?;
        if !is_in_range(&row.floor, Form::Two) || !is_in_range(&row.load, Form::Two) {
            return Err("no text".into());
        }
        out.extend_from_slice(&row_text(alloc, &row)?)?;
    }
    put_done(&mut out, 2 * count)?;
    Ok(out)
}

#[test]
fn written(rt: HostRuntime) -> Result<(), Fail> {
    assert_eq!(rt; head_line(), b"pallet-floor 1\n".as_slice());
    assert_eq!(rt; rewritten(rt.alloc(), TWO)?.as_slice(), TWO);
    assert_eq!(rt; rewritten(rt.alloc(), NONE)?.as_slice(), NONE);
    Ok(())
}

#[test]
fn made_rows(rt: HostRuntime) -> Result<(), Fail> {
    let fault = RowFault::BadId;
    let row = FloorRow {
        floor: Entry::Refused { number: 9, fault },
        load: Entry::Refused { number: 10, fault },
        total: TotalLine::Nothing,
    };
    if !is_in_range(&row.floor, Form::Two) || !is_in_range(&row.load, Form::Two) {
        return Err("no text".into());
    }
    assert_eq!(rt;
        row_text(rt.alloc(), &row)?.as_slice(),
        b"entry 9\nrefused BadId\nend\nentry 10\nrefused BadId\nend\ntotal none\n".as_slice()
    );
    Ok(())
}

// The line of the fault where one line of a text is another, or more than one.
fn line_with(alloc: Global, text: &[u8], number: u32, line: &[u8]) -> Result<u32, Fail> {
    let mut out = Vec::new(alloc);
    let mut rest = text;
    for at in 1..=40 {
        let Some((first, after)) = next_line(rest) else {
            break;
        };
        out.extend_from_slice(if at == number { line } else { first })?;
        out.push(b'\n')?;
        rest = after;
    }
    Ok(line_of(alloc, &out))
}

// The number of a line, another line in its place, and the line of the fault.
static CHANGES: [(u32, &[u8], u32); 30] = [
    (1, b"pallet-floor 2", 1),
    (1, b"pallet-floor 1 ", 1),
    (1, b"pallet-floor 1\r", 1),
    (1, b"pallet-report 2", 1),
    (1, b"pallet-choice 1", 1),
    (2, b"entry 2", 2),
    (2, b"entry 01", 2),
    (2, b"done 1", 2),
    (6, b"count 3", 14),
    (6, b"count 1001", 6),
    (17, b"entry 1", 17),
    (17, b"entry 3", 17),
    (17, b"total none", 17),
    (17, b"done 1", 17),
    (31, b"total 34 x 0 of 2 x 10000000 open", 0),
    (31, b"total none", 0),
    (31, b"total 2 x 1 of 2 x 1 optimal ", 31),
    (31, b"total 0 x 1 of 2 x 1 open", 31),
    (31, b"total 1001 x 1 of 2 x 1 open", 31),
    (31, b"total 2 x 10000001 of 2 x 1 open", 31),
    (31, b"entry 3", 31),
    (31, b"total none\ntotal none", 32),
    (32, b"entry 5", 32),
    (32, b"done 4", 32),
    (33, b"refused FieldCount gap", 33),
    (35, b"total none", 35),
    (38, b"total 2 x 1 of 2 x 1 optimal", 0),
    (39, b"done 2", 39),
    (39, b"done 4\r", 39),
    (39, b"done 4\ndone 4", 40),
];

#[test]
fn other_lines(rt: HostRuntime) -> Result<(), Fail> {
    for (number, line, fault) in CHANGES {
        assert_eq!(rt; line_with(rt.alloc(), TWO, number, line)?, fault);
    }
    Ok(())
}

#[test]
fn other_texts(rt: HostRuntime) -> Result<(), Fail> {
    let alloc = rt.alloc();
    assert_eq!(rt; line_of(alloc, b""), 1);
    assert_eq!(rt; line_of(alloc, b"pallet-floor 1\ndone 1\n"), 2);
    assert_eq!(rt; line_of(alloc, b"pallet-floor 1\ntotal none\ndone 0\n"), 2);
    assert_eq!(rt; line_of(alloc, b"pallet-floor 1\n\ndone 0\n"), 2);
    assert_eq!(rt; line_of(alloc, b"pallet-floor 1\r\ndone 0\r\n"), 1);
    let mut longer = NONE.to_vec(alloc)?;
    longer.push(b'd')?;
    assert_eq!(rt; line_of(alloc, &longer), 3);
    Ok(())
}

// The text of so many rows that do not fit.
fn text_of_refused(alloc: Global, count: u32) -> Result<Vec<u8>, Fail> {
    let mut out = head_line().to_vec(alloc)?;
    for before in 0..count {
        for number in [2 * u64::from(before) + 1, 2 * u64::from(before) + 2] {
            put_named(&mut out, b"entry ", number)?;
            out.extend_from_slice(b"\nrefused DoesNotFit\nend\n")?;
        }
        out.extend_from_slice(b"total none\n")?;
    }
    put_done(&mut out, count.saturating_mul(2))?;
    Ok(out)
}

#[test]
fn most_rows(rt: HostRuntime) -> Result<(), Fail> {
    let most = text_of_refused(rt.alloc(), 128)?;
    assert_eq!(rt; line_of(rt.alloc(), &most), 0);
    let more = text_of_refused(rt.alloc(), 129)?;
    assert_eq!(rt; line_of(rt.alloc(), &more), 1 + 128 * 7 + 1);
    Ok(())
}
