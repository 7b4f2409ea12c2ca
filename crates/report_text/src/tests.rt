use crate::{
    Entry, EntryFault, Form, PutStop, ReportFault, check_text, get_entry, put_done, put_entry,
    put_head,
};
use order_reader::{Field, RowFault};
use std::alloc::Global;
use std::test::Fail;
use texts::next_line;

// The report of a pallet of 5 by 5 in the first form: 26 lines.
static OLD: &[u8] = b"\
    pallet-report 1\n\
    entry 1\n\
    id A\n\
    order 5 5 3 2 1 10 2 1000 100 1 20\n\
    reduced 5 5 3 2\n\
    count 4\n\
    bound 4\n\
    status optimal\n\
    cert weighted\n\
    weighting area\n\
    tree .\n\
    layers 2\n\
    layer 1 same\n\
    0 0 L\n\
    3 0 S\n\
    0 2 S\n\
    2 3 L\n\
    layer 2 mirror-x\n\
    0 0 S\n\
    2 0 L\n\
    3 2 S\n\
    0 3 L\n\
    allowed 2\n\
    stack 1 2\n\
    end\n\
    done 1\n";

static NEW: &[u8] = b"\
    pallet-report 2\n\
    entry 1\n\
    id A\n\
    order 5 5 3 2 1 10 2 1000 100 1 20 0\n\
    reduced 5 5 3 2\n\
    count 4\n\
    bound 4\n\
    status optimal\n\
    cert weighted\n\
    weighting area\n\
    tree .\n\
    layers 2\n\
    layer 1 same\n\
    0 0 L\n\
    3 0 S\n\
    0 2 S\n\
    2 3 L\n\
    layer 2 mirror-x\n\
    0 0 S\n\
    2 0 L\n\
    3 2 S\n\
    0 3 L\n\
    allowed 2\n\
    stack 1 2\n\
    end\n\
    done 1\n";

// The report of a pallet of 1,200 by 800.
static OLD_PALLET: &[u8] = b"\
    pallet-report 1\n\
    entry 1\n\
    id EUR-400\n\
    order 1200 800 400 300 220 8000 1600 1000000 70 0 100\n\
    reduced 12 8 4 3\n\
    count 8\n\
    bound 8\n\
    status optimal\n\
    cert weighted\n\
    weighting area\n\
    tree .\n\
    layers 1\n\
    layer 1 same\n\
    0 0 S\n\
    300 0 S\n\
    600 0 S\n\
    900 0 S\n\
    0 400 S\n\
    300 400 S\n\
    600 400 S\n\
    900 400 S\n\
    allowed 7\n\
    stack 1 1 1 1 1 1 1\n\
    end\n\
    done 1\n";

static NEW_PALLET: &[u8] = b"\
    pallet-report 2\n\
    entry 1\n\
    id EUR-400\n\
    order 1200 800 400 300 220 8000 1600 1000000 70 0 100 0\n\
    reduced 12 8 4 3\n\
    count 8\n\
    bound 8\n\
    status optimal\n\
    cert weighted\n\
    weighting area\n\
    tree .\n\
    layers 1\n\
    layer 1 same\n\
    0 0 S\n\
    300 0 S\n\
    600 0 S\n\
    900 0 S\n\
    0 400 S\n\
    300 400 S\n\
    600 400 S\n\
    900 400 S\n\
    allowed 7\n\
    stack 1 1 1 1 1 1 1\n\
    end\n\
    done 1\n";

// The same report in today's form.
fn rewritten(alloc: Global, text: &[u8]) -> Result<Vec<u8>, Fail> {
    let Ok(mut entries) = check_text(alloc, text) else {
        return Err("no report".into());
    };
    let count = entries.left();
    let mut out = Vec::new(alloc);
    put_head(&mut out)?;
    for _ in 0..count {
        let Some(entry) = entries.next(alloc)? else {
            return Err("no entry".into());
        };
        if put_entry(&mut out, &entry).is_err() {
            return Err("no text".into());
        }
    }
    put_done(&mut out, count)?;
    Ok(out)
}

#[test]
fn forms(rt: HostRuntime) -> Result<(), Fail> {
    assert_eq!(rt; rewritten(rt.alloc(), OLD)?.as_slice(), NEW);
    assert_eq!(rt; rewritten(rt.alloc(), NEW)?.as_slice(), NEW);
    assert_eq!(rt; rewritten(rt.alloc(), OLD_PALLET)?.as_slice(), NEW_PALLET);
    Ok(())
}

// The line of the fault, or 0 where the bytes are a report.
fn line_of(alloc: Global, bytes: &[u8]) -> u32 {
    match check_text(alloc, bytes) {
        Ok(_) => 0,
        Err(ReportFault::Line(line)) => line,
        Err(ReportFault::Memory) => 1_000_000,
    }
}

// The line of the fault where one line of a report is another.
fn line_with(alloc: Global, text: &[u8], number: u32, line: &[u8]) -> Result<u32, Fail> {
    let mut out = Vec::new(alloc);
    let mut rest = text;
    for at in 1..=26 {
        let Some((first, behind)) = next_line(rest) else {
            break;
        };
        out.extend_from_slice(if at == number { line } else { first })?;
        out.push(b'\n')?;
        rest = behind;
    }
    Ok(line_of(alloc, &out))
}

/// A line of a report that is another, and the line of the fault.
struct Change {
    number: u32,
    line: &'static [u8],
    fault: u32,
}

static CHANGES: [Change; 11] = [
    Change {
        number: 1,
        line: b"pallet-report 1",
        fault: 0,
    },
    Change {
        number: 1,
        line: b"pallet-report 1\r",
        fault: 1,
    },
    Change {
        number: 1,
        line: b"pallet-report 2",
        fault: 4,
    },
    Change {
        number: 4,
        line: b"order 5 5 3 2 1 10 2 1000 101 1 20",
        fault: 4,
    },
    Change {
        number: 6,
        line: b"count 401",
        fault: 6,
    },
    Change {
        number: 6,
        line: b"count 5",
        fault: 18,
    },
    Change {
        number: 7,
        line: b"bound 0",
        fault: 7,
    },
    Change {
        number: 11,
        line: b"tree ",
        fault: 11,
    },
    Change {
        number: 14,
        line: b"00 0 L",
        fault: 14,
    },
    Change {
        number: 24,
        line: b"stack 1 3",
        fault: 24,
    },
    Change {
        number: 26,
        line: b"done 2",
        fault: 26,
    },
];

#[test]
fn other_lines(rt: HostRuntime) -> Result<(), Fail> {
    for change in &CHANGES {
        let fault = line_with(rt.alloc(), OLD, change.number, change.line)?;
        assert_eq!(rt; fault, change.fault);
    }
    let fault = line_with(rt.alloc(), NEW, 6, b"count 1001")?;
    assert_eq!(rt; fault, 6);
    Ok(())
}

#[test]
fn lengths(rt: HostRuntime) {
    for (len, fault) in [(0, 1), (15, 1), (16, 2), (30, 4), (264, 26), (265, 0)] {
        assert_eq!(rt; line_of(rt.alloc(), &OLD[..len]), fault);
    }
}

#[test]
fn longer(rt: HostRuntime) -> Result<(), Fail> {
    let mut longer = OLD.to_vec(rt.alloc())?;
    longer.push(b'd')?;
    assert_eq!(rt; line_of(rt.alloc(), &longer), 27);
    Ok(())
}

#[test]
fn shapes(rt: HostRuntime) -> Result<(), Fail> {
    let fault = RowFault::OutOfRange { field: Field::Gap };
    let mut out = vec![in rt.alloc(); b'x']?;
    let beyond = Entry::Refused { number: 257, fault };
    assert!(rt; put_entry(&mut out, &beyond) == Err(PutStop::Shape));
    assert_eq!(rt; out.as_slice(), b"x".as_slice());
    let last = Entry::Refused { number: 256, fault };
    assert!(rt; put_entry(&mut out, &last) == Ok(()));
    assert_eq!(rt;
        out.as_slice(),
        b"xentry 256\nrefused OutOfRange gap\nend\n".as_slice()
    );
    Ok(())
}

#[test]
fn entries(rt: HostRuntime) -> Result<(), Fail> {
    let new = b"entry 256\nrefused OutOfRange gap\nend\ny".as_slice();
    let Ok((entry, len)) = get_entry(rt.alloc(), new, Form::Two) else {
        return Err("no entry".into());
    };
    assert!(rt; entry.is_refused() && entry.number() == 256 && len == new.len() - 1);
    let old = b"entry 64\nrefused OutOfRange gap\nend\n".as_slice();
    let Err(EntryFault::Line(line)) = get_entry(rt.alloc(), old, Form::One) else {
        return Err("an entry".into());
    };
    assert_eq!(rt; line, 2);
    Ok(())
}
