use crate::{ChoiceText, Entry, ReportFault, check_choice_text, head_line, put_choice_head};
use pallet_choice::{Choice, Score, put_choice};
use report_text::{put_done, put_entry};
use std::alloc::Global;
use std::test::Fail;
use texts::{count_lines, next_line, put_named};

// A pallet of 1 by 1, one of 3 by 1 that could hold a case more, and a row that does not fit: 36 lines.
static THREE: &[u8] = b"\
    pallet-choice 1\n\
    entry 1\n\
    id A\n\
    order 1 1 1 1 1 1 1 1 0 0 100 0\n\
    reduced 1 1 1 1\n\
    count 1\n\
    bound 1\n\
    status optimal\n\
    cert given-area\n\
    layers 1\n\
    layer 1 same\n\
    0 0 L\n\
    allowed 1\n\
    stack 1\n\
    end\n\
    entry 2\n\
    id B\n\
    order 3 1 1 1 1 1 1 3 0 0 100 0\n\
    reduced 3 1 1 1\n\
    count 2\n\
    bound 3\n\
    status open\n\
    cert given-area\n\
    layers 1\n\
    layer 1 same\n\
    0 0 L\n\
    1 0 L\n\
    allowed 1\n\
    stack 1\n\
    end\n\
    entry 3\n\
    refused DoesNotFit\n\
    end\n\
    chosen 2 count 2\n\
    rival 2 bound 3\n\
    done 3\n";

static REFUSED: &[u8] =
    b"pallet-choice 1\nentry 1\nrefused BadId\nend\nentry 2\nrefused OutOfRange gap\nend\nchosen none\ndone 2\n";

static NONE: &[u8] = b"pallet-choice 1\nchosen none\ndone 0\n";

// The line of the fault, or 0 where the bytes are a choice's text.
fn line_of(alloc: Global, bytes: &[u8]) -> u32 {
    match check_choice_text(alloc, bytes) {
        Ok(_) => 0,
        Err(ReportFault::Line(line)) => line,
        Err(ReportFault::Memory) => 1_000_000,
    }
}

#[test]
fn texts(rt: HostRuntime) {
    assert_eq!(rt; line_of(rt.alloc(), THREE), 0);
    assert_eq!(rt; line_of(rt.alloc(), REFUSED), 0);
    assert_eq!(rt; line_of(rt.alloc(), NONE), 0);
}

#[test]
fn prefixes(rt: HostRuntime) {
    assert_eq!(rt; count_lines(THREE), 36);
    for len in 0..THREE.len() {
        let part = &THREE[..len];
        let line = line_of(rt.alloc(), part) as usize;
        assert!(rt; count_lines(part).checked_add(1) == Some(line));
    }
}

fn entry_at(alloc: Global, choice: &mut ChoiceText) -> Result<Entry, Fail> {
    match choice.entries.next(alloc)? {
        Some(entry) => Ok(entry),
        None => Err("no entry".into()),
    }
}

#[test]
fn entries(rt: HostRuntime) -> Result<(), Fail> {
    let Ok(mut choice) = check_choice_text(rt.alloc(), THREE) else {
        return Err("no choice".into());
    };
    assert_eq!(rt; choice.entries.left(), 3);
    let first = entry_at(rt.alloc(), &mut choice)?;
    assert!(rt; first.number() == 1 && !first.is_refused());
    let second = entry_at(rt.alloc(), &mut choice)?;
    assert!(rt; second.number() == 2 && !second.is_refused());
    assert_eq!(rt; choice.entries.left(), 1);
    let third = entry_at(rt.alloc(), &mut choice)?;
    assert!(rt; third.number() == 3 && third.is_refused());
    assert_eq!(rt; choice.entries.left(), 0);
    assert!(rt; choice.entries.next(rt.alloc())?.is_none());
    assert!(rt; choice.tail.chosen == Some((2, 2)));
    assert!(rt; choice.tail.rivals.as_slice() == [(2, 3)].as_slice());
    Ok(())
}

#[test]
fn no_entries(rt: HostRuntime) -> Result<(), Fail> {
    let Ok(mut choice) = check_choice_text(rt.alloc(), NONE) else {
        return Err("no choice".into());
    };
    assert_eq!(rt; choice.entries.left(), 0);
    assert!(rt; choice.entries.next(rt.alloc())?.is_none());
    assert!(rt; choice.tail.chosen.is_none());
    assert_eq!(rt; choice.tail.rivals.len(), 0);
    Ok(())
}

// The text of the choice among the entries of a text.
fn rewritten(alloc: Global, text: &[u8], choice: &Choice) -> Result<Vec<u8>, Fail> {
    let Ok(mut found) = check_choice_text(alloc, text) else {
        return Err("no choice".into());
    };
    let count = found.entries.left();
    let mut out = Vec::new(alloc);
    put_choice_head(&mut out)?;
    for _ in 0..count {
        let entry = entry_at(alloc, &mut found)?;
        if put_entry(&mut out, &entry).is_err() {
            return Err("no text".into());
        }
    }
    put_choice(&mut out, choice)?;
    put_done(&mut out, count)?;
    Ok(out)
}

#[test]
fn written(rt: HostRuntime) -> Result<(), Fail> {
    assert_eq!(rt; head_line(), b"pallet-choice 1\n".as_slice());
    let second = Score {
        number: 2,
        count: 2,
        bound: 3,
    };
    let choice = Choice {
        chosen: Some(second),
        rivals: Vec::from_slice(rt.alloc(), [second].as_slice())?,
    };
    assert_eq!(rt; rewritten(rt.alloc(), THREE, &choice)?.as_slice(), THREE);
    let none = Choice {
        chosen: None,
        rivals: Vec::new(rt.alloc()),
    };
    assert_eq!(rt; rewritten(rt.alloc(), REFUSED, &none)?.as_slice(), REFUSED);
    assert_eq!(rt; rewritten(rt.alloc(), NONE, &none)?.as_slice(), NONE);
    Ok(())
}

// The line of the fault where one line of a text is another, or more than one.
fn line_with(alloc: Global, text: &[u8], number: u32, line: &[u8]) -> Result<u32, Fail> {
    let mut out = Vec::new(alloc);
    let mut rest = text;
    for at in 1..=40 {
        let Some((first, after)) = next_line(rest) else {
            break;
        };
        out.extend_from_slice(if at == number { line } else { first })?;
        out.push(b'\n')?;
        rest = after;
    }
    Ok(line_of(alloc, &out))
}

// The number of a line, another line in its place, and the line of the fault.
static CHANGES: [(u32, &[u8], u32); 28] = [
    (1, b"pallet-choice 2", 1),
    (1, b"pallet-choice 1 ", 1),
    (1, b"pallet-choice 1\r", 1),
    (1, b"pallet-report 2", 1),
    (2, b"entry 2", 2),
    (2, b"entry 01", 2),
    (6, b"count 2", 13),
    (6, b"count 1001", 6),
    (16, b"entry 1", 16),
    (16, b"entry 3", 16),
    (31, b"entry 4", 31),
    (32, b"refused DoesNotFit gap", 32),
    (33, b"end\nentry 4\nrefused BadId\nend", 39),
    (34, b"entry 4", 35),
    (34, b"chosen none", 0),
    (34, b"chosen 1 count 1", 0),
    (34, b"chosen 257 count 2", 34),
    (34, b"chosen 2 count 1001", 34),
    (34, b"done 3", 34),
    (35, b"rival 1 bound 1\nrival 2 bound 3", 0),
    (35, b"rival 2 bound 3\nrival 1 bound 1", 36),
    (35, b"rival 2 bound 3\nrival 2 bound 3", 36),
    (35, b"rival 257 bound 3", 35),
    (35, b"rival 2 bound 3\r", 35),
    (35, b"chosen 2 count 2", 35),
    (36, b"done 2", 36),
    (36, b"done 3\r", 36),
    (36, b"done 3\ndone 3", 37),
];

#[test]
fn other_lines(rt: HostRuntime) -> Result<(), Fail> {
    for (number, line, fault) in CHANGES {
        assert_eq!(rt; line_with(rt.alloc(), THREE, number, line)?, fault);
    }
    Ok(())
}

#[test]
fn other_texts(rt: HostRuntime) -> Result<(), Fail> {
    let alloc = rt.alloc();
    assert_eq!(rt; line_of(alloc, b"pallet-choice 1\ndone 0\n"), 2);
    assert_eq!(rt;
        line_of(alloc, b"pallet-choice 1\nchosen none\ndone 1\n"),
        3
    );
    assert_eq!(rt;
        line_of(alloc, b"pallet-choice 1\n\nchosen none\ndone 0\n"),
        2
    );
    assert_eq!(rt;
        line_of(alloc, b"pallet-choice 1\r\nchosen none\r\ndone 0\r\n"),
        1
    );
    assert_eq!(rt; line_of(alloc, b"pallet-report 2\ndone 0\n"), 1);
    let mut longer = NONE.to_vec(alloc)?;
    longer.push(b'd')?;
    assert_eq!(rt; line_of(alloc, &longer), 4);
    Ok(())
}

// The text of a choice among so many rows that do not fit, numbered from 1 on.
fn text_of_refused(alloc: Global, count: u32) -> Result<Vec<u8>, Fail> {
    let mut out = head_line().to_vec(alloc)?;
    for before in 0..count {
        put_named(&mut out, b"entry ", u64::from(before) + 1)?;
        out.extend_from_slice(b"\nrefused DoesNotFit\nend\n")?;
    }
    out.extend_from_slice(b"chosen none\n")?;
    put_done(&mut out, count)?;
    Ok(out)
}

#[test]
fn most_entries(rt: HostRuntime) -> Result<(), Fail> {
    let most = text_of_refused(rt.alloc(), 256)?;
    assert_eq!(rt; line_of(rt.alloc(), &most), 0);
    let more = text_of_refused(rt.alloc(), 257)?;
    assert_eq!(rt; line_of(rt.alloc(), &more), 1 + 256 * 3 + 1);
    Ok(())
}
