use crate::{Code, page, run, run_on};
use cert_text::Form;
use page_text::{put_sheet, put_top};
use plan_entries::is_in_range;
use plan_io::{MemSink, MemSource};
use report_reading::{entries_of, next_entry};
use std::alloc::Global;
use std::test::Fail;

// A plan of two cases in one layer, of the form of today.
static ONE: &[u8] = b"\
    pallet-report 2\n\
    entry 1\n\
    id PAIR\n\
    order 4 2 2 2 1 1 1 9 0 0 100 0\n\
    reduced 2 1 1 1\n\
    count 2\n\
    bound 2\n\
    status optimal\n\
    cert weighted\n\
    weighting area\n\
    tree .\n\
    layers 1\n\
    layer 1 same\n\
    0 0 L\n\
    2 0 L\n\
    allowed 1\n\
    stack 1\n\
    end\n\
    done 1\n";

// A refused row, and a plan whose status is open, of the first form.
static TWO: &[u8] = b"\
    pallet-report 1\n\
    entry 1\n\
    refused DoesNotFit\n\
    end\n\
    entry 2\n\
    id B\n\
    order 5 5 3 3 1 1 1 1 0 0 100\n\
    reduced 1 1 1 1\n\
    count 1\n\
    bound 1\n\
    status optimal\n\
    cert weighted\n\
    weighting area\n\
    tree .\n\
    layers 1\n\
    layer 1 same\n\
    0 0 L\n\
    allowed 1\n\
    stack 1\n\
    end\n\
    done 2\n";

// The first pieces of the page of a report: its top, and a sheet for each entry, numbered from 1.
fn pieces(alloc: Global, report: &[u8]) -> Result<Vec<Vec<u8>>, Fail> {
    if report.len() > 1000 {
        return Err("too long".into());
    }
    let Ok(mut entries) = entries_of(alloc, report) else {
        return Err("no report".into());
    };
    let mut pieces = Vec::new(alloc);
    let mut top = Vec::new(alloc);
    put_top(&mut top)?;
    pieces.push(top)?;
    for number in 1..=2 {
        let Ok(Some(entry)) = next_entry(alloc, &mut entries) else {
            break;
        };
        if !is_in_range(&entry, Form::Two) {
            return Err("out of range".into());
        }
        let mut sheet = Vec::new(alloc);
        put_sheet(&mut sheet, number, &entry)?;
        pieces.push(sheet)?;
    }
    Ok(pieces)
}

fn joined(alloc: Global, pieces: &[Vec<u8>]) -> Result<Vec<u8>, Fail> {
    let mut text = Vec::new(alloc);
    for piece in pieces {
        text.extend_from_slice(piece)?;
    }
    Ok(text)
}

fn source(alloc: Global, text: &[u8]) -> Result<MemSource, Fail> {
    Ok(MemSource::new(text.to_vec(alloc)?, 50, Vec::new(alloc)))
}

// The page is written, in pieces that a sink takes a few bytes at a time.
#[test]
fn whole_pages(rt: HostRuntime) -> Result<(), Fail> {
    let alloc = rt.alloc();
    for (report, sheets) in [
        (ONE, 1),
        (TWO, 2),
        (b"pallet-report 2\ndone 0\n".as_slice(), 0),
    ] {
        let mut sink = MemSink::new(alloc, 100_000, 7, Vec::new(alloc))?;
        let answer = page(alloc, &mut source(alloc, report)?, &mut sink);
        assert!(rt; answer.code == Code::Done && answer.line == 0);
        let pieces = pieces(alloc, report)?;
        assert_eq!(rt; pieces.len(), sheets + 1);
        assert!(rt; sink.written().starts_with(&joined(alloc, &pieces)?));
    }
    Ok(())
}

// What is no report is told by its line, and nothing is written.
#[test]
fn no_reports(rt: HostRuntime) -> Result<(), Fail> {
    let alloc = rt.alloc();
    let mut sink = MemSink::new(alloc, 100_000, 100, Vec::new(alloc))?;
    for (text, line) in [
        (b"".as_slice(), 1),
        (b"pallet-drawing 1\ndone 0\n".as_slice(), 1),
        (b"pallet-report 2\ndone 1\n".as_slice(), 2),
        (b"pallet-report 2\nentry 1\nid A\n".as_slice(), 4),
    ] {
        let answer = page(alloc, &mut source(alloc, text)?, &mut sink);
        assert!(rt; answer.code == Code::BadReport && answer.line == line);
    }
    assert!(rt; sink.written().is_empty());
    Ok(())
}

// A read that fails leaves nothing, and a write that fails the pieces before it.
#[test]
fn faults(rt: HostRuntime) -> Result<(), Fail> {
    let alloc = rt.alloc();
    let mut broken = MemSource::new(TWO.to_vec(alloc)?, 50, vec![in alloc; 3]?);
    let mut sink = MemSink::new(alloc, 100_000, 100_000, Vec::new(alloc))?;
    let answer = page(alloc, &mut broken, &mut sink);
    assert!(rt; answer.code == Code::ReadFault && answer.line == 0);
    assert!(rt; sink.written().is_empty());
    let pieces = pieces(alloc, TWO)?;
    for count in 0..=pieces.len() {
        let call = u64::try_from(count)? + 1;
        let mut sink = MemSink::new(alloc, 100_000, 100_000, vec![in alloc; call]?)?;
        let answer = page(alloc, &mut source(alloc, TWO)?, &mut sink);
        assert!(rt; answer.code == Code::WriteFault && answer.line == 0);
        assert!(rt; sink.written() == joined(alloc, &pieces[..count])?.as_slice());
    }
    Ok(())
}

// No word is accepted, and then neither stream is touched.
#[test]
fn words(rt: HostRuntime) -> Result<(), Fail> {
    let alloc = rt.alloc();
    let mut words = Vec::new(alloc);
    let mut sink = MemSink::new(alloc, 100_000, 100, Vec::new(alloc))?;
    let answer = run(alloc, &words, &mut source(alloc, ONE)?, &mut sink);
    assert!(rt; answer.code == Code::Done && !sink.written().is_empty());
    words.push(String::from_str(alloc, "--help")?)?;
    let mut sink = MemSink::new(alloc, 100, 100, Vec::new(alloc))?;
    let answer = run(alloc, &words, &mut source(alloc, ONE)?, &mut sink);
    assert!(rt; answer.code == Code::Usage && answer.line == 0);
    assert!(rt; sink.written().is_empty());
    Ok(())
}

// A run on a reader and a writer of std, of which the writer has room for three bytes.
#[test]
fn over_std(rt: HostRuntime) -> Result<(), Fail> {
    let alloc = rt.alloc();
    let words = Vec::new(alloc);
    let mut room = [0; 3];
    let finished = run_on(alloc, &words, ONE, &mut room[..]);
    assert!(rt; finished.answer.code == Code::WriteFault && finished.answer.line == 0);
    let text = joined(alloc, &pieces(alloc, ONE)?)?;
    assert!(rt; text.starts_with(&room));
    let mut room = [0; 100_000];
    let finished = run_on(alloc, &words, ONE, &mut room[..]);
    assert!(rt; finished.answer.code == Code::Done);
    assert!(rt; room.starts_with(&text));
    Ok(())
}
