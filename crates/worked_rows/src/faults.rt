use crate::runs::{TWO_LAYERS, file, ran, ran_on};
use pallet_top::Code;
use plan_io::{MemSink, MemSource};
use std::test::Fail;

const ROW: &str = "\nA,5,5,3,2,1,10,2,1000,100,1,20";

// A file of 122 bytes from a source of 50 bytes a call, which fails at one of the calls that it takes.
#[test]
fn reads_that_fail(rt: HostRuntime) -> Result<(), Fail> {
    let alloc = rt.alloc();
    for call in 1..5 {
        let source = MemSource::new(file(alloc, ROW)?, 50, vec![in alloc; call]?);
        let mut sink = MemSink::new(alloc, 1000, 1000, Vec::new(alloc))?;
        let (code, _) = ran_on(&rt, alloc, "plan", source, &mut sink)?;
        assert!(rt; code == Code::ReadFault && sink.written().is_empty());
    }
    Ok(())
}

// The report has 267 bytes in pieces of 16, 244 and 7, which take 2, 25 and 1 calls of 10 bytes.
#[test]
fn writes_that_fail(rt: HostRuntime) -> Result<(), Fail> {
    let alloc = rt.alloc();
    assert_eq!(rt; TWO_LAYERS.len(), 267);
    for call in 1..29u64 {
        let source = MemSource::new(file(alloc, ROW)?, 1000, Vec::new(alloc));
        let mut sink = MemSink::new(alloc, 1000, 10, vec![in alloc; call]?)?;
        let (code, _) = ran_on(&rt, alloc, "plan", source, &mut sink)?;
        assert!(rt; code == Code::WriteFault);
        assert!(rt; sink.written().len() as u64 <= 10 * (call - 1));
        assert!(rt; TWO_LAYERS.as_bytes().starts_with(sink.written()));
    }
    Ok(())
}

#[test]
fn a_sink_that_is_full(rt: HostRuntime) -> Result<(), Fail> {
    let alloc = rt.alloc();
    let source = MemSource::new(file(alloc, ROW)?, 1000, Vec::new(alloc));
    let mut sink = MemSink::new(alloc, 20, 10, Vec::new(alloc))?;
    let (code, _) = ran_on(&rt, alloc, "plan", source, &mut sink)?;
    assert!(rt; code == Code::WriteFault);
    assert!(rt; sink.written() == TWO_LAYERS.as_bytes().get(..20).ok_or("no part")?);
    Ok(())
}

// The first line stands before the last one fails.
#[test]
fn the_last_line_fails(rt: HostRuntime) -> Result<(), Fail> {
    let alloc = rt.alloc();
    let source = MemSource::new(file(alloc, "")?, 1000, Vec::new(alloc));
    let mut sink = MemSink::new(alloc, 100, 10, vec![in alloc; 3]?)?;
    let (code, _) = ran_on(&rt, alloc, "plan", source, &mut sink)?;
    assert!(rt; code == Code::WriteFault && sink.written() == b"pallet-report 2\n".as_slice());
    Ok(())
}

#[test]
fn limits(rt: HostRuntime) -> Result<(), Fail> {
    let alloc = rt.alloc();
    let mut rows = String::new(alloc);
    for _ in 0..256 {
        rows.push_str("\nA,2,2,1,1,1,10,2,1000,0,0,100")?;
    }
    let most = ran(&rt, alloc, "plan", &file(alloc, &rows)?)?;
    assert!(rt; most.code == Code::Done && most.written.ends_with(b"\ndone 256\n"));
    rows.push_str("\nA,2,2,1,1,1,10,2,1000,0,0,100")?;
    let more = ran(&rt, alloc, "plan", &file(alloc, &rows)?)?;
    assert!(rt; more.code == Code::TooManyRows && more.written.is_empty());
    let mut long = file(alloc, "")?;
    for _ in 0..262_144usize.saturating_sub(long.len()) {
        long.push(b'\n')?;
    }
    let read = ran(&rt, alloc, "plan", &long)?;
    assert!(rt; read.code == Code::Done);
    long.push(b'\n')?;
    let refused = ran(&rt, alloc, "plan", &long)?;
    assert!(rt; refused.code == Code::TooLong && refused.written.is_empty());
    Ok(())
}
