use crate::trial;
use plan_io::MemSink;
use run_parts::Code;
use std::test::Fail;

#[test]
fn whole_summary(rt: HostRuntime) -> Result<(), Fail> {
    let alloc = rt.alloc();
    let mut sink = MemSink::new(alloc, 1000, 100, Vec::new(alloc))?;
    assert!(rt; trial(alloc, 1, &mut sink) == Code::Done);
    assert!(rt;
        sink.written()
            .starts_with(b"trial 1\nrows 16\nplanned 16\ncases ")
    );
    assert!(rt; sink.written().ends_with(b"\nyes 16\n"));
    Ok(())
}

#[test]
fn first_bytes(rt: HostRuntime) -> Result<(), Fail> {
    let alloc = rt.alloc();
    let mut sink = MemSink::new(alloc, 1000, 8, vec![in alloc; 2]?)?;
    assert!(rt; trial(alloc, 1, &mut sink) == Code::WriteFault);
    assert_eq!(rt; sink.written(), b"trial 1\n".as_slice());
    Ok(())
}
