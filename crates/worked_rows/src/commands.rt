use crate::runs::{file, ran, words_of};
use pallet_top::{Code, run};
use plan_io::{MemSink, MemSource, Source};
use std::test::Fail;

// Words that are not accepted: nothing is read and nothing is written.
#[test]
fn refused_words(rt: HostRuntime) -> Result<(), Fail> {
    let alloc = rt.alloc();
    let lines = [
        "",
        "plan plan",
        "plan --workers 17",
        "design --draw",
        "design --workers 0",
        "floor --workers 2",
        "check --workers 17",
        "check --draw",
        "trial",
        "trial --number 0",
        "trial --number 1000001",
    ];
    for line in lines {
        let words = words_of(alloc, line)?;
        let mut source = MemSource::new(file(alloc, "")?, 4096, Vec::new(alloc));
        let mut sink = MemSink::new(alloc, 100, 10, Vec::new(alloc))?;
        let answer = run(&rt, alloc, &words, &mut source, &mut sink);
        assert!(rt;
            answer.code == Code::Usage && sink.written().is_empty(),
            "{line}"
        );
        let mut first = [0; 3];
        let read = source.read(&mut first).ok();
        assert!(rt; read == Some(3) && first == *b"id,", "{line}");
    }
    Ok(())
}

// A trial reads nothing, and a second one of the same number writes the same bytes. How many cases the sixteen layers
// have at most together, and that twelve of the orders have a stack, was found by other programs, row by row.
#[test]
fn trials(rt: HostRuntime) -> Result<(), Fail> {
    let alloc = rt.alloc();
    let words = words_of(alloc, "trial --number 1")?;
    let mut source = MemSource::new(file(alloc, "")?, 4096, vec![in alloc; 1]?);
    let mut sink = MemSink::new(alloc, 1000, 10, Vec::new(alloc))?;
    let answer = run(&rt, alloc, &words, &mut source, &mut sink);
    assert!(rt; answer.code == Code::Done);
    let Ok(text) = str::from_utf8(sink.written()) else {
        return Err("no text".into());
    };
    let (front, rest) = text.split_once("stacks ").ok_or("no stacks")?;
    let (stacks, end) = rest.split_once("\n").ok_or("no end")?;
    assert_eq!(rt;
        front,
        "trial 1\nrows 16\nplanned 16\ncases 359\noptimal 16\n"
    );
    assert_eq!(rt; end, "yes 16\n");
    assert_eq!(rt; stacks, "12");
    let again = ran(&rt, alloc, "trial --number 1", b"")?;
    assert!(rt; again.code == Code::Done && again.written.as_slice() == sink.written());
    let other = ran(&rt, alloc, "trial --number 1000000", b"")?;
    assert!(rt;
        other
            .written
            .starts_with(b"trial 1000000\nrows 16\nplanned 16\ncases ")
    );
    assert!(rt; other.written.ends_with(b"\nyes 16\n"));
    Ok(())
}
