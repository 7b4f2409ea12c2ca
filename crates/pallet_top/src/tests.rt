use crate::{Code, OpenGate, run, run_gated};
use plan_io::{MemSink, MemSource};
use std::alloc::Global;
use std::test::Fail;
use std::thread::Threads;

const HEADER: &str =
    "id,pallet_x,pallet_y,case_x,case_y,case_z,weight,max_height,max_weight,contact,support,cut\n";

// The code and the line of a run, and what it wrote to a sink that takes 1,000 bytes a call.
fn ran<R: Threads + Sync>(
    rt: &R,
    alloc: Global,
    line: &str,
    input: &[u8],
) -> Result<(Code, u32, Vec<u8>), Fail> {
    let mut words = Vec::new(alloc);
    for word in line.split_whitespace() {
        words.push(String::from_str(alloc, word)?)?;
    }
    let mut source = MemSource::new(input.to_vec(alloc)?, 1000, Vec::new(alloc));
    let mut sink = MemSink::new(alloc, 100_000, 1000, Vec::new(alloc))?;
    let answer = run(rt, alloc, &words, &mut source, &mut sink);
    Ok((answer.code, answer.line, sink.written().to_vec(alloc)?))
}

// The header and a row.
fn file_of(alloc: Global, row: &str) -> Result<Vec<u8>, Fail> {
    let mut file = HEADER.as_bytes().to_vec(alloc)?;
    file.extend_from_slice(row.as_bytes())?;
    Ok(file)
}

// Two layers, one upon the other: what is planned for the order is accepted, and stays the same in today's form.
#[test]
fn two_layers(rt: HostRuntime) -> Result<(), Fail> {
    let alloc = rt.alloc();
    let report = b"\
    pallet-report 2\n\
    entry 1\n\
    id A\n\
    order 5 5 3 2 1 10 2 1000 100 1 20 0\n\
    reduced 5 5 3 2\n\
    count 4\n\
    bound 4\n\
    status optimal\n\
    cert weighted\n\
    weighting area\n\
    tree .\n\
    layers 2\n\
    layer 1 same\n\
    0 0 L\n\
    3 0 S\n\
    0 2 S\n\
    2 3 L\n\
    layer 2 mirror-x\n\
    0 0 S\n\
    2 0 L\n\
    3 2 S\n\
    0 3 L\n\
    allowed 2\n\
    stack 1 2\n\
    end\n\
    done 1\n"
        .as_slice();
    let file = file_of(alloc, "A,5,5,3,2,1,10,2,1000,100,1,20\n")?;
    let (code, _, written) = ran(&rt, alloc, "plan", &file)?;
    assert!(rt; code == Code::Done && written.as_slice() == report);
    for words in ["check", "check --workers 2", "check --workers 16"] {
        let (code, _, verdicts) = ran(&rt, alloc, words, report)?;
        assert!(rt;
            code == Code::Done && verdicts.as_slice() == b"entry 1 yes\ndone 1\n".as_slice()
        );
    }
    let (code, _, same) = ran(&rt, alloc, "upgrade", report)?;
    assert!(rt; code == Code::Done && same.as_slice() == report);
    Ok(())
}

#[test]
fn drawn(rt: HostRuntime) -> Result<(), Fail> {
    let alloc = rt.alloc();
    let file = file_of(alloc, "A,5,5,3,2,1,10,2,1000,0,0,100\n")?;
    let (code, _, written) = ran(&rt, alloc, "plan --draw", &file)?;
    assert!(rt; code == Code::Done);
    assert!(rt; written.starts_with(b"pallet-drawing 1\nentry 1\n"));
    assert!(rt;
        written.ends_with(b"end\ndrawing 5 5\nccddd\nccddd\ncc.bb\naaabb\naaabb\ndone 1\n")
    );
    let (code, line, _) = ran(&rt, alloc, "check", &written)?;
    assert!(rt; code == Code::BadReport && line == 1);
    Ok(())
}

#[test]
fn tried(rt: HostRuntime) -> Result<(), Fail> {
    let (code, _, written) = ran(&rt, rt.alloc(), "trial --number 1", b"")?;
    assert!(rt; code == Code::Done);
    assert!(rt; written.starts_with(b"trial 1\nrows 16\nplanned 16\ncases "));
    assert!(rt; written.ends_with(b"\nyes 16\n"));
    Ok(())
}

#[test]
fn codes(rt: HostRuntime) -> Result<(), Fail> {
    let alloc = rt.alloc();
    let header = file_of(alloc, "")?;
    let refused = file_of(alloc, "A,3,10,11,4,1,1,1,1,0,0,100\n")?;
    let cases = [
        ("", b"".as_slice(), Code::Usage, 0, b"".as_slice()),
        (
            "plan --workers 17",
            header.as_slice(),
            Code::Usage,
            0,
            b"".as_slice(),
        ),
        ("plan", b"".as_slice(), Code::NoHeader, 0, b"".as_slice()),
        (
            "plan",
            header.as_slice(),
            Code::Done,
            0,
            b"pallet-report 2\ndone 0\n".as_slice(),
        ),
        (
            "plan",
            refused.as_slice(),
            Code::Findings,
            0,
            b"pallet-report 2\nentry 1\nrefused DoesNotFit\nend\ndone 1\n".as_slice(),
        ),
        (
            "check",
            b"pallet-report 3\n".as_slice(),
            Code::BadReport,
            1,
            b"".as_slice(),
        ),
        (
            "upgrade",
            b"pallet-report 1\n".as_slice(),
            Code::BadReport,
            2,
            b"".as_slice(),
        ),
    ];
    for (words, input, wanted, wanted_line, text) in cases {
        let (code, line, written) = ran(&rt, alloc, words, input)?;
        assert!(rt; code == wanted && line == wanted_line && written.as_slice() == text);
    }
    Ok(())
}

#[test]
fn gated(rt: HostRuntime) -> Result<(), Fail> {
    let alloc = rt.alloc();
    let mut words = Vec::new(alloc);
    words.push(String::from_str(alloc, "check")?)?;
    let text = b"pallet-report 2\ndone 0\n".as_slice();
    let mut source = MemSource::new(text.to_vec(alloc)?, 50, Vec::new(alloc));
    let mut sink = MemSink::new(alloc, 100, 10, vec![in alloc; 1]?)?;
    let answer = run_gated(&rt, alloc, &OpenGate, &words, &mut source, &mut sink);
    assert!(rt; answer.code == Code::WriteFault && sink.written().is_empty());
    Ok(())
}
