use crate::{check, upgrade};
use par_judge::OpenGate;
use plan_io::{MemSink, MemSource};
use run_parts::Code;
use std::alloc::Global;
use std::test::Fail;

// A report of the first form: a layer of eight cases.
static EIGHT: &[u8] = b"\
    pallet-report 1\n\
    entry 1\n\
    id EUR-400\n\
    order 1200 800 400 300 220 8000 1600 1000000 70 0 100\n\
    reduced 12 8 4 3\n\
    count 8\n\
    bound 8\n\
    status optimal\n\
    cert weighted\n\
    weighting area\n\
    tree .\n\
    layers 1\n\
    layer 1 same\n\
    0 0 S\n\
    300 0 S\n\
    600 0 S\n\
    900 0 S\n\
    0 400 S\n\
    300 400 S\n\
    600 400 S\n\
    900 400 S\n\
    allowed 7\n\
    stack 1 1 1 1 1 1 1\n\
    end\n\
    done 1\n";

// The same in the form of today.
static EIGHT_TODAY: &[u8] = b"\
    pallet-report 2\n\
    entry 1\n\
    id EUR-400\n\
    order 1200 800 400 300 220 8000 1600 1000000 70 0 100 0\n\
    reduced 12 8 4 3\n\
    count 8\n\
    bound 8\n\
    status optimal\n\
    cert weighted\n\
    weighting area\n\
    tree .\n\
    layers 1\n\
    layer 1 same\n\
    0 0 S\n\
    300 0 S\n\
    600 0 S\n\
    900 0 S\n\
    0 400 S\n\
    300 400 S\n\
    600 400 S\n\
    900 400 S\n\
    allowed 7\n\
    stack 1 1 1 1 1 1 1\n\
    end\n\
    done 1\n";

// A report of the first form: a layer of four cases, and a stack of it and its mirror.
static FOUR: &[u8] = b"\
    pallet-report 1\n\
    entry 1\n\
    id A\n\
    order 5 5 3 2 1 10 2 1000 100 1 20\n\
    reduced 5 5 3 2\n\
    count 4\n\
    bound 4\n\
    status optimal\n\
    cert weighted\n\
    weighting area\n\
    tree .\n\
    layers 2\n\
    layer 1 same\n\
    0 0 L\n\
    3 0 S\n\
    0 2 S\n\
    2 3 L\n\
    layer 2 mirror-x\n\
    0 0 S\n\
    2 0 L\n\
    3 2 S\n\
    0 3 L\n\
    allowed 2\n\
    stack 1 2\n\
    end\n\
    done 1\n";

// The same in the form of today.
static FOUR_TODAY: &[u8] = b"\
    pallet-report 2\n\
    entry 1\n\
    id A\n\
    order 5 5 3 2 1 10 2 1000 100 1 20 0\n\
    reduced 5 5 3 2\n\
    count 4\n\
    bound 4\n\
    status optimal\n\
    cert weighted\n\
    weighting area\n\
    tree .\n\
    layers 2\n\
    layer 1 same\n\
    0 0 L\n\
    3 0 S\n\
    0 2 S\n\
    2 3 L\n\
    layer 2 mirror-x\n\
    0 0 S\n\
    2 0 L\n\
    3 2 S\n\
    0 3 L\n\
    allowed 2\n\
    stack 1 2\n\
    end\n\
    done 1\n";

// Two rows that were refused, and between them a plan that lists its layer without the mirrored ones.
static THREE: &[u8] = b"\
    pallet-report 2\n\
    entry 1\n\
    refused DoesNotFit\n\
    end\n\
    entry 2\n\
    id B\n\
    order 5 5 3 3 1 1 1 1 0 0 100 0\n\
    reduced 1 1 1 1\n\
    count 1\n\
    bound 2\n\
    status open\n\
    cert given-area\n\
    layers 1\n\
    layer 1 same\n\
    0 0 L\n\
    allowed 1\n\
    stack 1\n\
    end\n\
    entry 3\n\
    refused BadId\n\
    end\n\
    done 3\n";

fn source(alloc: Global, text: &[u8]) -> Result<MemSource, Fail> {
    Ok(MemSource::new(text.to_vec(alloc)?, 4096, Vec::new(alloc)))
}

fn sink(alloc: Global) -> Result<MemSink, Fail> {
    let sink = MemSink::new(alloc, 4096, 4096, Vec::new(alloc))?;
    Ok(sink)
}

#[test]
fn whole_reports(rt: HostRuntime) -> Result<(), Fail> {
    let alloc = rt.alloc();
    let mut written = sink(alloc)?;
    let answer = check(
        &rt,
        alloc,
        &OpenGate,
        1,
        &mut source(alloc, EIGHT)?,
        &mut written,
    );
    assert!(rt; answer.code == Code::Done);
    assert!(rt; written.written() == b"entry 1 yes\ndone 1\n".as_slice());
    let mut written = sink(alloc)?;
    let answer = check(
        &rt,
        alloc,
        &OpenGate,
        2,
        &mut source(alloc, FOUR_TODAY)?,
        &mut written,
    );
    assert!(rt; answer.code == Code::Done);
    assert!(rt; written.written() == b"entry 1 yes\ndone 1\n".as_slice());
    Ok(())
}

#[test]
fn groups(rt: HostRuntime) -> Result<(), Fail> {
    let alloc = rt.alloc();
    let mut written = sink(alloc)?;
    let answer = check(
        &rt,
        alloc,
        &OpenGate,
        2,
        &mut source(alloc, THREE)?,
        &mut written,
    );
    assert!(rt; answer.code == Code::Findings && answer.line == 0);
    assert!(rt;
        written.written()
            == b"entry 1 refused\nentry 2 no variants 2\nentry 3 refused\ndone 3\n".as_slice()
    );
    Ok(())
}

#[test]
fn no_reports(rt: HostRuntime) -> Result<(), Fail> {
    let alloc = rt.alloc();
    let mut written = sink(alloc)?;
    let text = b"pallet-report 3\n".as_slice();
    let answer = check(
        &rt,
        alloc,
        &OpenGate,
        1,
        &mut source(alloc, text)?,
        &mut written,
    );
    assert!(rt; answer.code == Code::BadReport && answer.line == 1);
    let text = b"pallet-report 2\n".as_slice();
    let answer = check(
        &rt,
        alloc,
        &OpenGate,
        1,
        &mut source(alloc, text)?,
        &mut written,
    );
    assert!(rt; answer.code == Code::BadReport && answer.line == 2);
    let answer = upgrade(alloc, &mut source(alloc, text)?, &mut written);
    assert!(rt; answer.code == Code::BadReport && answer.line == 2);
    assert!(rt; written.written().is_empty());
    let text = b"pallet-report 2\ndone 0\n".as_slice();
    let answer = check(
        &rt,
        alloc,
        &OpenGate,
        1,
        &mut source(alloc, text)?,
        &mut written,
    );
    assert!(rt; answer.code == Code::Done);
    assert!(rt; written.written() == b"done 0\n".as_slice());
    Ok(())
}

#[test]
fn upgrades(rt: HostRuntime) -> Result<(), Fail> {
    let alloc = rt.alloc();
    let mut written = sink(alloc)?;
    let answer = upgrade(alloc, &mut source(alloc, FOUR)?, &mut written);
    assert!(rt; answer.code == Code::Done);
    assert!(rt; written.written() == FOUR_TODAY);
    let mut written = sink(alloc)?;
    let answer = upgrade(alloc, &mut source(alloc, EIGHT)?, &mut written);
    assert!(rt; answer.code == Code::Done);
    assert!(rt; written.written() == EIGHT_TODAY);
    Ok(())
}

#[test]
fn faults(rt: HostRuntime) -> Result<(), Fail> {
    let alloc = rt.alloc();
    let text = THREE.to_vec(alloc)?;
    let mut broken = MemSource::new(text, 4096, vec![in alloc; 1]?);
    let mut written = sink(alloc)?;
    let answer = check(&rt, alloc, &OpenGate, 1, &mut broken, &mut written);
    assert!(rt; answer.code == Code::ReadFault && answer.line == 0);
    assert!(rt; written.written().is_empty());
    let mut broken = MemSink::new(alloc, 4096, 4096, vec![in alloc; 2]?)?;
    let answer = check(
        &rt,
        alloc,
        &OpenGate,
        2,
        &mut source(alloc, THREE)?,
        &mut broken,
    );
    assert!(rt; answer.code == Code::WriteFault && answer.line == 0);
    assert!(rt; broken.written() == b"entry 1 refused\n".as_slice());
    let mut narrow = MemSink::new(alloc, 4096, 20, vec![in alloc; 2]?)?;
    let answer = upgrade(alloc, &mut source(alloc, THREE)?, &mut narrow);
    assert!(rt; answer.code == Code::WriteFault && answer.line == 0);
    assert!(rt; narrow.written() == b"pallet-report 2\n".as_slice());
    Ok(())
}
