use crate::plan;
use par_judge::OpenGate;
use plan_io::{MemSink, MemSource};
use run_parts::Code;
use std::alloc::Global;
use std::test::Fail;
use std::thread::Threads;

const HEADER: &str =
    "id,pallet_x,pallet_y,case_x,case_y,case_z,weight,max_height,max_weight,contact,support,cut\n";

// A case that is wider than the pallet.
const REFUSED: &str = "A,3,10,11,4,1,1,1,1,0,0,100\n";

// The header, and so many rows that are refused.
fn file_of(alloc: Global, rows: u32) -> Result<Vec<u8>, Fail> {
    let mut file = HEADER.as_bytes().to_vec(alloc)?;
    for _ in 0..rows {
        file.extend_from_slice(REFUSED.as_bytes())?;
    }
    Ok(file)
}

// The code of a run over a file, and what it wrote. The source gives 50 bytes a call and the sink takes 8, and they fail
// at the calls of these numbers.
fn planned<R: Threads + Sync>(
    rt: &R,
    alloc: Global,
    draw: bool,
    file: Vec<u8>,
    failing_reads: Vec<u64>,
    failing_writes: Vec<u64>,
) -> Result<(Code, Vec<u8>), Fail> {
    let mut source = MemSource::new(file, 50, failing_reads);
    let mut sink = MemSink::new(alloc, 1000, 8, failing_writes)?;
    let code = plan(rt, alloc, &OpenGate, 1, draw, &mut source, &mut sink);
    Ok((code, sink.written().to_vec(alloc)?))
}

#[test]
fn whole_reports(rt: HostRuntime) -> Result<(), Fail> {
    let alloc = rt.alloc();
    let none = || Vec::new(alloc);
    let (code, written) = planned(&rt, alloc, false, file_of(alloc, 1)?, none(), none())?;
    assert!(rt; code == Code::Findings);
    assert_eq!(rt;
        written.as_slice(),
        b"pallet-report 2\nentry 1\nrefused DoesNotFit\nend\ndone 1\n".as_slice()
    );
    let (code, written) = planned(&rt, alloc, true, file_of(alloc, 0)?, none(), none())?;
    assert!(rt; code == Code::Done);
    assert_eq!(rt;
        written.as_slice(),
        b"pallet-drawing 1\ndone 0\n".as_slice()
    );
    Ok(())
}

#[test]
fn nothing_written(rt: HostRuntime) -> Result<(), Fail> {
    let alloc = rt.alloc();
    let none = || Vec::new(alloc);
    let long = vec![in alloc; b'A'; 262_145]?;
    let (code, written) = planned(&rt, alloc, false, long, none(), none())?;
    assert!(rt; code == Code::TooLong && written.is_empty());
    let (code, written) = planned(&rt, alloc, false, file_of(alloc, 257)?, none(), none())?;
    assert!(rt; code == Code::TooManyRows && written.is_empty());
    let second = vec![in alloc; 2]?;
    let (code, written) = planned(&rt, alloc, false, file_of(alloc, 1)?, second, none())?;
    assert!(rt; code == Code::ReadFault && written.is_empty());
    Ok(())
}

#[test]
fn first_bytes(rt: HostRuntime) -> Result<(), Fail> {
    let alloc = rt.alloc();
    let fourth = vec![in alloc; 4]?;
    let (code, written) = planned(
        &rt,
        alloc,
        false,
        file_of(alloc, 1)?,
        Vec::new(alloc),
        fourth,
    )?;
    assert!(rt; code == Code::WriteFault);
    assert_eq!(rt;
        written.as_slice(),
        b"pallet-report 2\nentry 1\n".as_slice()
    );
    Ok(())
}

// Three rows, the second of which is refused.
const THREE: &str =
    "A,5,5,3,2,1,1,1,1,0,0,100\nB,3,10,11,4,1,1,1,1,0,0,100\nC,6,6,4,1,1,1,1,1,0,0,100\n";

// What a run with so many workers writes over the three rows.
fn by_workers<R: Threads + Sync>(rt: &R, alloc: Global, workers: u32) -> Result<Vec<u8>, Fail> {
    if workers == 0 || workers > 16 {
        return Err("workers".into());
    }
    let mut file = HEADER.as_bytes().to_vec(alloc)?;
    file.extend_from_slice(THREE.as_bytes())?;
    let mut source = MemSource::new(file, 50, Vec::new(alloc));
    let mut sink = MemSink::new(alloc, 5000, 100, Vec::new(alloc))?;
    let code = plan(rt, alloc, &OpenGate, workers, false, &mut source, &mut sink);
    if code != Code::Findings {
        return Err("not findings".into());
    }
    Ok(sink.written().to_vec(alloc)?)
}

#[test]
fn same_by_more_workers(rt: HostRuntime) -> Result<(), Fail> {
    let alloc = rt.alloc();
    let one = by_workers(&rt, alloc, 1)?;
    assert!(rt; one.ends_with(b"end\ndone 3\n".as_slice()));
    for workers in [2, 3, 16] {
        assert_eq!(rt; by_workers(&rt, alloc, workers)?.as_slice(), one.as_slice());
    }
    Ok(())
}
