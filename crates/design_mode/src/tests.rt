ghost use Rattle.std.specs.Prelude.{◌≤◌};

use crate::design;
use par_judge::OpenGate;
use plan_io::{MemSink, MemSource};
use run_parts::Code;
use std::alloc::Global;
use std::test::Fail;
use std::thread::Threads;

const HEADER: &str = "id,pallet_x,pallet_y,long_from,long_to,short_from,short_to,least_area\n";

// More bytes than any text here has.
const ROOM: usize = 10_000;

// The code of a run by so many workers over the header and a row, and what it wrote. The sink has room for so many bytes, and
// fails at the calls of these numbers.
fn designed<R: Threads + Sync>(
    rt: &R,
    alloc: Global,
    workers: u32,
    row: &str,
    room: usize,
    failing: Vec<u64>,
) -> Result<(Code, Vec<u8>), Fail>
    requires some { 1 ≤ workers }
    requires limited { workers ≤ 16 }
{
    let mut file = HEADER.as_bytes().to_vec(alloc)?;
    file.extend_from_slice(row.as_bytes())?;
    let mut source = MemSource::new(file, 50, Vec::new(alloc));
    let mut sink = MemSink::new(alloc, room, 64, failing)?;
    let code = design(rt, alloc, &OpenGate, workers, &mut source, &mut sink);
    Ok((code, sink.written().to_vec(alloc)?))
}

// Cases of 3 by 2 and of 3 by 3 on a pallet of 5 by 5: four of the one cover 24 cells, and one of the other covers 9.
#[test]
fn two_sizes(rt: HostRuntime) -> Result<(), Fail> {
    let alloc = rt.alloc();
    let row = "D,5,5,3,3,2,3,1\n";
    let (code, one) = designed(&rt, alloc, 1, row, ROOM, Vec::new(alloc))?;
    assert!(rt; code == Code::Done);
    assert!(rt;
        one.starts_with(
            b"pallet-design 1\nid D\nentry 1\nid D\norder 5 5 3 2 1 1 1 100000000 0 0 100 0\n"
        )
    );
    assert!(rt; one.ends_with(b"\nend\nbest 1 covers 24\ndone 2\n"));
    let (code, two) = designed(&rt, alloc, 2, row, ROOM, Vec::new(alloc))?;
    assert!(rt; code == Code::Done && two.as_slice() == one.as_slice());
    Ok(())
}

// Eight cases of 4 by 1 cover 32 cells of a pallet of 6 by 6, and seven of 5 by 1 cover 35, which is the most that may.
#[test]
fn best_by_cover(rt: HostRuntime) -> Result<(), Fail> {
    let alloc = rt.alloc();
    let (code, written) = designed(&rt, alloc, 2, "D,6,6,4,5,1,1,1\n", ROOM, Vec::new(alloc))?;
    assert!(rt; code == Code::Done);
    assert!(rt; written.ends_with(b"\nend\nbest 2 covers 35\ndone 2\n"));
    Ok(())
}

#[test]
fn refused(rt: HostRuntime) -> Result<(), Fail> {
    let alloc = rt.alloc();
    let (code, written) = designed(&rt, alloc, 1, "D,5,5,3,3,2,3,26\n", ROOM, Vec::new(alloc))?;
    assert!(rt; code == Code::Findings);
    assert_eq!(rt;
        written.as_slice(),
        b"pallet-design 1\nrefused NoSize\ndone 0\n".as_slice()
    );
    // No case of 7 by 2 lies on a pallet of 6 by 6.
    let (code, written) = designed(&rt, alloc, 1, "D,6,6,7,7,2,2,1\n", ROOM, Vec::new(alloc))?;
    assert!(rt; code == Code::Findings);
    assert_eq!(rt;
        written.as_slice(),
        b"pallet-design 1\nid D\nentry 1\nrefused DoesNotFit\nend\nbest none\ndone 1\n".as_slice()
    );
    let (code, written) = designed(&rt, alloc, 1, "", ROOM, Vec::new(alloc))?;
    assert!(rt; code == Code::Done);
    assert_eq!(rt; written.as_slice(), b"pallet-design 1\ndone 0\n".as_slice());
    Ok(())
}

#[test]
fn no_design(rt: HostRuntime) -> Result<(), Fail> {
    let alloc = rt.alloc();
    let rows = "D,5,5,3,3,2,3,1\nD,5,5,3,3,2,3,1\n";
    let (code, written) = designed(&rt, alloc, 1, rows, ROOM, Vec::new(alloc))?;
    assert!(rt; code == Code::TooManyRows && written.is_empty());
    let mut source = MemSource::new(b"id\n".as_slice().to_vec(alloc)?, 50, Vec::new(alloc));
    let mut sink = MemSink::new(alloc, ROOM, 64, Vec::new(alloc))?;
    let code = design(&rt, alloc, &OpenGate, 1, &mut source, &mut sink);
    assert!(rt; code == Code::NoHeader && sink.written().is_empty());
    Ok(())
}

// A sink with room for 16 bytes takes the first line alone.
#[test]
fn full_sink(rt: HostRuntime) -> Result<(), Fail> {
    let alloc = rt.alloc();
    let (code, written) = designed(&rt, alloc, 1, "D,5,5,3,3,2,3,1\n", 16, Vec::new(alloc))?;
    assert!(rt; code == Code::WriteFault);
    assert_eq!(rt; written.as_slice(), b"pallet-design 1\n".as_slice());
    Ok(())
}
