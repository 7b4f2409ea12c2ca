// Readers and writers of std as the program meets them, each through `run_on`.
use crate::runs::words_of;
use pallet_top::{Code, Finished, run_on};
use std::alloc::Global;
use std::io::{self, Read, Write};
use std::test::Fail;
use std::thread::Threads;

// An orders file of one row, which is refused, and the report of it.
const HEADER: &[u8] =
    b"id,pallet_x,pallet_y,case_x,case_y,case_z,weight,max_height,max_weight,contact,support,cut\n";

const ROW: &[u8] = b"A,3,10,11,4,1,1,1,1,0,0,100\n";

const ORDERS: &[u8] =
    b"id,pallet_x,pallet_y,case_x,case_y,case_z,weight,max_height,max_weight,contact,support,cut\nA,3,10,11,4,1,1,1,1,0,0,100\n";

const REPORT: &[u8] = b"pallet-report 2\nentry 1\nrefused DoesNotFit\nend\ndone 1\n";

// Gives a line a call. Its first end of input is that of a terminal: after it lines come again.
#[derive(Drop)]
struct Terminal {
    lines: [&'static [u8]; 4],
    calls: usize,
}

impl Read for Terminal {
    fn read(&mut self, place: &mut [u8]) -> io::Result<usize> {
        let Some(&line) = self.lines.get(self.calls) else {
            return Ok(0);
        };
        self.calls += 1;
        let count = line.len().min(place.len());
        place[..count].copy_from_slice(&line[..count]);
        Ok(count)
    }
}

// Gives one byte a call.
#[derive(Drop)]
struct Trickle {
    bytes: &'static [u8],
    at: usize,
}

impl Read for Trickle {
    fn read(&mut self, place: &mut [u8]) -> io::Result<usize> {
        match (self.bytes.get(self.at), place.first_mut()) {
            (Some(&byte), Some(first)) => {
                *first = byte;
                self.at = self.at.saturating_add(1);
                Ok(1)
            }
            _ => Ok(0),
        }
    }
}

// Takes one byte a call.
#[derive(Drop)]
struct Slow {
    taken: Vec<u8>,
}

impl Write for Slow {
    fn write(&mut self, piece: &[u8]) -> io::Result<usize> {
        let Some(&byte) = piece.first() else {
            return Ok(0);
        };
        self.taken.push(byte)?;
        Ok(1)
    }

    fn flush(&mut self) -> io::Result<()> {
        Ok(())
    }
}

// Takes nothing, and says so without an error.
#[derive(Drop)]
struct Unwilling;

impl Write for Unwilling {
    fn write(&mut self, _piece: &[u8]) -> io::Result<usize> {
        Ok(0)
    }

    fn flush(&mut self) -> io::Result<()> {
        Ok(())
    }
}

// A run on this reader, by a writer that takes one byte a call.
fn ran_slowly<R: Threads + Sync, I: Read + Drop>(
    rt: &R,
    alloc: Global,
    line: &str,
    input: I,
) -> Result<Finished<I, Slow>, Fail> {
    let words = words_of(alloc, line)?;
    let output = Slow {
        taken: Vec::new(alloc),
    };
    Ok(run_on(rt, alloc, &words, input, output))
}

// The end of input is where the first read of no byte was, whatever comes later.
#[test]
fn a_terminal(rt: HostRuntime) -> Result<(), Fail> {
    let input = Terminal {
        lines: [HEADER, ROW, b"", ROW],
        calls: 0,
    };
    let finished = ran_slowly(&rt, rt.alloc(), "plan", input)?;
    assert!(rt; finished.answer.code == Code::Findings && finished.answer.line == 0);
    assert_eq!(rt; finished.output.into_output().taken.as_slice(), REPORT);
    assert_eq!(rt; finished.input.into_input().calls, 3);
    Ok(())
}

// One byte a call, in each of the modes that read.
#[test]
fn byte_by_byte(rt: HostRuntime) -> Result<(), Fail> {
    let rows: [(&str, &'static [u8], Code, &[u8]); 3] = [
        ("plan", ORDERS, Code::Findings, REPORT),
        ("check", REPORT, Code::Done, b"entry 1 refused\ndone 1\n"),
        ("upgrade", REPORT, Code::Done, REPORT),
    ];
    for (line, bytes, code, text) in rows {
        let finished = ran_slowly(&rt, rt.alloc(), line, Trickle { bytes, at: 0 })?;
        assert!(rt; finished.answer.code == code, "{line}");
        assert!(rt;
            finished.output.into_output().taken.as_slice() == text,
            "{line}"
        );
        assert_eq!(rt; finished.input.into_input().at, bytes.len());
    }
    Ok(())
}

// A write that takes nothing of a piece that is not empty is a fault.
#[test]
fn a_writer_that_takes_nothing(rt: HostRuntime) -> Result<(), Fail> {
    let words = words_of(rt.alloc(), "plan")?;
    let input = Trickle {
        bytes: ORDERS,
        at: 0,
    };
    let finished = run_on(&rt, rt.alloc(), &words, input, Unwilling);
    assert!(rt; finished.answer.code == Code::WriteFault);
    Ok(())
}
