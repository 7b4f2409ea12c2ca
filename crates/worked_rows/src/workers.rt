use crate::examples::DOZEN;
use crate::runs::{file, ran};
use pallet_top::{Code, Gate, run_gated};
use plan_io::{MemSink, MemSource};
use std::alloc::Global;
use std::sync::atomic::{AtomicBool, Ordering};
use std::test::Fail;
use std::thread::Threads;

// A report of a plan and of a refused row.
const TWO_ENTRIES: &str = "\
    pallet-report 2\n\
    entry 1\n\
    id A\n\
    order 2 2 2 2 1 1 1 1 0 0 100 0\n\
    reduced 1 1 1 1\n\
    count 1\n\
    bound 1\n\
    status optimal\n\
    cert given-area\n\
    layers 1\n\
    layer 1 same\n\
    0 0 L\n\
    allowed 1\n\
    stack 1\n\
    end\n\
    entry 2\n\
    refused DoesNotFit\n\
    end\n\
    done 2\n";

// How often the first entry looks for the second.
const TURNS: u32 = 100_000_000;

// What the gate has seen: that the second entry came, and that the first one saw it come.
#[derive(Drop)]
struct Meeting {
    came: AtomicBool,
    met: AtomicBool,
}

impl Meeting {
    fn new() -> Meeting {
        Meeting {
            came: AtomicBool::new(false),
            met: AtomicBool::new(false),
        }
    }

    // Whether the second entry comes within the turns.
    fn comes(&self) -> bool {
        for _turn in 0..TURNS {
            if self.came.load(Ordering::SeqCst) {
                return true;
            }
        }
        false
    }
}

impl Gate for Meeting {
    fn enter(&self, place: u32) {
        if place == 2 {
            self.came.store(true, Ordering::SeqCst);
        }
        if place == 1 && self.comes() {
            self.met.store(true, Ordering::SeqCst);
        }
    }
}

// Whether the first and the second of what the source has are at work at the same time.
fn meet<R: Threads + Sync>(
    rt: &R,
    alloc: Global,
    mode: &str,
    workers: &str,
    input: Vec<u8>,
) -> Result<bool, Fail> {
    let mut words = Vec::new(alloc);
    for word in [mode, "--workers", workers] {
        words.push(String::from_str(alloc, word)?)?;
    }
    let mut source = MemSource::new(input, 4096, Vec::new(alloc));
    let mut sink = MemSink::new(alloc, 4096, 4096, Vec::new(alloc))?;
    let gate = Meeting::new();
    let answer = run_gated(rt, alloc, &gate, &words, &mut source, &mut sink);
    if answer.code != Code::Done {
        return Err("not done".into());
    }
    Ok(gate.met.load(Ordering::SeqCst))
}

// Two workers judge two entries at once; one worker does not.
#[test]
fn side_by_side(rt: HostRuntime) -> Result<(), Fail> {
    let alloc = rt.alloc();
    let entries = || TWO_ENTRIES.as_bytes().to_vec(alloc);
    assert!(rt; meet(&rt, alloc, "check", "2", entries()?)?);
    assert!(rt; !meet(&rt, alloc, "check", "1", entries()?)?);
    Ok(())
}

// Two orders with one layout each.
const TWO_ORDERS: &str = "\nA,5,5,3,3,1,1,1,1,0,0,100\nB,5,5,4,4,1,1,1,1,0,0,100";

// Two workers plan two orders at once; one worker does not.
#[test]
fn planned_side_by_side(rt: HostRuntime) -> Result<(), Fail> {
    let alloc = rt.alloc();
    assert!(rt; meet(&rt, alloc, "plan", "2", file(alloc, TWO_ORDERS)?)?);
    assert!(rt; !meet(&rt, alloc, "plan", "1", file(alloc, TWO_ORDERS)?)?);
    Ok(())
}

// The verdicts are the same for any number of workers.
#[test]
fn same_verdicts(rt: HostRuntime) -> Result<(), Fail> {
    for words in [
        "check",
        "check --workers 1",
        "check --workers 2",
        "check --workers 16",
    ] {
        let answer = ran(&rt, rt.alloc(), words, TWO_ENTRIES.as_bytes())?;
        assert!(rt; answer.code == Code::Done);
        assert!(rt;
            answer.written.as_slice() == b"entry 1 yes\nentry 2 refused\ndone 2\n".as_slice()
        );
    }
    Ok(())
}

// What is planned is the same for any number of workers.
#[test]
fn same_plans(rt: HostRuntime) -> Result<(), Fail> {
    let alloc = rt.alloc();
    let orders = file(alloc, DOZEN)?;
    let plain = ran(&rt, alloc, "plan", &orders)?;
    assert!(rt; plain.code == Code::Findings);
    for words in ["plan --workers 1", "plan --workers 2", "plan --workers 16"] {
        let answer = ran(&rt, alloc, words, &orders)?;
        assert!(rt;
            answer.code == plain.code && answer.written.as_slice() == plain.written.as_slice(),
            "{words}"
        );
    }
    Ok(())
}

// Four rows that four workers plan.
#[test]
fn four_workers(rt: HostRuntime) -> Result<(), Fail> {
    let alloc = rt.alloc();
    let rows =
        "\nA,5,5,3,2,1,10,2,1000,100,1,20\nB,6,6,4,1,1,1,1,1000,0,0,100\nC,3,10,11,4,1,10,1,1000,0,0,100\nD,6,6,5,1,1,1,1,1000,0,0,100";
    let planned = ran(&rt, alloc, "plan --workers 4", &file(alloc, rows)?)?;
    assert!(rt; planned.code == Code::Findings);
    let judged = ran(&rt, alloc, "check", &planned.written)?;
    assert!(rt; judged.code == Code::Done);
    assert!(rt;
        judged.written.as_slice()
            == b"entry 1 yes\nentry 2 yes\nentry 3 refused\nentry 4 yes\ndone 4\n".as_slice()
    );
    Ok(())
}

// A thousand cases; and an order for which no pattern of blocks reaches the bound, whose plan is accepted.
#[test]
fn planned_and_accepted(rt: HostRuntime) -> Result<(), Fail> {
    let alloc = rt.alloc();
    let many = ran(
        &rt,
        alloc,
        "plan",
        &file(alloc, "\nA,40,25,1,1,1,1,1,1,0,0,100")?,
    )?;
    let Ok(text) = str::from_utf8(&many.written) else {
        return Err("no text".into());
    };
    assert!(rt; text.contains("\ncount 1000\nbound 1000\nstatus optimal\n"));
    let hard = ran(
        &rt,
        alloc,
        "plan",
        &file(alloc, "\nA,43,26,7,3,1,1,1,1,0,0,100")?,
    )?;
    let Ok(text) = str::from_utf8(&hard.written) else {
        return Err("no text".into());
    };
    assert!(rt; text.contains("\nreduced 43 26 7 3\ncount 53\nbound 53\nstatus optimal\n"));
    for report in [&many.written, &hard.written] {
        let answer = ran(&rt, alloc, "check", report)?;
        assert!(rt; answer.written.as_slice() == b"entry 1 yes\ndone 1\n".as_slice());
    }
    Ok(())
}
