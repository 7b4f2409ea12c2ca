ghost use Rattle.std.specs.Prelude.{IsTrue, All};
ghost use Rattle.cert_text.specs.declared.forms.Form.TheVariants.{Two};
ghost use Rattle.plan_entries.specs.Ranges.{IsInRange};
ghost use Rattle.par_judge.specs.Planned.{IsNumbered};

use crate::{Gate, Numbered, OpenGate, judge_all, judge_through, plan_all, plan_through};
use cert_text::Form;
use order_reader::{Order, RowFault};
use plan_entries::{Entry, is_in_range};
use report_checker::Verdict;
use std::alloc::Global;
use std::sync::atomic::{AtomicBool, Ordering};
use std::test::Fail;
use std::thread::Threads;

fn crosses_threads<T: Send + Sync>() {}

// A gate at which the first entry waits for the second for so many turns, and no longer.
const TURNS: u32 = 100_000_000;

// What the gate has seen: that the second entry came, and that the first one saw it come.
#[derive(Drop)]
struct Meeting {
    came: AtomicBool,
    met: AtomicBool,
}

impl Meeting {
    fn new() -> Meeting {
        Meeting {
            came: AtomicBool::new(false),
            met: AtomicBool::new(false),
        }
    }

    // Whether the second entry comes within the turns.
    fn comes(&self) -> bool {
        for _turn in 0..TURNS {
            if self.came.load(Ordering::SeqCst) {
                return true;
            }
        }
        false
    }
}

impl Gate for Meeting {
    fn enter(&self, place: u32) {
        if place == 2 {
            self.came.store(true, Ordering::SeqCst);
        }
        if place == 1 && self.comes() {
            self.met.store(true, Ordering::SeqCst);
        }
    }
}

#[test]
fn threads(_rt: HostRuntime) -> Result<(), Fail> {
    crosses_threads::<OpenGate>();
    crosses_threads::<Meeting>();
    Ok(())
}

// Whether each entry is within the ranges of a report.
fn are_in_range(entries: &[Entry]) -> bool
    ensures { IsTrue result → All (IsInRange Two) entries.now }
{
    for index in 0..entries.len() {
        if !is_in_range(&entries[index], Form::Two) {
            return false;
        }
    }
    true
}

// So many entries of refused rows.
fn refused(alloc: Global, count: u32) -> Result<Vec<Entry>, Fail> {
    let mut entries = Vec::new(alloc);
    for number in 0..count {
        let fault = RowFault::DoesNotFit;
        entries.push(Entry::Refused {
            number: number + 1,
            fault,
        })?;
    }
    Ok(entries)
}

// Whether each of these rows was refused, as so many workers say, who are told of each entry at the gate.
fn all_refused<R: Threads + Sync, G: Gate + Sync>(
    rt: &R,
    alloc: Global,
    gate: &G,
    entries: &[Entry],
    workers: u32,
) -> Result<bool, Fail> {
    if !are_in_range(entries) || entries.len() > 256 || workers == 0 || workers > 16 {
        return Ok(false);
    }
    let verdicts = judge_through(rt, alloc, gate, entries, workers)?;
    let same = judge_all(rt, alloc, entries, workers)?;
    Ok(
        verdicts.len() == entries.len()
            && verdicts.iter().all(|verdict| *verdict == Verdict::Refused)
            && verdicts.as_slice() == same.as_slice(),
    )
}

#[test]
fn side_by_side(rt: HostRuntime) -> Result<(), Fail> {
    let entries = refused(rt.alloc(), 2)?;
    let gate = Meeting::new();
    assert!(rt; all_refused(&rt, rt.alloc(), &gate, &entries, 2)?);
    assert!(rt; gate.met.load(Ordering::SeqCst));
    Ok(())
}

#[test]
fn one_by_one(rt: HostRuntime) -> Result<(), Fail> {
    let entries = refused(rt.alloc(), 2)?;
    let gate = Meeting::new();
    assert!(rt; all_refused(&rt, rt.alloc(), &gate, &entries, 1)?);
    assert!(rt; !gate.met.load(Ordering::SeqCst));
    Ok(())
}

#[test]
fn more_workers_than_entries(rt: HostRuntime) -> Result<(), Fail> {
    let entries = refused(rt.alloc(), 5)?;
    assert!(rt; all_refused(&rt, rt.alloc(), &OpenGate, &entries, 16)?);
    assert!(rt; all_refused(&rt, rt.alloc(), &OpenGate, &entries, 3)?);
    Ok(())
}

// Whether each order has a number that an entry may have.
fn are_numbered(orders: &[Numbered]) -> bool
    ensures { IsTrue result → All IsNumbered orders.now }
{
    orders
        .iter()
        .all(|order| 1 <= order.number && order.number <= 256)
}

// Two orders with one layout each, numbered from 7 on.
fn two_orders(alloc: Global) -> Result<Vec<Numbered>, Fail> {
    let mut orders = Vec::new(alloc);
    for (number, case) in [(7, 3), (8, 4)] {
        let numbers = [5, 5, case, case, 1, 1, 1, 1, 0, 0, 100, 0];
        let Ok(order) = Order::new(alloc, b"A".as_slice(), numbers) else {
            return Err("no order".into());
        };
        orders.push(Numbered { number, order })?;
    }
    Ok(orders)
}

// The numbers and the counts of the plans by so many workers, who tell the gate of each order.
fn planned<R: Threads + Sync, G: Gate + Sync>(
    rt: &R,
    alloc: Global,
    gate: &G,
    orders: &[Numbered],
    workers: u32,
) -> Result<Vec<(u32, u32)>, Fail> {
    if !are_numbered(orders) || orders.len() > 256 || workers == 0 || workers > 16 {
        return Err("numbers".into());
    }
    let mut told = Vec::new(alloc);
    for plan in &plan_through(rt, alloc, gate, orders, workers)? {
        told.push((plan.number, plan.count))?;
    }
    let again = plan_all(rt, alloc, orders, 16)?;
    if again.len() != told.len() {
        return Err("not as many".into());
    }
    Ok(told)
}

#[test]
fn planned_side_by_side(rt: HostRuntime) -> Result<(), Fail> {
    let orders = two_orders(rt.alloc())?;
    let gate = Meeting::new();
    let told = planned(&rt, rt.alloc(), &gate, &orders, 2)?;
    assert!(rt; told.as_slice() == [(7, 1), (8, 1)].as_slice());
    assert!(rt; gate.met.load(Ordering::SeqCst));
    Ok(())
}

#[test]
fn planned_one_by_one(rt: HostRuntime) -> Result<(), Fail> {
    let orders = two_orders(rt.alloc())?;
    let gate = Meeting::new();
    let told = planned(&rt, rt.alloc(), &gate, &orders, 1)?;
    assert!(rt; told.as_slice() == [(7, 1), (8, 1)].as_slice());
    assert!(rt; !gate.met.load(Ordering::SeqCst));
    Ok(())
}
