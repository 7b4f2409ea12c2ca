// Orders planned side by side.
ghost use Rattle.std.specs.Prelude.{◌≡◌, ◌≤◌, ℕ, ◌<◌, IfOk, All, length, vec_len, slice_index_or};
ghost use Rattle.par_judge.specs.declared.plans.Numbered.{Numbered};
ghost use Rattle.par_judge.specs.Planned.{IsNumbered, IsPlanOfNumbered, ArePlansOf};

use crate::gates::{Gate, OpenGate};
use layer_planner::plan_order;
use order_reader::Order;
use plan_entries::Plan;
use plan_memory::Memory;
use std::alloc::Global;
use std::thread;
use std::thread::Threads;

/// An order, and the number that its plan is to bear, from 1 to 256.
#[derive(Drop)]
pub struct Numbered {
    pub number: u32,
    pub order: Order,
}

// The plan of the order of this place, once the gate has been told of it.
fn plan_entered<G: Gate>(
    alloc: Global,
    gate: &G,
    place: u32,
    numbered: &Numbered,
) -> Result<Plan, Memory>
    requires place { 1 ≤ place }
    requires number { IsNumbered numbered.now }
    ensures { IfOk result (λ p. IsPlanOfNumbered numbered.now p) }
{
    gate.enter(place);
    plan_order(alloc, &numbered.order, numbered.number)
}

// The plan of the k-th order of a group, counted from 0, before which so many orders stand.
fn plan_in_group<G: Gate>(
    alloc: Global,
    gate: &G,
    before: usize,
    group: &[Numbered],
    k: usize,
) -> Result<Plan, Memory>
    requires before { before ≤ 256 }
    requires few { length group.now ≤ 256 }
    requires numbers { All IsNumbered group.now }
    requires place { k < length group.now }
    ensures { IfOk result (λ p. (d : Numbered) → IsPlanOfNumbered (slice_index_or group.now k d) p) }
{
    let place = (before + k) as u32 + 1;
    plan_entered(alloc, gate, place, &group[k])
}

// All answers, where none was refused memory.
fn all_planned(
    alloc: Global,
    group: &[Numbered],
    answers: Vec<Result<Plan, Memory>>,
) -> Result<Vec<Plan>, Memory>
    requires as_many { vec_len answers ≡ length group.now }
    requires each { (k : ℕ) (a : _) (d : Numbered) → k < length group.now
        → IfOk (slice_index_or answers.items k a) (λ p. IsPlanOfNumbered (slice_index_or group.now k d) p) }
    ensures { IfOk result (λ ps. ArePlansOf group.now ps.items) }
{
    let mut plans = Vec::with_capacity(alloc, group.len())?;
    for answer in answers {
        plans.push(answer?)?;
    }
    Ok(plans)
}

// The plans of a group of orders, before which so many stand, each by a worker of its own.
fn plan_group<R: Threads + Sync, G: Gate + Sync>(
    rt: &R,
    alloc: Global,
    gate: &G,
    before: usize,
    group: &[Numbered],
) -> Result<Vec<Plan>, Memory>
    requires before { before ≤ 256 }
    requires few { length group.now ≤ 256 }
    requires numbers { All IsNumbered group.now }
    ensures { IfOk result (λ ps. ArePlansOf group.now ps.items) }
{
    let answers = thread::map_indices(
        rt,
        alloc,
        group.len(),
        &|k| plan_in_group(alloc, gate, before, group, k),
    )?;
    all_planned(alloc, group, answers)
}

/// The plans of the orders, in their order, by so many workers side by side, from 1 to 16. Before an order is planned the gate
/// is told of its place, from 1. At most 256 orders. The orders are taken in groups of as many as there are workers, so that
/// a group waits for its slowest order. Where fewer threads can be made the same answer comes later.
pub fn plan_through<R: Threads + Sync, G: Gate + Sync>(
    rt: &R,
    alloc: Global,
    gate: &G,
    orders: &[Numbered],
    workers: u32,
) -> Result<Vec<Plan>, Memory>
    requires some { 1 ≤ workers }
    requires limited { workers ≤ 16 }
    requires few { length orders.now ≤ 256 }
    requires numbers { All IsNumbered orders.now }
    ensures { IfOk result (λ ps. ArePlansOf orders.now ps.items) }
{
    let mut plans = Vec::with_capacity(alloc, orders.len())?;
    let mut before = 0;
    while before < orders.len() {
        let end = (before + workers as usize).min(orders.len());
        let mut group = plan_group(rt, alloc, gate, before, &orders[before..end])?;
        plans.append(&mut group)?;
        before = end;
    }
    Ok(plans)
}

/// The plans of the orders, in their order, by so many workers side by side: `plan_through` with an open gate.
pub fn plan_all<R: Threads + Sync>(
    rt: &R,
    alloc: Global,
    orders: &[Numbered],
    workers: u32,
) -> Result<Vec<Plan>, Memory>
    requires some { 1 ≤ workers }
    requires limited { workers ≤ 16 }
    requires few { length orders.now ≤ 256 }
    requires numbers { All IsNumbered orders.now }
    ensures { IfOk result (λ ps. ArePlansOf orders.now ps.items) }
{
    plan_through(rt, alloc, &OpenGate, orders, workers)
}
