// Rows planned side by side, a group of them at a time, and handed out one by one.
ghost use Rattle.std.specs.Prelude.{◌≡◌, ◌+◌, ◌-◌, ◌≤◌, ◌∷◌, List, IfOk, length, slice_index_or};
ghost use Rattle.order_reader.specs.declared.rows.Row.{Row};
ghost use Rattle.par_judge.specs.Planned.{ArePlansOf};
ghost use Rattle.plan_mode.specs.Entries.{IsEntryOf, AreEntriesFrom};
ghost use Rattle.plan_mode.specs.Groups.{orders_from, AreNextEntries};

use order_reader::Row;
use par_judge::{Gate, Numbered, plan_through};
use plan_entries::{Entry, Plan};
use plan_memory::Memory;
use std::alloc::Global;
use std::collections::VecDeque;
use std::thread::Threads;

// The orders of rows, of which the first has this number.
fn numbered_orders(alloc: Global, first: u32, rows: &[Row]) -> Result<Vec<Numbered>, Memory>
    requires first { 1 ≤ first }
    requires last { first + length rows.now ≤ 257 }
    ensures value { IfOk result (λ orders. orders.items ≡ orders_from first rows.now) }
{
    let mut orders = Vec::new(alloc);
    let mut number = first;
    for row in rows {
        if let Row::Order(order) = row {
            let order = order.copied(alloc)?;
            orders.push(Numbered { number, order })?;
        }
        number += 1;
    }
    Ok(orders)
}

// The entry of a row of this number, with the next of the plans where it has an order.
fn entry_with(number: u32, row: &Row, plans: &mut VecDeque<Plan>) -> Entry
    requires plans { (rows : List Row) × ArePlansOf (orders_from number (row.now ∷ rows)) plans.old.items }
    ensures entry { IsEntryOf number row.now result }
    ensures plans { (rows : List Row) → ArePlansOf (orders_from number (row.now ∷ rows)) plans.old.items
        → ArePlansOf (orders_from (number + 1) rows) plans.new.items }
{
    match row {
        Row::Order(_) => match plans.pop_front() {
            Some(plan) => Entry::Planned(plan),
            None => unreachable!(),
        },
        Row::Refused { fault, .. } => Entry::Refused {
            number,
            fault: *fault,
        },
    }
}

// The entries of rows, of which the first has this number, with the plans of their orders.
fn entries_with(
    alloc: Global,
    first: u32,
    rows: &[Row],
    plans: Vec<Plan>,
) -> Result<VecDeque<Entry>, Memory>
    requires last { first + length rows.now ≤ 257 }
    requires plans { ArePlansOf (orders_from first rows.now) plans.items }
    ensures { IfOk result (λ es. AreEntriesFrom first rows.now es.items) }
{
    let mut plans = VecDeque::from_vec(plans);
    let mut entries = Vec::with_capacity(alloc, rows.len())?;
    let mut number = first;
    for row in rows {
        entries.push(entry_with(number, row, &mut plans))?;
        number += 1;
    }
    Ok(VecDeque::from_vec(entries))
}

// The entries of as many of the next rows as there are workers, of which the first has this number.
fn next_group<R: Threads + Sync, G: Gate + Sync>(
    rt: &R,
    alloc: Global,
    gate: &G,
    workers: u32,
    rows: &[Row],
    number: u32,
) -> Result<VecDeque<Entry>, Memory>
    requires some { 1 ≤ workers }
    requires limited { workers ≤ 16 }
    requires few { length rows.now ≤ 256 }
    requires first { 1 ≤ number }
    requires place { number ≤ length rows.now }
    ensures some { IfOk result (λ es. 1 ≤ length es.items) }
    ensures next { IfOk result (λ es. AreNextEntries number rows.now es.items) }
{
    let start = number as usize - 1;
    let end = (start + workers as usize).min(rows.len());
    let group = &rows[start..end];
    let orders = numbered_orders(alloc, number, group)?;
    let plans = plan_through(rt, alloc, gate, &orders, workers)?;
    entries_with(alloc, number, group, plans)
}

/// The entry of the row of this number: the next of those that were planned ahead, where there are some, else the first of
/// those of as many rows as there are workers, whose others stand ahead from then on.
pub fn next_entry<R: Threads + Sync, G: Gate + Sync>(
    rt: &R,
    alloc: Global,
    gate: &G,
    workers: u32,
    rows: &[Row],
    number: u32,
    ahead: &mut VecDeque<Entry>,
) -> Result<Entry, Memory>
    requires some { 1 ≤ workers }
    requires limited { workers ≤ 16 }
    requires few { length rows.now ≤ 256 }
    requires first { 1 ≤ number }
    requires place { number ≤ length rows.now }
    requires ahead { AreNextEntries number rows.now ahead.old.items }
    ensures entry { IfOk result (λ e. (d : Row) → IsEntryOf number (slice_index_or rows.now (number - 1) d) e) }
    ensures ahead { IfOk result (λ _. AreNextEntries (number + 1) rows.now ahead.new.items) }
{
    if ahead.is_empty() {
        *ahead = next_group(rt, alloc, gate, workers, rows, number)?;
    }
    match ahead.pop_front() {
        Some(entry) => Ok(entry),
        None => unreachable!(),
    }
}
