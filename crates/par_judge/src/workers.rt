ghost use Rattle.std.specs.Prelude.{◌≡◌, ◌≤◌, ◌<◌, ◌*◌, ◌+◌, ℕ, List, IfOk, All, length, take, drop, vec_len, slice_index_or};
ghost use Rattle.cert_text.specs.declared.forms.Form.TheVariants.{Two};
ghost use Rattle.plan_entries.specs.Ranges.{IsInRange};
ghost use Rattle.report_checker.specs.Verdicts.{IsVerdict};
ghost use Rattle.par_judge.specs.Judged.{AreVerdicts, AreOnlyVerdicts};

use crate::gates::{Gate, OpenGate};
use plan_entries::Entry;
use plan_memory::Memory;
use report_checker::{Verdict, judge};
use std::alloc::Global;
use std::thread;
use std::thread::Threads;

// The verdict on the entry of this place, once the gate has been told of it.
fn judge_entry<G: Gate>(
    alloc: Global,
    gate: &G,
    place: u32,
    entry: &Entry,
) -> Result<Verdict, Memory>
    requires place { 1 ≤ place }
    requires range { IsInRange Two entry.now }
    ensures { IfOk result (λ v. IsVerdict entry.now v) }
{
    gate.enter(place);
    judge(alloc, entry)
}

// The verdicts on a worker's entries, before which so many stand.
fn judge_part<G: Gate>(
    alloc: Global,
    gate: &G,
    before: usize,
    entries: &[Entry],
) -> Result<Vec<Verdict>, Memory>
    requires before { before ≤ 5000 }
    requires few { length entries.now ≤ 256 }
    requires ranges { All (IsInRange Two) entries.now }
    ensures { IfOk result (λ vs. AreVerdicts entries.now vs.items) }
{
    let mut verdicts = Vec::new(alloc);
    for index in 0..entries.len() {
        let place = (before + index) as u32 + 1;
        let verdict = judge_entry(alloc, gate, place, &entries[index])?;
        verdicts.push(verdict)?;
    }
    Ok(verdicts)
}

// How many entries a worker has at most, so that the parts of all workers are all entries.
fn part_size(entries: usize, workers: usize) -> usize
    requires few { entries ≤ 256 }
    requires some { 1 ≤ workers }
    requires limited { workers ≤ 16 }
    ensures most { result ≤ 256 }
    ensures enough { entries ≤ workers * result }
{
    (entries + workers - 1) / workers
}

// The entries of a worker, counted from 0.
fn part_of(entries: &[Entry], worker: usize, size: usize) -> &[Entry]
    requires worker { worker < 16 }
    requires size { size ≤ 256 }
    ensures { result.now ≡ take size (drop (worker * size) entries.now) }
{
    let start = (worker * size).min(entries.len());
    let end = (start + size).min(entries.len());
    &entries[start..end]
}

// The verdicts on the part of a worker.
fn judge_share<G: Gate>(
    alloc: Global,
    gate: &G,
    entries: &[Entry],
    worker: usize,
    size: usize,
) -> Result<Vec<Verdict>, Memory>
    requires worker { worker < 16 }
    requires size { size ≤ 256 }
    requires few { length entries.now ≤ 256 }
    requires ranges { All (IsInRange Two) entries.now }
    ensures { IfOk result (λ vs. AreVerdicts (take size (drop (worker * size) entries.now)) vs.items) }
{
    judge_part(alloc, gate, worker * size, part_of(entries, worker, size))
}

// The verdicts of each worker's part, in the order of the workers.
fn judge_parts<R: Threads + Sync, G: Gate + Sync>(
    rt: &R,
    alloc: Global,
    gate: &G,
    entries: &[Entry],
    workers: usize,
    size: usize,
) -> Result<Vec<Result<Vec<Verdict>, Memory>>, Memory>
    requires workers { workers ≤ 16 }
    requires size { size ≤ 256 }
    requires few { length entries.now ≤ 256 }
    requires ranges { All (IsInRange Two) entries.now }
    ensures len { IfOk result (λ parts. vec_len parts ≡ workers) }
    ensures each { IfOk result (λ parts. (k : ℕ) (d : _) → k < workers
        → IfOk (slice_index_or parts.items k d) (λ vs. AreVerdicts (take size (drop (k * size) entries.now)) vs.items)) }
{
    let parts = thread::map_indices(
        rt,
        alloc,
        workers,
        &|worker| judge_share(alloc, gate, entries, worker, size),
    )?;
    Ok(parts)
}

// The verdicts of all parts, one after another.
fn join_parts(
    alloc: Global,
    entries: &[Entry],
    parts: &[Result<Vec<Verdict>, Memory>],
    size: usize,
) -> Result<Vec<Verdict>, Memory>
    requires each { (k : ℕ) (d : _) → k < length parts.now
        → IfOk (slice_index_or parts.now k d) (λ vs. AreVerdicts (take size (drop (k * size) entries.now)) vs.items) }
    requires enough { length entries.now ≤ length parts.now * size }
    ensures { IfOk result (λ vs. AreVerdicts entries.now vs.items) }
{
    let mut verdicts = Vec::with_capacity(alloc, entries.len())?;
    for part in parts {
        let Ok(part) = part else {
            return Err(Memory);
        };
        verdicts.extend_from_slice(part)?;
    }
    Ok(verdicts)
}

/// The verdicts on the entries, in their order, by so many workers side by side, from 1 to 16. Before an entry is
/// judged the gate is told of its place, from 1. At most 256 entries, each within the ranges of a report. Where fewer
/// threads can be made the same answer comes later.
pub fn judge_through<R: Threads + Sync, G: Gate + Sync>(
    rt: &R,
    alloc: Global,
    gate: &G,
    entries: &[Entry],
    workers: u32,
) -> Result<Vec<Verdict>, Memory>
    requires some { 1 ≤ workers }
    requires limited { workers ≤ 16 }
    requires few { length entries.now ≤ 256 }
    requires ranges { All (IsInRange Two) entries.now }
    ensures verdicts { IfOk result (λ vs. AreVerdicts entries.now vs.items) }
    ensures only { IfOk result (λ vs. AreOnlyVerdicts entries.now vs.items) }
{
    let count = workers as usize;
    let size = part_size(entries.len(), count);
    let parts = judge_parts(rt, alloc, gate, entries, count, size)?;
    join_parts(alloc, entries, &parts, size)
}

/// The verdicts on the entries, in their order, by so many workers side by side: `judge_through` with an open gate.
pub fn judge_all<R: Threads + Sync>(
    rt: &R,
    alloc: Global,
    entries: &[Entry],
    workers: u32,
) -> Result<Vec<Verdict>, Memory>
    requires some { 1 ≤ workers }
    requires limited { workers ≤ 16 }
    requires few { length entries.now ≤ 256 }
    requires ranges { All (IsInRange Two) entries.now }
    ensures verdicts { IfOk result (λ vs. AreVerdicts entries.now vs.items) }
    ensures only { IfOk result (λ vs. AreOnlyVerdicts entries.now vs.items) }
{
    judge_through(rt, alloc, &OpenGate, entries, workers)
}
