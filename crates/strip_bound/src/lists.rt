ghost use Rattle.std.specs.Prelude.{◌≡◌, List, [], ◌∷◌, ◌+◌, ◌<◌, ◌≤◌, IfOk, length, drop, slice_index_or};
ghost use Rattle.strip_bound.specs.CutLists.{AreShorts, IsLineCut, beside, each_two, AreCuts};
ghost use Rattle.weightings.specs.declared.certs.StripCut.{StripCut};
ghost use Rattle.strip_bound.specs.Kept.{StandsFor, Adds, AddsAxis, AreKept};

use crate::seen::{NOTHING, Seen};
use partitions::most_short;
use plan_geometry::{Axis, Inst, side_along};
use plan_memory::Memory;
use std::alloc::Global;
use strip_cuts::greatest;
use weightings::StripCut;

// The true cut of the lines along the axis on which each crossing by a long side counts a, by a short one b.
fn line_cut(inst: Inst, axis: Axis, a: u32, b: u32) -> StripCut
    ensures { IsLineCut axis inst (record { a = a; b = b }) result }
{
    let q = greatest(inst, axis, a, b);
    match axis {
        Axis::X => StripCut::X { a, b, q },
        Axis::Y => StripCut::Y { a, b, q },
    }
}

// By the number of long case sides, the short ones of the maximal partition that has so many.
fn short_counts(alloc: Global, inst: Inst, axis: Axis) -> Result<Vec<u32>, Memory>
    ensures are_shorts { IfOk result (λ r. AreShorts axis inst r.items) }
    ensures few { IfOk result (λ r. length r.items ≤ 4001) }
{
    let side = side_along(axis, inst);
    let mut found = Vec::new(alloc);
    for i in 0..side / inst.long + 1 {
        found.push(most_short(side, inst.long, inst.short, i))?;
    }
    Ok(found)
}

// Puts the cut of two partitions so many long sides apart, of which the later has a short ones less, behind the
// others, where it is not among them.
fn push_new(
    inst: Inst,
    axis: Axis,
    a: u32,
    distance: usize,
    seen: &mut [Seen],
    cuts: &mut Vec<StripCut>,
) -> Result<(), Memory>
    requires few { length seen.old ≤ 4001 }
    requires within { distance < length seen.old }
    requires kept { AreKept axis inst seen.old cuts.old.items }
    ensures adds { IfOk result (λ _. Adds axis inst (record { a = a; b = distance } ∷ []) cuts.old.items cuts.new.items) }
    ensures kept { IfOk result (λ _. AreKept axis inst seen.new cuts.new.items) }
{
    let here = seen[distance];
    if here.has(a) {
        return Ok(());
    }
    cuts.push(line_cut(inst, axis, a, distance as u32))?;
    seen[distance] = here.with(a);
    Ok(())
}

// Puts the cuts of the maximal partition with i long sides beside each later one behind the others.
fn push_beside(
    inst: Inst,
    axis: Axis,
    shorts: &[u32],
    i: usize,
    seen: &mut [Seen],
    cuts: &mut Vec<StripCut>,
) -> Result<(), Memory>
    requires few { length shorts.now ≤ 4001 }
    requires distances { length seen.old ≡ length shorts.now }
    requires within { i < length shorts.now }
    requires kept { AreKept axis inst seen.old cuts.old.items }
    ensures adds { IfOk result (λ _. Adds axis inst
        (beside (slice_index_or shorts.now i 0) 1 (drop (i + 1) shorts.now)) cuts.old.items cuts.new.items) }
    ensures kept { IfOk result (λ _. AreKept axis inst seen.new cuts.new.items) }
{
    let most = shorts[i];
    for k in i + 1..shorts.len() {
        push_new(
            inst,
            axis,
            most.saturating_sub(shorts[k]),
            k - i,
            seen,
            cuts,
        )?;
    }
    Ok(())
}

// Puts the cuts of each two maximal partitions behind the others.
fn push_each_two(
    alloc: Global,
    inst: Inst,
    axis: Axis,
    shorts: &[u32],
    cuts: &mut Vec<StripCut>,
) -> Result<(), Memory>
    requires few { length shorts.now ≤ 4001 }
    ensures { IfOk result (λ _. Adds axis inst (each_two shorts.now) cuts.old.items cuts.new.items) }
{
    let mut distances = vec![in alloc; NOTHING; shorts.len()]?;
    let seen = distances.as_mut_slice();
    for i in 0..shorts.len() {
        push_beside(inst, axis, shorts, i, seen, cuts)?;
    }
    Ok(())
}

// Puts all cuts of an axis behind the others, without repetition.
fn push_axis(alloc: Global, inst: Inst, axis: Axis, cuts: &mut Vec<StripCut>) -> Result<(), Memory>
    ensures { IfOk result (λ _. AddsAxis axis inst cuts.old.items cuts.new.items) }
{
    let shorts = short_counts(alloc, inst, axis)?;
    cuts.push(line_cut(inst, axis, 1, 0))?;
    cuts.push(line_cut(inst, axis, 0, 1))?;
    push_each_two(alloc, inst, axis, shorts.as_slice(), cuts)
}

// The cuts of the instance in order, each once.
pub(crate) fn cuts_of(alloc: Global, inst: Inst) -> Result<Vec<StripCut>, Memory>
    ensures { IfOk result (λ r. (all : List StripCut) × AreCuts inst all × StandsFor inst all r.items) }
{
    let mut cuts = Vec::new(alloc);
    cuts.push(StripCut::Area)?;
    push_axis(alloc, inst, Axis::X, &mut cuts)?;
    push_axis(alloc, inst, Axis::Y, &mut cuts)?;
    Ok(cuts)
}
