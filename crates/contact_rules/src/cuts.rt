ghost use Rattle.std.specs.Prelude.{◌≡◌, ℕ, ◌+◌, ◌<◌, ◌≤◌, ◌⊎◌, ◌↔◌, IsTrue, All, Any};
ghost use Rattle.plan_geometry.specs.Layout.{start, IsInside, IsLayout};
ghost use Rattle.plan_geometry.specs.declared.spots.Axis.TheVariants.{X, Y};
ghost use Rattle.contact_rules.specs.Real.{IsGapOf, other, real_side, real_finish};
ghost use Rattle.contact_rules.specs.Cut.{EachCase, SomeCase, IsRun, IsGreatestRun};
ghost use Rattle.contact_rules.specs.Steps.{EndsFrom, IsLongest};

use crate::axes::{other_axis, real_finish_along, real_side_along};
use crate::spans::{Span, add_crossing, longest_free};
use arrayvec::ArrayVec;
use plan_geometry::{Axis, Inst, Layer, Spot, start_along};

// The longest run at the line.
fn run_at(
    axis: Axis,
    inst: Inst,
    gap: u32,
    lower: &[Spot],
    upper: &[Spot],
    line: u32,
    spans: &mut ArrayVec<Span, 8000>,
) -> u32
    requires gap { IsGapOf inst gap }
    requires lower_layout { IsLayout inst lower.now }
    requires upper_layout { IsLayout inst upper.now }
    ensures bound { (row n : ℕ) → IsRun axis inst gap lower.now upper.now line row n → n ≤ result }
    ensures reached { (row : ℕ) × IsRun axis inst gap lower.now upper.now line row result }
    ensures few { result ≤ 4000 }
{
    spans.clear();
    add_crossing(axis, inst, gap, line, lower, spans);
    add_crossing(axis, inst, gap, line, upper, spans);
    longest_free(
        spans.as_slice(),
        real_side_along(other_axis(axis), inst, gap),
    )
}

// The least place from `from` on at which a case ends, or the limit.
fn next_end(axis: Axis, inst: Inst, gap: u32, spots: &[Spot], from: u32, limit: u32) -> u32
    requires gap { IsGapOf inst gap }
    requires inside { All (IsInside inst) spots.now }
    requires from { from ≤ limit }
    ensures ahead { from ≤ result }
    ensures limited { result ≤ limit }
    ensures skips { All (EndsFrom axis inst gap from result) spots.now }
    ensures reached { (result ≡ limit) ⊎ Any (λ s. real_finish axis inst gap s ≡ result) spots.now }
{
    let mut next = limit;
    for s in spots {
        let end = real_finish_along(axis, inst, gap, *s);
        if from <= end {
            next = next.min(end);
        }
    }
    next
}

// The least place from `from` on at which a case of either layer ends, or the pallet's side.
fn next_line(axis: Axis, inst: Inst, gap: u32, lower: &[Spot], upper: &[Spot], from: u32) -> u32
    requires gap { IsGapOf inst gap }
    requires lower_inside { All (IsInside inst) lower.now }
    requires upper_inside { All (IsInside inst) upper.now }
    requires from { from ≤ real_side axis inst gap }
    ensures ahead { from ≤ result }
    ensures limited { result ≤ real_side axis inst gap }
    ensures skips { EachCase (EndsFrom axis inst gap from result) lower.now upper.now }
    ensures reached { (result ≡ real_side axis inst gap)
        ⊎ SomeCase (λ s. real_finish axis inst gap s ≡ result) lower.now upper.now }
{
    let side = real_side_along(axis, inst, gap);
    let low = next_end(axis, inst, gap, lower, from, side);
    next_end(axis, inst, gap, upper, from, low)
}

// Whether some case begins at or after the line.
fn begins_from(axis: Axis, spots: &[Spot], line: u32) -> bool
    ensures { IsTrue result ↔ Any (λ s. line ≤ start axis s) spots.now }
{
    spots.iter().any(|s| line <= start_along(axis, *s))
}

// Whether some case of either layer begins at or after the line.
fn some_begins_from(axis: Axis, lower: &[Spot], upper: &[Spot], line: u32) -> bool
    ensures { IsTrue result ↔ SomeCase (λ s. line ≤ start axis s) lower.now upper.now }
{
    begins_from(axis, lower, line) || begins_from(axis, upper, line)
}

// The greater of `most` and the longest run at the line, where a case begins at or after the line.
fn longest_with(
    axis: Axis,
    inst: Inst,
    gap: u32,
    lower: &[Spot],
    upper: &[Spot],
    line: u32,
    most: u32,
    spans: &mut ArrayVec<Span, 8000>,
) -> u32
    requires gap { IsGapOf inst gap }
    requires lower_layout { IsLayout inst lower.now }
    requires upper_layout { IsLayout inst upper.now }
    requires most { most ≤ 4000 }
    ensures longest { IsLongest axis inst gap lower.now upper.now line most result }
    ensures few { result ≤ 4000 }
{
    if some_begins_from(axis, lower, upper, line) {
        most.max(run_at(axis, inst, gap, lower, upper, line, spans))
    } else {
        most
    }
}

// The greatest run along an axis. A line at which no case ends has no longer run than one before it at
// which a case ends.
fn run_along(
    axis: Axis,
    inst: Inst,
    gap: u32,
    lower: &[Spot],
    upper: &[Spot],
    spans: &mut ArrayVec<Span, 8000>,
) -> u32
    requires gap { IsGapOf inst gap }
    requires lower_layout { IsLayout inst lower.now }
    requires upper_layout { IsLayout inst upper.now }
    ensures greatest { IsGreatestRun axis inst gap lower.now upper.now result }
    ensures few { result ≤ 4000 }
{
    let side = real_side_along(axis, inst, gap);
    let mut most = 0;
    let mut line = next_line(axis, inst, gap, lower, upper, 1);
    while line < side {
        most = longest_with(axis, inst, gap, lower, upper, line, most, spans);
        line = next_line(axis, inst, gap, lower, upper, line + 1);
    }
    most
}

// The greatest run along an axis that a straight cut can pass between two layers.
pub(crate) fn longest_run(axis: Axis, lower: &Layer, upper: &Layer, gap: u32) -> u32
    requires same { upper.now.inst ≡ lower.now.inst }
    requires gap { IsGapOf lower.now.inst gap }
    ensures greatest { IsGreatestRun axis lower.now.inst gap lower.now.spots upper.now.spots result }
    ensures few { result ≤ 4000 }
{
    let mut spans = ArrayVec::new();
    run_along(
        axis,
        lower.inst(),
        gap,
        lower.spots(),
        upper.spots(),
        &mut spans,
    )
}

/// How many consecutive rows, and how many consecutive columns, one straight cut can pass.
#[derive(Clone, Copy, PartialEq, Eq, Debug)]
pub struct Runs {
    pub rows: u32,
    pub columns: u32,
}

/// The greatest runs of rows at lines x, and of columns at lines y, that no case of the two layers
/// crosses; 0 where no line counts. Each case is its real rectangle, and of the lines between the
/// pallet's real edges those count that have a case on either side (after Carpenter and Dowsland 1985).
pub fn straight_run(lower: &Layer, upper: &Layer, gap: u32) -> Runs
    requires same { upper.now.inst ≡ lower.now.inst }
    requires gap { IsGapOf lower.now.inst gap }
    ensures rows { IsGreatestRun X lower.now.inst gap lower.now.spots upper.now.spots result.rows }
    ensures columns { IsGreatestRun Y lower.now.inst gap lower.now.spots upper.now.spots result.columns }
    ensures few_rows { result.rows ≤ 4000 }
    ensures few_columns { result.columns ≤ 4000 }
{
    let inst = lower.inst();
    let below = lower.spots();
    let above = upper.spots();
    let mut spans = ArrayVec::new();
    Runs {
        rows: run_along(Axis::X, inst, gap, below, above, &mut spans),
        columns: run_along(Axis::Y, inst, gap, below, above, &mut spans),
    }
}
