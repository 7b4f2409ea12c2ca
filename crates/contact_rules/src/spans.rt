ghost use Rattle.std.specs.Prelude.{◌≡◌, ℕ, ◌+◌, ◌<◌, ◌≤◌, ◌++◌, ◌↔◌, All, IsTrue};
ghost use Rattle.arrayvec.specs.ArrayVec.{array_vec_len};
ghost use Rattle.plan_geometry.specs.Layout.{IsInside, IsLayout};
ghost use Rattle.contact_rules.specs.Real.{IsGapOf};
ghost use Rattle.contact_rules.specs.Steps.{IsSpanWithin, IsFree, StopsBy, span_of, crosses, crossing};

use crate::axes::{other_axis, real_finish_along};
use arrayvec::ArrayVec;
use plan_geometry::{Axis, Inst, Spot, start_along};

/// The places from `start` up to, but without, `finish`.
#[derive(Clone, Copy, PartialEq, Eq, Debug, Default)]
pub struct Span {
    pub start: u32,
    pub finish: u32,
}

// Where a run from the row on stops: the least start of a span that ends after the row, or the limit.
fn stop(spans: &[Span], row: u32, limit: u32) -> u32
    ensures { (m : ℕ) → (m ≤ result) ↔ ((m ≤ limit) × All (StopsBy row m) spans.now) }
{
    let mut stop = limit;
    for p in spans {
        if row < p.finish {
            stop = stop.min(p.start);
        }
    }
    stop
}

// The length of the longest run from the row on that is free of the spans.
fn free_from(spans: &[Span], side: u32, row: u32) -> u32
    requires spans { All (IsSpanWithin side) spans.now }
    requires row { row ≤ side }
    ensures { (n : ℕ) → (n ≤ result) ↔ IsFree spans.now side row n }
{
    stop(spans, row, side).saturating_sub(row)
}

/// The length of the longest run below the side that is free of the spans.
pub fn longest_free(spans: &[Span], side: u32) -> u32
    requires spans { All (IsSpanWithin side) spans.now }
    ensures bound { (row n : ℕ) → IsFree spans.now side row n → n ≤ result }
    ensures reached { (row : ℕ) × IsFree spans.now side row result }
    ensures within { result ≤ side }
{
    let mut most = free_from(spans, side, 0);
    for p in spans {
        most = most.max(free_from(spans, side, p.finish));
    }
    most
}

// Whether the case begins before the line and ends after it.
fn is_crossing(axis: Axis, inst: Inst, gap: u32, line: u32, s: Spot) -> bool
    requires gap { IsGapOf inst gap }
    requires inside { IsInside inst s }
    ensures { result ≡ crosses axis inst gap line s }
{
    start_along(axis, s) < line && line < real_finish_along(axis, inst, gap, s)
}

// What the case covers along the other direction.
fn covered(axis: Axis, inst: Inst, gap: u32, s: Spot) -> Span
    requires gap { IsGapOf inst gap }
    requires inside { IsInside inst s }
    ensures { result ≡ span_of axis inst gap s }
{
    Span {
        start: start_along(other_axis(axis), s),
        finish: real_finish_along(other_axis(axis), inst, gap, s),
    }
}

/// Adds the spans of the cases of a layout that cross the line. They are apart, so there are few.
pub fn add_crossing(
    axis: Axis,
    inst: Inst,
    gap: u32,
    line: u32,
    spots: &[Spot],
    spans: &mut ArrayVec<Span, 8000>,
)
    requires gap { IsGapOf inst gap }
    requires layout { IsLayout inst spots.now }
    requires room { array_vec_len spans.old ≤ 4000 }
    ensures spans { spans.new.items ≡ spans.old.items ++ crossing axis inst gap line spots.now }
    ensures few { array_vec_len spans.new ≤ array_vec_len spans.old + 4000 }
{
    for s in spots {
        if is_crossing(axis, inst, gap, line, *s) {
            spans.push(covered(axis, inst, gap, *s));
        }
    }
}
