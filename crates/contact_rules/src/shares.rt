ghost use Rattle.std.specs.Prelude.{◌≡◌, ◌-◌, ◌*◌, ◌≤◌};
ghost use Rattle.plan_geometry.specs.declared.spots.Axis.TheVariants.{Y};
ghost use Rattle.plan_geometry.specs.Layout.{IsInside, IsInOrder};
ghost use Rattle.contact_rules.specs.Real.{IsGapOf, real_extent, real_finish};
ghost use Rattle.contact_rules.specs.Shared.{shared, total_shared, supporters};
ghost use Rattle.contact_rules.specs.Steps.{overlap, IsFirstNear, IsFirstBehind};

use crate::axes::real_finish_along;
use plan_geometry::{Axis, Inst, Layer, Spot, start_along};

// How far two cases overlap.
fn overlap_along(axis: Axis, inst: Inst, gap: u32, s: Spot, t: Spot) -> u32
    requires gap { IsGapOf inst gap }
    requires s_inside { IsInside inst s }
    requires t_inside { IsInside inst t }
    ensures value { result ≡ overlap axis inst gap s t }
    ensures small { result ≤ real_extent axis inst gap t.way }
{
    let end = real_finish_along(axis, inst, gap, s).min(real_finish_along(axis, inst, gap, t));
    end.saturating_sub(start_along(axis, s).max(start_along(axis, t)))
}

// The area that two cases share.
fn shared_area(inst: Inst, gap: u32, s: Spot, t: Spot) -> u32
    requires gap { IsGapOf inst gap }
    requires s_inside { IsInside inst s }
    requires t_inside { IsInside inst t }
    ensures value { result ≡ shared inst gap s t }
    ensures small { result ≤ inst.long * inst.short }
{
    overlap_along(Axis::X, inst, gap, s, t) * overlap_along(Axis::Y, inst, gap, s, t)
}

// The place of the first case that could end after the row, were it as long as `reach`. The cases are in the
// order of y.
fn first_near(spots: &[Spot], reach: u32, row: u32) -> usize
    requires order { IsInOrder spots.now }
    ensures { IsFirstNear spots.now reach row result }
{
    if row < reach {
        return 0;
    }
    let last = row - reach;
    spots.partition_point(|s| s.y <= last)
}

// The place of the first case that begins at or after the row. The cases are in the order of y.
fn first_behind(spots: &[Spot], row: u32) -> usize
    requires order { IsInOrder spots.now }
    ensures { IsFirstBehind spots.now row result }
{
    spots.partition_point(|s| s.y < row)
}

// The places, from the first up to the second, of the lower cases that can share area with the case. The
// others end before it or begin after it, in y.
fn near_places(upper: Spot, lower: &Layer, gap: u32) -> (usize, usize)
    requires gap { IsGapOf lower.now.inst gap }
    requires inside { IsInside lower.now.inst upper }
    ensures first { IsFirstNear lower.now.spots (lower.now.inst.long - gap) upper.y result.0 }
    ensures last { IsFirstBehind lower.now.spots (real_finish Y lower.now.inst gap upper) result.1 }
{
    let inst = lower.inst();
    let spots = lower.spots();
    let end = real_finish_along(Axis::Y, inst, gap, upper);
    (
        first_near(spots, inst.long - gap, upper.y),
        first_behind(spots, end),
    )
}

/// The area, in cells, that a case shares with all cases of the layer below, each case being its real
/// rectangle. The layer is of an instance whose numbers each contain the gap.
pub fn contact(upper: Spot, lower: &Layer, gap: u32) -> u32
    requires gap { IsGapOf lower.now.inst gap }
    requires inside { IsInside lower.now.inst upper }
    ensures value { result ≡ total_shared lower.now.inst gap lower.now.spots upper }
    ensures small { result ≤ 16000000 }
{
    let inst = lower.inst();
    let spots = lower.spots();
    let (first, last) = near_places(upper, lower, gap);
    let mut total = 0;
    for k in first..last {
        total += shared_area(inst, gap, upper, spots[k]);
    }
    total
}

/// How many cases of the layer below share some area with the case, each case being its real rectangle.
pub fn supports(upper: Spot, lower: &Layer, gap: u32) -> u32
    requires gap { IsGapOf lower.now.inst gap }
    requires inside { IsInside lower.now.inst upper }
    ensures { result ≡ supporters lower.now.inst gap lower.now.spots upper }
{
    let inst = lower.inst();
    let spots = lower.spots();
    let (first, last) = near_places(upper, lower, gap);
    let mut count = 0;
    for k in first..last {
        if 0 < shared_area(inst, gap, upper, spots[k]) {
            count += 1;
        }
    }
    count
}
