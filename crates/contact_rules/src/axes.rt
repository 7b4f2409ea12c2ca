ghost use Rattle.std.specs.Prelude.{◌≡◌, ◌<◌, ◌≤◌};
ghost use Rattle.plan_geometry.specs.Layout.{IsInside};
ghost use Rattle.contact_rules.specs.Real.{IsGapOf, other, real_side, real_extent, real_finish};

use plan_geometry::{Axis, Inst, Spot, Way, extent_along, side_along, start_along};

/// The other of the two directions.
pub fn other_axis(axis: Axis) -> Axis
    ensures { result ≡ other axis }
{
    match axis {
        Axis::X => Axis::Y,
        Axis::Y => Axis::X,
    }
}

/// The pallet's real side.
pub fn real_side_along(axis: Axis, inst: Inst, gap: u32) -> u32
    requires gap { IsGapOf inst gap }
    ensures value { result ≡ real_side axis inst gap }
    ensures small { result ≤ 4000 }
{
    side_along(axis, inst) - gap
}

/// How far a real case reaches.
pub fn real_extent_along(axis: Axis, inst: Inst, gap: u32, way: Way) -> u32
    requires gap { IsGapOf inst gap }
    ensures value { result ≡ real_extent axis inst gap way }
    ensures some { 0 < result }
    ensures small { result ≤ 4000 }
{
    extent_along(axis, inst, way) - gap
}

/// Where a real case ends.
pub fn real_finish_along(axis: Axis, inst: Inst, gap: u32, spot: Spot) -> u32
    requires gap { IsGapOf inst gap }
    requires inside { IsInside inst spot }
    ensures value { result ≡ real_finish axis inst gap spot }
    ensures within { result ≤ real_side axis inst gap }
    ensures small { result ≤ 4000 }
{
    start_along(axis, spot) + real_extent_along(axis, inst, gap, spot.way)
}
