ghost use Rattle.std.specs.Prelude.{◌≡◌, ◌≤◌, ◌↔◌, IsTrue};
ghost use Rattle.block_tree.specs.Regions as regions;
ghost use Rattle.block_tree.specs.Regions.{IsOrdered};
ghost use Rattle.block_tree.specs.Parts.{IsCut};
ghost use Rattle.l_patterns.specs.Ells as spec;
ghost use Rattle.l_patterns.specs.Ells.{IsNormalCut, IsRounded, IsSplit};
ghost use Rattle.l_patterns.specs.Cuts.{AreSidesOf, Fits};

use crate::sides::{Sides, round_down};
use block_tree::{Cut, Region, ell_parts, is_rectangle, rectangle, side_x, side_y};

/// The number of cells of a region.
pub fn area_of(r: Region) -> u32
    requires order { IsOrdered r }
    requires x_small { r.big_x ≤ 4000 }
    requires y_small { r.big_y ≤ 4000 }
    ensures value { result ≡ regions.area r }
    ensures small { result ≤ 16000000 }
{
    r.small_x * r.big_y + (r.big_x - r.small_x) * r.small_y
}

/// A rectangle written by its sides, any other region as it is.
pub fn written_of(r: Region) -> Region
    ensures { result ≡ spec.written r }
{
    if is_rectangle(r) {
        rectangle(side_x(r), side_y(r))
    } else {
        r
    }
}

/// Whether the cut meets its condition.
pub fn is_cut(r: Region, cut: Cut) -> bool
    ensures { IsTrue result ↔ IsCut r cut }
{
    match cut {
        Cut::K1 { x1, x2, y1 } => is_rectangle(r) && x1 <= x2 && x2 <= side_x(r) && y1 <= side_y(r),
        Cut::K2 { c, h } => !is_rectangle(r) && c <= r.small_x && h <= r.small_y,
        Cut::K3 { d, h } => !is_rectangle(r) && r.small_x <= d && d <= r.big_x && h <= r.small_y,
        Cut::K4 { c, e } => !is_rectangle(r) && c <= r.small_x && r.small_y <= e && e <= r.big_y,
    }
}

fn round_each(q: Sides<'_>, r: Region) -> Region
    requires sides { AreSidesOf q }
    requires order { IsOrdered r }
    requires wide { r.big_x ≤ q.inst.l_side }
    requires tall { r.big_y ≤ q.inst.w_side }
    ensures { IsRounded q.entry.inst r result }
{
    Region {
        big_x: round_down(q.x, r.big_x),
        big_y: round_down(q.y, r.big_y),
        small_x: round_down(q.x, r.small_x),
        small_y: round_down(q.y, r.small_y),
    }
}

// The region with each of its four numbers rounded down.
fn rounded(q: Sides<'_>, r: Region) -> Region
    requires sides { AreSidesOf q }
    requires order { IsOrdered r }
    requires wide { r.big_x ≤ q.inst.l_side }
    requires tall { r.big_y ≤ q.inst.w_side }
    ensures rounded { IsRounded q.entry.inst r result }
    ensures fits { Fits q.entry result }
{
    round_each(q, r)
}

/// The two parts of a cut, each rounded down.
pub fn split(q: Sides<'_>, r: Region, cut: Cut) -> (Region, Region)
    requires sides { AreSidesOf q }
    requires fits { Fits q r }
    requires lawful { IsCut r cut }
    requires normal { IsNormalCut q.inst cut }
    ensures parts { IsSplit q.entry.inst r cut result.0 result.1 }
    ensures first { Fits q.entry result.0 }
    ensures second { Fits q.entry result.1 }
{
    let parts = ell_parts(r, cut);
    let first = rounded(q, parts[0].region);
    let second = rounded(q, parts[1].region);
    (first, second)
}
