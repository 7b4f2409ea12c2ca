ghost use Rattle.std.specs.Prelude.{◌≡◌, ◌≤◌};
ghost use Rattle.block_tree.specs.Regions as regions;
ghost use Rattle.block_tree.specs.Regions.{IsOrdered};
ghost use Rattle.block_tree.specs.Parts as spec;
ghost use Rattle.block_tree.specs.Parts.{IsCut};
ghost use Rattle.block_tree.specs.Drawing as drawing;

use crate::regions::{Cut, Region, rectangle, side_x, side_y};
use plan_geometry::{Axis, Inst, Spot, extent_along};

/// A part of a cut, and how it stands in the whole: along each side it begins at `at`, or where it is
/// flipped it runs back from there. A part that is flipped along both sides is turned by a half turn.
#[derive(Clone, Copy, PartialEq, Eq, Debug)]
pub struct Part {
    pub region: Region,
    pub flip_x: bool,
    pub at_x: u32,
    pub flip_y: bool,
    pub at_y: u32,
}

// A part moved by (at_x, at_y).
fn moved(at_x: u32, at_y: u32, region: Region) -> Part
    ensures { result ≡ spec.moved at_x at_y region }
{
    Part {
        region,
        flip_x: false,
        at_x,
        flip_y: false,
        at_y,
    }
}

// A part turned by a half turn within an a by b rectangle.
fn half_turned(a: u32, b: u32, region: Region) -> Part
    ensures { result ≡ spec.half_turned a b region }
{
    Part {
        region,
        flip_x: true,
        at_x: a,
        flip_y: true,
        at_y: b,
    }
}

// A part mirrored in x within the width a.
fn mirrored_x(a: u32, region: Region) -> Part
    ensures { result ≡ spec.mirrored_x a region }
{
    Part {
        region,
        flip_x: true,
        at_x: a,
        flip_y: false,
        at_y: 0,
    }
}

// A part mirrored in y within the height b.
fn mirrored_y(b: u32, region: Region) -> Part
    ensures { result ≡ spec.mirrored_y b region }
{
    Part {
        region,
        flip_x: false,
        at_x: 0,
        flip_y: true,
        at_y: b,
    }
}

fn region(big_x: u32, big_y: u32, small_x: u32, small_y: u32) -> Region
    ensures { result ≡ regions.region big_x big_y small_x small_y }
{
    Region {
        big_x,
        big_y,
        small_x,
        small_y,
    }
}

/// The five blocks of an a by b rectangle: lower left, lower right, upper left, upper right and the
/// centre (Bischoff and Dowsland 1982).
pub fn five_parts(a: u32, b: u32, x1: u32, x2: u32, y1: u32, y2: u32) -> [Part; 5]
    requires x_order { x1 ≤ x2 }
    requires x_in { x2 ≤ a }
    requires y_order { y1 ≤ y2 }
    requires y_in { y2 ≤ b }
    ensures { result ≡ spec.five_parts a b x1 x2 y1 y2 }
{
    [
        moved(0, 0, rectangle(x2, y1)),
        moved(x2, 0, rectangle(a - x2, y2)),
        moved(0, y1, rectangle(x1, b - y1)),
        moved(x1, y2, rectangle(a - x1, b - y2)),
        moved(x1, y1, rectangle(x2 - x1, y2 - y1)),
    ]
}

/// The two parts of a cut.
pub fn ell_parts(r: Region, cut: Cut) -> [Part; 2]
    requires order { IsOrdered r }
    requires cut { IsCut r cut }
    ensures { result ≡ spec.ell_parts r cut }
{
    match cut {
        Cut::K1 { x1, x2, y1 } => {
            let a = side_x(r);
            let b = side_y(r);
            [
                moved(0, 0, region(x2, b, x1, y1)),
                half_turned(a, b, region(a - x1, b, a - x2, b - y1)),
            ]
        }
        Cut::K2 { c, h } => [
            moved(0, 0, region(r.big_x, r.big_y, c, h)),
            moved(
                c,
                h,
                region(r.big_x - c, r.big_y - h, r.small_x - c, r.small_y - h),
            ),
        ],
        Cut::K3 { d, h } => [
            moved(0, h, region(d, r.big_y - h, r.small_x, r.small_y - h)),
            mirrored_x(r.big_x, region(r.big_x, r.small_y, r.big_x - d, h)),
        ],
        Cut::K4 { c, e } => [
            moved(c, 0, region(r.big_x - c, e, r.small_x - c, r.small_y)),
            mirrored_y(r.big_y, region(r.small_x, r.big_y, c, r.big_y - e)),
        ],
    }
}

// Where what lies from `low` to `high` of a part begins in the whole.
fn placed_at(flip: bool, at: u32, low: u32, high: u32) -> u32
    requires room { drawing.PlacedFits flip at low high }
    ensures { result ≡ drawing.placed_at flip at low high }
{
    if flip { at - high } else { at + low }
}

/// A case of a part, in the whole.
pub fn placed(inst: Inst, p: Part, s: Spot) -> Spot
    requires stands { drawing.InRegion inst p.region s }
    requires part { drawing.IsPart p }
    ensures { result ≡ drawing.placed inst p s }
{
    Spot {
        x: placed_at(
            p.flip_x,
            p.at_x,
            s.x,
            s.x + extent_along(Axis::X, inst, s.way),
        ),
        y: placed_at(
            p.flip_y,
            p.at_y,
            s.y,
            s.y + extent_along(Axis::Y, inst, s.way),
        ),
        way: s.way,
    }
}
