ghost use Rattle.std.specs.Prelude.{◌≡◌, ℕ, ◌+◌, ◌*◌, ◌<◌, ◌≤◌, length, slice_index, slice_set};
ghost use Rattle.plan_geometry.specs.Layout.{IsInside, Covers};
ghost use Rattle.dual_search.specs.Raising.{Raises, RiseByOne, IsFirstGreatestPlace};

use crate::extremes::first_greatest;
use crate::raising::raise_block;
use plan_geometry::{Axis, Inst, Spot, extent_along};

// Covers the position once more, and then lets the first of the cells that are covered most weigh one more. Answers
// the place of that cell.
pub(crate) fn play(inst: Inst, spot: Spot, covers: &mut [u32], weights: &mut [u32]) -> usize
    requires inside { IsInside inst spot }
    requires few { inst.l_side * inst.w_side ≤ 40000 }
    requires covers { length covers.old ≡ inst.l_side * inst.w_side }
    requires weights { length weights.old ≡ inst.l_side * inst.w_side }
    requires small_covers { (k : ℕ) → slice_index covers.old k ≤ 2000 }
    requires small_weights { (k : ℕ) → slice_index weights.old k ≤ 2000 }
    ensures cell { result < inst.l_side * inst.w_side }
    ensures covered { Raises inst.l_side (Covers inst spot) covers.old covers.new }
    ensures most_covered { IsFirstGreatestPlace covers.new result }
    ensures raised { weights.new ≡ slice_set weights.old result (slice_index weights.old result + 1) }
    ensures rise { RiseByOne covers.old covers.new }
{
    raise_block(
        covers,
        inst.l_side as usize,
        spot.x as usize,
        spot.y as usize,
        extent_along(Axis::X, inst, spot.way) as usize,
        extent_along(Axis::Y, inst, spot.way) as usize,
    );
    let cell = first_greatest(covers);
    weights[cell] += 1;
    cell
}
