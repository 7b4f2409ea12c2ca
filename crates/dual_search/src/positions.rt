ghost use Rattle.std.specs.Prelude.{◌≡◌, ℕ, ◌+◌, ◌-◌, ◌*◌, ◌<◌, ◌≤◌, ◌↔◌, List, length, slice_index, slice_set, IfNone, IfSome};
ghost use Rattle.plan_geometry.specs.declared.spots.Axis.TheVariants.{X, Y};
ghost use Rattle.plan_geometry.specs.Layout.{side, CaseFits};
ghost use Rattle.weightings.specs.Table.{cell_in};
ghost use Rattle.dual_search.specs.Raising.{RiseByOne};
ghost use Rattle.dual_search.specs.Positions.{places, IsWindow, HoldWeights, HasNoPosition, IsLightestOfWay, IsLightest};

use crate::extremes::first_least;
use crate::raising::raise_block;
use plan_geometry::{Axis, Inst, Spot, Way, extent_along, is_lawful, side_along};

// A lightest position, and its weight.
#[derive(Clone, Copy)]
pub(crate) struct Lightest {
    pub(crate) spot: Spot,
    pub(crate) weight: u32,
}

// How many places along an axis the corner of a case of this way has.
pub(crate) fn places_along(axis: Axis, inst: Inst, way: Way) -> u32
    ensures value { result ≡ places axis inst way }
    ensures small { result ≤ side axis inst }
{
    (side_along(axis, inst) + 1).saturating_sub(extent_along(axis, inst, way))
}

// How many positions a way has.
pub(crate) fn positions_of(inst: Inst, way: Way) -> usize
    requires few { inst.l_side * inst.w_side ≤ 40000 }
    ensures value { result ≡ places X inst way * places Y inst way }
    ensures small { result ≤ 40000 }
{
    places_along(Axis::X, inst, way) as usize * places_along(Axis::Y, inst, way) as usize
}

// The first lightest position of a way, by the weights of all. None exactly where the way has no position.
fn lightest_of_way(inst: Inst, way: Way, weights: &[u32]) -> Option<Lightest>
    requires count { length weights.now ≡ places X inst way * places Y inst way }
    requires few { length weights.now ≤ 40000 }
    ensures none { IfNone result (HasNoPosition inst way) }
    ensures least { IfSome result
        (λ l. (g : ℕ → ℕ → ℕ) → HoldWeights inst way g weights.now → IsLightestOfWay inst way g l) }
{
    if weights.is_empty() || !is_lawful(inst, way) {
        return None;
    }
    let place = first_least(weights);
    let columns = places_along(Axis::X, inst, way) as usize;
    let spot = Spot {
        x: (place % columns) as u32,
        y: (place / columns) as u32,
        way,
    };
    Some(Lightest {
        spot,
        weight: weights[place],
    })
}

// The first lightest position, by the weights of all lying and of all standing ones.
pub(crate) fn lightest_of_all(inst: Inst, lying: &[u32], standing: &[u32]) -> Lightest
    requires fits { CaseFits inst }
    requires lying { length lying.now ≡ places X inst Way.Lying * places Y inst Way.Lying }
    requires standing { length standing.now ≡ places X inst Way.Standing * places Y inst Way.Standing }
    requires few { length lying.now ≤ 40000 }
    requires few_standing { length standing.now ≤ 40000 }
    ensures { (g : ℕ → ℕ → ℕ) → HoldWeights inst Way.Lying g lying.now → HoldWeights inst Way.Standing g standing.now
        → IsLightest inst g result }
{
    match lightest_of_way(inst, Way::Lying, lying) {
        Some(one) => match lightest_of_way(inst, Way::Standing, standing) {
            Some(other) => if other.weight < one.weight {
                other
            } else {
                one
            },
            None => one,
        },
        None => match lightest_of_way(inst, Way::Standing, standing) {
            Some(other) => other,
            None => unreachable!(),
        },
    }
}

// From which corner on, and at how many, a case covers a place of the axis.
#[derive(Clone, Copy)]
struct Window {
    from: u32,
    count: u32,
}

// The corners along an axis at which a case of this way covers the place.
fn window_over(axis: Axis, inst: Inst, way: Way, place: u32) -> Window
    requires { place < side axis inst }
    ensures within { result.from + result.count ≤ places axis inst way }
    ensures exact { IsWindow axis inst way place result }
{
    let from = (place + 1).saturating_sub(extent_along(axis, inst, way));
    let to = (place + 1).min(places_along(axis, inst, way));
    Window {
        from,
        count: to.saturating_sub(from),
    }
}

// Raises by 1 the weight of each position of the way that covers the cell.
pub(crate) fn raise_positions(inst: Inst, way: Way, cell: usize, weights: &mut [u32])
    requires on { cell < inst.l_side * inst.w_side }
    requires few { inst.l_side * inst.w_side ≤ 40000 }
    requires count { length weights.old ≡ places X inst way * places Y inst way }
    requires small { (k : ℕ) → slice_index weights.old k ≤ 2000 }
    ensures raised { (cells : List ℕ) → length cells ≡ inst.l_side * inst.w_side
        → HoldWeights inst way (cell_in inst.l_side cells) weights.old
        → HoldWeights inst way (cell_in inst.l_side (slice_set cells cell (slice_index cells cell + 1))) weights.new }
    ensures most { RiseByOne weights.old weights.new }
{
    let row = inst.l_side as usize;
    let across = window_over(Axis::X, inst, way, (cell % row) as u32);
    let along = window_over(Axis::Y, inst, way, (cell / row) as u32);
    raise_block(
        weights,
        places_along(Axis::X, inst, way) as usize,
        across.from as usize,
        along.from as usize,
        across.count as usize,
        along.count as usize,
    );
}
