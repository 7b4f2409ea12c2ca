ghost use Rattle.std.specs.Prelude.{ℕ, ◌≡◌, ◌+◌, ◌≤◌, ◌<◌, ◌↔◌, IsTrue, IfOk};
ghost use Rattle.partitions.specs.Partitions.{IsNormal};
ghost use Rattle.raster_points.specs.Places.{IsDown, Lists};
ghost use Rattle.raster_points.specs.Points.{IsDownTable, IsDownBefore};

use plan_memory::Memory;
use std::alloc::Global;

// Whether a place on a side is normal.
fn is_normal(side: u32, long: u32, short: u32, place: u32) -> bool
    requires limited { side ≤ 4000 }
    requires positive { 1 ≤ short }
    requires ordered { short ≤ long }
    requires within { place ≤ side }
    ensures { IsTrue result ↔ IsNormal side long short place }
{
    for i in 0..place / long + 1 {
        if (place - i * long) % short == 0 {
            return true;
        }
    }
    false
}

// The greatest normal place up to a place, given that before it.
fn down_at(long: u32, short: u32, place: u32, before: u32) -> u32
    requires limited { place ≤ 4000 }
    requires positive { 1 ≤ short }
    requires ordered { short ≤ long }
    requires before { IsDownBefore long short place before }
    ensures { IsDown place long short result }
{
    if is_normal(place, long, short, place) {
        place
    } else {
        before
    }
}

/// For each place up to the side, the greatest normal place up to there.
pub fn downs(alloc: Global, side: u32, long: u32, short: u32) -> Result<Vec<u32>, Memory>
    requires limited { side ≤ 4000 }
    requires positive { 1 ≤ short }
    requires ordered { short ≤ long }
    ensures { IfOk result (λ v. IsDownTable side long short v.items) }
{
    let mut downs = Vec::new(alloc);
    let mut last = 0;
    for place in 0..side + 1 {
        last = down_at(long, short, place, last);
        downs.push(last)?;
    }
    Ok(downs)
}

/// The normal places of a side, in rising order.
pub fn normal_places(alloc: Global, side: u32, long: u32, short: u32) -> Result<Vec<u32>, Memory>
    requires limited { side ≤ 4000 }
    requires positive { 1 ≤ short }
    requires ordered { short ≤ long }
    ensures { IfOk result (λ v. Lists (IsNormal side long short) v.items) }
{
    let mut places = Vec::new(alloc);
    for place in 0..side + 1 {
        if is_normal(side, long, short, place) {
            places.push(place)?;
        }
    }
    Ok(places)
}
