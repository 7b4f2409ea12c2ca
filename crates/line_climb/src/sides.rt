ghost use Rattle.std.specs.Prelude.{◌≡◌};
ghost use Rattle.plan_geometry.specs.Layout.{side};

use plan_geometry::{Axis, Inst, Way, extent_along, is_lawful, side_along};
use plan_memory::Memory;
use raster_points::Points;
use std::alloc::Global;

// What a walk asks of a place on a side of the pallet: how many lines of the table stand before it, the next place
// where a case may begin or the end of the side, and whether a case of each way may begin here.
#[derive(Clone, Copy)]
pub(crate) struct Place {
    pub(crate) lines: usize,
    pub(crate) next: u32,
    lying: bool,
    standing: bool,
}

impl Place {
    // Whether a case of this way may begin here.
    pub(crate) fn may_begin(self, way: Way) -> bool {
        match way {
            Way::Lying => self.lying,
            Way::Standing => self.standing,
        }
    }
}

// A side of the pallet, with each place on it from 0 to its end.
#[derive(Drop)]
pub(crate) struct Side {
    pub(crate) length: u32,
    places: Vec<Place>,
}

// The raster places of the cases of a way along an axis: every layout can be moved to such places.
fn raster_places(
    alloc: Global,
    points: &Points,
    axis: Axis,
    inst: Inst,
    way: Way,
) -> Result<Vec<u32>, Memory>
    requires { points.now.side ≡ side axis inst }
{
    let extent = extent_along(axis, inst, way);
    let side = side_along(axis, inst);
    if is_lawful(inst, way) && extent <= side {
        points.raster(alloc, side - extent)
    } else {
        Ok(Vec::new(alloc))
    }
}

// The first of rising places that is above a place, or the end where there is none.
fn first_above(places: &[u32], place: u32, end: u32) -> u32 {
    let below = places.partition_point(|other| *other <= place);
    match places.get(below) {
        Some(next) => *next,
        None => end,
    }
}

impl Side {
    // The side of the pallet along an axis, of which these are the lines.
    pub(crate) fn of(alloc: Global, axis: Axis, inst: Inst, lines: &[u32]) -> Result<Side, Memory> {
        let length = side_along(axis, inst);
        let points = Points::of(alloc, length, inst.long, inst.short)?;
        let lying = raster_places(alloc, &points, axis, inst, Way::Lying)?;
        let standing = raster_places(alloc, &points, axis, inst, Way::Standing)?;
        let mut places = Vec::new(alloc);
        for place in 0..length + 1 {
            let next = first_above(lying.as_slice(), place, length);
            places.push(Place {
                lines: lines.partition_point(|line| *line < place),
                next: next.min(first_above(standing.as_slice(), place, length)),
                lying: lying.as_slice().binary_search(&place).is_ok(),
                standing: standing.as_slice().binary_search(&place).is_ok(),
            })?;
        }
        Ok(Side { length, places })
    }

    // The place at a distance from the start of the side. There is none beyond the end, and nothing begins there.
    pub(crate) fn at(&self, place: u32) -> Place {
        match self.places.as_slice().get(place as usize) {
            Some(found) => *found,
            None => Place {
                lines: 0,
                next: self.length,
                lying: false,
                standing: false,
            },
        }
    }
}
