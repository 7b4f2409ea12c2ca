ghost use Rattle.std.specs.Prelude.{◌≡◌, ◌≤◌, IfOk};
ghost use Rattle.cert_rules.specs.Next.{next};

use plan_geometry::Inst;
use plan_memory::Memory;
use raster_points::Points;
use std::alloc::Global;
use std::marker::Model;

/// At each place of a side of the pallet the next normal place, or the side where there is none.
#[derive(Drop)]
pub struct NextPlaces {
    inst: Inst,
    side: u32,
    places: Vec<u32>,
}

impl Model for NextPlaces {
    ghost use Rattle.cert_rules.specs.Tables.{SideOf, ListsNext};

    ghost Value = { SideOf };

    ghost view = { λ a. record { inst = a.inst; side = a.side } };

    ghost invariant = { λ a. ListsNext a.inst a.side a.places.items };
}

impl NextPlaces {
    /// The table of a side.
    pub fn of(alloc: Global, inst: Inst, side: u32) -> Result<NextPlaces, Memory>
        requires { side ≤ 4000 }
        ensures inst { IfOk result (λ t. t.inst ≡ inst) }
        ensures side { IfOk result (λ t. t.side ≡ side) }
    {
        let points = Points::of(alloc, side, inst.long, inst.short)?;
        let mut places = Vec::new(alloc);
        for place in 0..side + 1 {
            places.push(points.next(place))?;
        }
        Ok(NextPlaces { inst, side, places })
    }

    /// The next normal place.
    pub fn next(&self, place: u32) -> u32
        requires { place ≤ self.now.side }
        ensures value { result ≡ next self.now.inst self.now.side place }
        ensures from { place ≤ result }
        ensures within { result ≤ self.now.side }
    {
        self.places[place as usize]
    }
}
