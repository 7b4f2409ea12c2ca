ghost use Rattle.std.specs.Prelude.{◌≡◌, ◌≤◌, ◌↔◌, IsTrue, IfOk};
ghost use Rattle.partitions.specs.Partitions.{IsNormal};
ghost use Rattle.raster_points.specs.Places.{IsDown, IsRaster, IsNext, Lists};
ghost use Rattle.raster_points.specs.Points.{ArePoints};

use crate::places::{downs, normal_places};
use plan_memory::Memory;
use std::alloc::Global;
use std::marker::Model;

/// The normal places of a side of the pallet, for a case of sides long and short.
#[derive(Drop)]
pub struct Points {
    side: u32,
    long: u32,
    short: u32,
    normal: Vec<u32>,
    downs: Vec<u32>,
}

impl Model for Points {
    ghost use Rattle.raster_points.specs.Points.{SidePoints, AreAllNormal, IsDownTable};

    ghost Value = { SidePoints };

    ghost view = { λ p. record { side = p.side; long = p.long; short = p.short; normal = p.normal.items } };

    ghost invariant = { λ p. AreAllNormal p.side p.long p.short p.normal.items × IsDownTable p.side p.long p.short p.downs.items };
}

impl Points {
    /// The points of a side.
    pub fn of(alloc: Global, side: u32, long: u32, short: u32) -> Result<Points, Memory>
        requires side_limited { side ≤ 4000 }
        requires long_limited { long ≤ 4000 }
        requires ordered { short ≤ long }
        requires positive { 1 ≤ short }
        ensures side { IfOk result (λ p. p.side ≡ side) }
        ensures long { IfOk result (λ p. p.long ≡ long) }
        ensures short { IfOk result (λ p. p.short ≡ short) }
        ensures points { IfOk result (λ p. ArePoints p) }
    {
        let normal = normal_places(alloc, side, long, short)?;
        let downs = downs(alloc, side, long, short)?;
        Ok(Points {
            side,
            long,
            short,
            normal,
            downs,
        })
    }

    // The side.
    fn side(&self) -> u32
        ensures value { result ≡ self.now.side }
        ensures points { ArePoints self.now }
    {
        self.side
    }

    /// The normal places of the side, in rising order.
    pub fn normal(&self) -> &[u32]
        ensures value { result.now ≡ self.now.normal }
        ensures points { ArePoints self.now }
    {
        self.normal.as_slice()
    }

    /// The greatest normal place that is at most `s`.
    pub fn down(&self, s: u32) -> u32
        requires { s ≤ self.now.side }
        ensures down { IsDown s self.now.long self.now.short result }
        ensures small { result ≤ s }
        ensures points { ArePoints self.now }
    {
        self.downs[s as usize]
    }

    // Whether a place is normal.
    fn is_normal(&self, place: u32) -> bool
        requires { place ≤ self.now.side }
        ensures { IsTrue result ↔ IsNormal self.now.side self.now.long self.now.short place }
    {
        self.down(place) == place
    }

    /// The least normal place above `s`, or the side where there is none.
    pub fn next(&self, s: u32) -> u32
        requires { s ≤ self.now.side }
        ensures next { IsNext self.now.side self.now.long self.now.short s result }
        ensures points { ArePoints self.now }
    {
        let side = self.side();
        for above in s + 1..side + 1 {
            if self.is_normal(above) {
                return above;
            }
        }
        side
    }

    // Whether a place is a raster place of the side `s`.
    fn is_raster(&self, s: u32, place: u32) -> bool
        requires side { s ≤ self.now.side }
        requires within { place ≤ s }
        ensures { IsTrue result ↔ IsRaster s self.now.long self.now.short place }
    {
        let left = self.down(s - place);
        self.down(s - left) == place
    }

    /// The raster places of the side `s`, in rising order.
    pub fn raster(&self, alloc: Global, s: u32) -> Result<Vec<u32>, Memory>
        requires { s ≤ self.now.side }
        ensures raster { IfOk result (λ v. Lists (IsRaster s self.now.long self.now.short) v.items) }
        ensures points { ArePoints self.now }
    {
        let greatest = self.down(s);
        let mut places = Vec::new(alloc);
        for place in 0..greatest + 1 {
            if self.is_raster(s, place) {
                places.push(place)?;
            }
        }
        Ok(places)
    }
}
