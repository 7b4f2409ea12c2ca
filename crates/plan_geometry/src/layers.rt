ghost use Rattle.std.specs.Prelude.{◌≡◌, ◌+◌, ◌*◌, ◌^◌, ◌<◌, ◌≤◌, ◌↔◌, length, max, IsSome, IfSome, IfOk, IsPermutation, slice_get, Some};
ghost use Rattle.plan_geometry.specs.Layout.{IsLayout, IsLawfulWay};
ghost use Rattle.plan_geometry.specs.Placed.{IsLayer};
ghost use Rattle.plan_geometry.specs.Grid.{grid_count, uniform_way, IsGrid};

use crate::instances::Inst;
use crate::layouts::{extent_along, is_layout_by_rows};
use crate::spots::{Axis, Spot, Way};
use plan_memory::Memory;
use std::alloc::Global;
use std::marker::Model;

/// A layout of its instance, in the order of y, then x.
#[derive(Drop)]
pub struct Layer {
    inst: Inst,
    spots: Vec<Spot>,
}

impl Model for Layer {
    ghost use Rattle.plan_geometry.specs.Placed.{Placed, IsLayer};

    ghost Value = { Placed };

    ghost view = { λ a. record { inst = a.inst; spots = a.spots.items } };

    ghost invariant = { λ a. IsLayer a.inst a.spots.items };
}

impl Layer {
    /// The layer of these cases; None exactly where they are no layout.
    pub fn new(inst: Inst, mut spots: Vec<Spot>) -> Option<Layer>
        ensures accepted { IsSome result ↔ IsLayout inst spots.items }
        ensures inst { IfSome result (λ a. a.inst ≡ inst) }
        ensures same { IfSome result (λ a. IsPermutation spots.items a.spots) }
        ensures layer { IfSome result (λ a. IsLayer a.inst a.spots) }
    {
        spots.as_mut_slice().sort_unstable_by_key(|s| (s.y, s.x));
        if !is_layout_by_rows(inst, spots.as_slice()) {
            return None;
        }
        Some(Layer { inst, spots })
    }

    /// The pallet and the case.
    pub fn inst(&self) -> Inst
        ensures value { result ≡ self.now.inst }
        ensures layer { IsLayer self.now.inst self.now.spots }
    {
        self.inst
    }

    /// How many cases there are.
    pub fn count(&self) -> u32
        ensures value { result ≡ length self.now.spots }
        ensures layer { IsLayer self.now.inst self.now.spots }
    {
        self.spots.len() as u32
    }

    /// The case at a place of the order, counted from 0.
    pub fn spot(&self, k: u32) -> Spot
        requires { k < length self.now.spots }
        ensures value { slice_get self.now.spots k ≡ Some result }
        ensures layer { IsLayer self.now.inst self.now.spots }
    {
        self.spots[k as usize]
    }

    /// The cases, in order.
    pub fn spots(&self) -> &[Spot]
        ensures value { result.now ≡ self.now.spots }
        ensures layer { IsLayer self.now.inst self.now.spots }
    {
        self.spots.as_slice()
    }
}

// The grid of cases of one way from the corner (0, 0), row by row.
fn grid(alloc: Global, inst: Inst, way: Way) -> Result<Layer, Memory>
    requires lawful { IsLawfulWay inst way }
    requires few { grid_count inst way ≤ 1000 }
    ensures inst { IfOk result (λ a. a.inst ≡ inst) }
    ensures grid { IfOk result (λ a. IsGrid inst way a.spots) }
    ensures layer { IfOk result (λ a. IsLayer a.inst a.spots) }
{
    let across = extent_along(Axis::X, inst, way);
    let along = extent_along(Axis::Y, inst, way);
    let columns = inst.l_side / across;
    let rows = inst.w_side / along;
    let mut spots = Vec::new(alloc);
    for k in 0..columns * rows {
        let spot = Spot {
            x: k % columns * across,
            y: k / columns * along,
            way,
        };
        spots.push(spot)?;
    }
    Ok(Layer { inst, spots })
}

/// The grid of lying cases, or that of standing ones where it has more.
pub fn uniform(alloc: Global, inst: Inst) -> Result<Layer, Memory>
    requires lying { grid_count inst Way.Lying ≤ 1000 }
    requires standing { grid_count inst Way.Standing ≤ 1000 }
    ensures inst { IfOk result (λ a. a.inst ≡ inst) }
    ensures grid { IfOk result (λ a. IsGrid inst (uniform_way inst) a.spots) }
    ensures greatest { IfOk result
        (λ a. length a.spots ≡ max (grid_count inst Way.Lying) (grid_count inst Way.Standing)) }
    ensures layer { IfOk result (λ a. IsLayer a.inst a.spots) }
{
    let lying = inst.l_side / inst.long * (inst.w_side / inst.short);
    let standing = inst.l_side / inst.short * (inst.w_side / inst.long);
    if standing <= lying {
        grid(alloc, inst, Way::Lying)
    } else {
        grid(alloc, inst, Way::Standing)
    }
}
