ghost use Rattle.std.specs.Prelude.{◌≡◌, ◌≤◌, length, IfOk};
ghost use Rattle.plan_geometry.specs.Layout.{IsInside, IsLayout};
ghost use Rattle.plan_geometry.specs.Placed.{IsLayer};
ghost use Rattle.layer_symmetry.specs.Moves.{IsLawfulMove, mirror_x, mirror_y, turned_way, exchanged, image_spot, IsImage};

use crate::symmetries::Move;
use plan_geometry::{Axis, Inst, Layer, Spot, Way, extent_along};
use plan_memory::Memory;
use std::alloc::Global;

fn mirrored_x(inst: Inst, s: Spot) -> Spot
    requires { IsInside inst s }
    ensures { result ≡ mirror_x inst s }
{
    Spot {
        x: inst.l_side - (s.x + extent_along(Axis::X, inst, s.way)),
        y: s.y,
        way: s.way,
    }
}

fn mirrored_y(inst: Inst, s: Spot) -> Spot
    requires { IsInside inst s }
    ensures { result ≡ mirror_y inst s }
{
    Spot {
        x: s.x,
        y: inst.w_side - (s.y + extent_along(Axis::Y, inst, s.way)),
        way: s.way,
    }
}

// The other way of a case. One of equal sides stays lying.
fn other_way(inst: Inst, way: Way) -> Way
    ensures { result ≡ turned_way inst way }
{
    match way {
        Way::Lying if inst.short < inst.long => Way::Standing,
        Way::Lying | Way::Standing => Way::Lying,
    }
}

// The case with x and y exchanged.
fn exchange(inst: Inst, s: Spot) -> Spot
    ensures { result ≡ exchanged inst s }
{
    Spot {
        x: s.y,
        y: s.x,
        way: other_way(inst, s.way),
    }
}

// Where a move brings a case.
fn image_of(inst: Inst, way: Move, s: Spot) -> Spot
    requires lawful { IsLawfulMove inst way }
    requires inside { IsInside inst s }
    ensures { result ≡ image_spot inst way s }
{
    match way {
        Move::Same => s,
        Move::MirrorX => mirrored_x(inst, s),
        Move::MirrorY => mirrored_y(inst, s),
        Move::HalfTurn => mirrored_x(inst, mirrored_y(inst, s)),
        Move::Diagonal => exchange(inst, s),
        Move::Anti => mirrored_x(inst, mirrored_y(inst, exchange(inst, s))),
        Move::Left => mirrored_x(inst, exchange(inst, s)),
        Move::Right => mirrored_y(inst, exchange(inst, s)),
    }
}

/// The image of a layer under a lawful move: a layer of as many cases.
pub fn turned(alloc: Global, layer: &Layer, way: Move) -> Result<Layer, Memory>
    requires lawful { IsLawfulMove layer.now.inst way }
    ensures inst { IfOk result (λ a. a.inst ≡ layer.now.inst) }
    ensures image { IfOk result (λ a. IsImage layer.now.inst way layer.now.spots a.spots) }
    ensures layer { IfOk result (λ a. IsLayer a.inst a.spots) }
    ensures count { IfOk result (λ a. length a.spots ≡ length layer.now.spots) }
{
    let inst = layer.inst();
    let mut spots = Vec::new(alloc);
    for s in layer.spots() {
        if spots.push(image_of(inst, way, *s)).is_err() {
            return Err(Memory);
        }
    }
    match Layer::new(inst, spots) {
        Some(image) => Ok(image),
        None => unreachable!(),
    }
}
