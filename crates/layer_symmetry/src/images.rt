ghost use Rattle.std.specs.Prelude.{◌≡◌, ◌≤◌, ◌↔◌, length, slice_get, Some, IfOk, OnOk, IsTrue, All, Any};
ghost use Rattle.layer_symmetry.specs.Variants.{IsVariants, IsOnlyListOfVariants, IsLayerOf, IsAdded};
ghost use Rattle.layer_symmetry.specs.declared.symmetries.Move.TheVariants.{Same};

use crate::symmetries::{Move, moves};
use crate::turns::turned;
use plan_geometry::{Layer, Spot};
use plan_memory::Memory;
use std::alloc::Global;

// Whether the two lists are the same.
fn are_same(a: &[Spot], b: &[Spot]) -> bool
    ensures { IsTrue result ↔ (a.now ≡ b.now) }
{
    a == b
}

// Whether one of the variants has the cases of this layer.
fn holds(variants: &[(Move, Layer)], layer: &Layer) -> bool
    ensures { IsTrue result ↔ Any (λ v. v.1.spots ≡ layer.now.spots) variants.now }
{
    for v in variants {
        if are_same(v.1.spots(), layer.spots()) {
            return true;
        }
    }
    false
}

// Adds a variant unless one of them has its cases.
fn add_new(variants: &mut Vec<(Move, Layer)>, variant: (Move, Layer)) -> Result<(), Memory>
    ensures { OnOk result (IsAdded variants.old.items variant variants.new.items) }
{
    if holds(variants.as_slice(), &variant.1) {
        return Ok(());
    }
    if variants.push(variant).is_err() {
        return Err(Memory);
    }
    Ok(())
}

/// The images of a layer under the lawful moves in order, each that equals an earlier one left out. The
/// first is the layer itself.
pub fn variants(alloc: Global, layer: &Layer) -> Result<Vec<(Move, Layer)>, Memory>
    ensures variants { IfOk result (λ v. IsVariants layer.now.inst layer.now.spots v.items) }
    ensures only { IfOk result (λ v. IsOnlyListOfVariants layer.now.inst layer.now.spots v.items) }
    ensures layers { IfOk result (λ v. All (IsLayerOf layer.now.inst (length layer.now.spots)) v.items) }
    ensures first { IfOk result (λ v. slice_get v.items 0 ≡ Some (Same, layer.now)) }
    ensures few { IfOk result (λ v. length v.items ≤ 8) }
{
    let lawful = moves(layer.inst());
    let mut found = Vec::new(alloc);
    for way in lawful.as_slice() {
        let image = turned(alloc, layer, *way)?;
        add_new(&mut found, (*way, image))?;
    }
    Ok(found)
}
