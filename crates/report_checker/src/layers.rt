ghost use Rattle.std.specs.Prelude.{◌≡◌, ◌↔◌, ◌<◌, ◌≤◌, length, IsTrue, IfOk, MatchOption, MatchResult};
ghost use Rattle.layer_symmetry.specs.declared.symmetries.Move.{Move};
ghost use Rattle.plan_entries.specs.Entries.{variant_on, variants_on};
ghost use Rattle.plan_soundness.specs.Sound.{IsListedLayer};
ghost use Rattle.report_checker.specs.Places.{IsFirstWithout, IsFirstDifference};
ghost use Rattle.report_checker.specs.Verdicts.{IsPlacedAs, IsFirstOf};

use layer_symmetry::Move;
use order_reader::Order;
use plan_entries::Listed;
use plan_geometry::{Inst, Layer, Spot};
use plan_memory::Memory;
use std::alloc::Global;

// Whether the two lists are the same.
fn are_same(a: &[Spot], b: &[Spot]) -> bool
    ensures { IsTrue result ↔ (a.now ≡ b.now) }
{
    a == b
}

// The listed layer as a layer; None exactly where it is none of the order with so many cases, in order. A layer is
// sorted when it is made, so the listed cases are in order exactly where they are the same list.
fn layer_of(
    alloc: Global,
    order: &Order,
    count: u32,
    listed: &Listed,
) -> Result<Option<Layer>, Memory>
    ensures { IfOk result (λ found. MatchOption found
        (IsListedLayer order.now count listed.now → ⊥)
        (λ layer. IsPlacedAs order.now count listed.now layer)) }
{
    let spots = listed.spots.as_slice();
    if spots.len() != count as usize {
        return Ok(None);
    }
    let copy = spots.to_vec(alloc)?;
    let Some(layer) = Layer::new(order.inst(), copy) else {
        return Ok(None);
    };
    if are_same(layer.spots(), spots) {
        Ok(Some(layer))
    } else {
        Ok(None)
    }
}

/// The first listed layer, or the number of the first one that is no layer of the order.
pub fn first_layer(
    alloc: Global,
    order: &Order,
    count: u32,
    layers: &[Listed],
) -> Result<Result<Layer, u32>, Memory>
    requires some { 0 < length layers.now }
    requires few { length layers.now ≤ 8 }
    ensures { IfOk result (λ found. MatchResult found
        (λ layer. IsFirstOf order.now count layers.now layer)
        (λ place. IsFirstWithout (IsListedLayer order.now count) layers.now place)) }
{
    let Some(first) = layer_of(alloc, order, count, &layers[0])? else {
        return Ok(Err(1));
    };
    for place in 1..layers.len() {
        let Some(_layer) = layer_of(alloc, order, count, &layers[place])? else {
            return Ok(Err(place as u32 + 1));
        };
    }
    Ok(Ok(first))
}

fn same_move(a: Move, b: Move) -> bool
    ensures { IsTrue result ↔ (a ≡ b) }
{
    a == b
}

fn same_inst(a: Inst, b: Inst) -> bool
    ensures { IsTrue result ↔ (a ≡ b) }
{
    a == b
}

// Whether the variant is the listed layer, as one of this instance.
fn is_variant(given: Inst, listed: &Listed, variant: &(Move, Layer)) -> bool
    ensures { IsTrue result ↔ (variant_on given listed.now ≡ variant.now) }
{
    let (turn, layer) = variant;
    if !same_move(listed.turn, *turn) {
        return false;
    }
    if !same_inst(given, layer.inst()) {
        return false;
    }
    are_same(listed.spots.as_slice(), layer.spots())
}

/// The first place, from 1, at which the listed layers are not these variants.
pub fn first_difference(given: Inst, layers: &[Listed], variants: &[(Move, Layer)]) -> Option<u32>
    requires few { length layers.now ≤ 8 }
    ensures { MatchOption result
        (variants_on given layers.now ≡ variants.now)
        (λ place. IsFirstDifference (variants_on given layers.now) variants.now place) }
{
    let shared = layers.len().min(variants.len());
    for place in 0..shared {
        if !is_variant(given, &layers[place], &variants[place]) {
            return Some(place as u32 + 1);
        }
    }
    if layers.len() == variants.len() {
        None
    } else {
        Some(shared as u32 + 1)
    }
}
