// What a plan lists of a layer.
ghost use Rattle.std.specs.Prelude.{◌≡◌, ◌≤◌, ◌↔◌, IfOk, IfSome, List, length, map};
ghost use Rattle.plan_geometry.specs.declared.spots.Spot.{Spot};
ghost use Rattle.plan_geometry.specs.Layout.{IsLayout};
ghost use Rattle.partitions.specs.Partitions.{SameSides};
ghost use Rattle.order_reader.specs.Instances.{IsGivenOf, IsLayerFor};
ghost use Rattle.order_reader.specs.Orders.{gap_of};
ghost use Rattle.stack_builder.specs.Orders.{rules_of};
ghost use Rattle.interlocking_layers.specs.Forms.{IsInterlockingLayer};
ghost use Rattle.layer_planner.specs.Listing.{listed, IsListing};

use interlocking_layers::interlocking_layer;
use layer_symmetry::{Move, variants};
use layout_map::map_layer;
use order_reader::Order;
use plan_entries::{Layers, Listed, Spots};
use plan_geometry::{Inst, Layer};
use plan_memory::Memory;
use stack_builder::{StackAnswer, layers_allowed, order_rules, stack};
use std::alloc::Global;

/// The layers that a plan lists, how many layers are allowed, and the stack.
#[derive(Drop)]
pub struct Listing {
    pub layers: Layers,
    pub allowed: u32,
    pub stack: StackAnswer,
}

// The variants as they are listed, in order.
fn listed_of(alloc: Global, images: &[(Move, Layer)]) -> Result<Vec<Listed>, Memory>
    ensures { IfOk result (λ v. v.items ≡ map listed images.now) }
{
    let mut layers = Vec::new(alloc);
    for image in images {
        let spots = image.1.spots().to_vec(alloc)?;
        layers.push(Listed {
            turn: image.0,
            spots: Spots::new(spots),
        })?;
    }
    Ok(layers)
}

// The variants of a layer on the order's own pallet, and the stack of them.
fn listing_of(alloc: Global, order: &Order, given: Inst, layer: &Layer) -> Result<Listing, Memory>
    requires given { IsGivenOf order.now given }
    requires layers { (spots : List Spot) → IsLayerFor order.now spots ↔ IsLayout given spots }
    requires on_given { layer.now.inst ≡ given }
    requires some { 1 ≤ length layer.now.spots }
    requires few { length layer.now.spots ≤ 1000 }
    ensures { IfOk result (λ l. IsListing order.now given (length layer.now.spots) l) }
{
    let images = variants(alloc, layer)?;
    let all = images.as_slice();
    let count = layer.count();
    let allowed = layers_allowed(order, count);
    let stack = stack(alloc, order, all, allowed)?;
    let list = listed_of(alloc, all)?;
    let layers = Layers::new(list);
    Ok(Listing {
        layers,
        allowed,
        stack,
    })
}

// Another layer of as many cases, one of whose forms goes upon it under the order's rules, where the listed forms have no
// stack of the two or more layers that are allowed. None also where none was found within the limits of the search.
fn interlocking_instead(
    alloc: Global,
    order: &Order,
    given: Inst,
    listing: &Listing,
    count: u32,
) -> Result<Option<Layer>, Memory>
    requires given { IsGivenOf order.now given }
    requires some { 1 ≤ count }
    requires few { count ≤ 1000 }
    ensures { IfOk result (λ r. IfSome r
        (λ a. IsInterlockingLayer given (gap_of order.now) (rules_of order.now) count a)) }
{
    match &listing.stack {
        StackAnswer::Unmet(_) if listing.allowed >= 2 => {
            let rules = order_rules(alloc, order)?;
            interlocking_layer(alloc, given, order.gap(), rules.as_slice(), count)
        }
        _ => Ok(None),
    }
}

/// The layer on the order's own pallet and its variants, and the stack of them. Where these have no stack, and another
/// layer of as many cases is found whose forms interlock, that layer in its place.
pub fn list_layer(
    alloc: Global,
    order: &Order,
    given: Inst,
    layer: &Layer,
) -> Result<Listing, Memory>
    requires given { IsGivenOf order.now given }
    requires layers { (spots : List Spot) → IsLayerFor order.now spots ↔ IsLayout given spots }
    requires same { SameSides layer.now.inst given }
    requires some { 1 ≤ length layer.now.spots }
    requires few { length layer.now.spots ≤ 1000 }
    ensures { IfOk result (λ l. IsListing order.now given (length layer.now.spots) l) }
{
    let mapped = map_layer(alloc, layer, given)?;
    let listing = listing_of(alloc, order, given, &mapped)?;
    match interlocking_instead(alloc, order, given, &listing, layer.count())? {
        None => Ok(listing),
        Some(other) => listing_of(alloc, order, given, &other),
    }
}
