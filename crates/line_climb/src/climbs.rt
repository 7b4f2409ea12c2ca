ghost use Rattle.std.specs.Prelude.{◌≡◌, ◌≤◌, ◌<◌, ◌⊎◌, length, max, IfOk, OnErr, IfSome};
ghost use Rattle.plan_geometry.specs.Layout.{CaseFits};
ghost use Rattle.plan_geometry.specs.Placed.{IsLayer};
ghost use Rattle.plan_geometry.specs.Weight.{WeighsAtLeast};
ghost use Rattle.line_tables.specs.Lines.{weight_at};
ghost use Rattle.line_climb.specs.Climbing.{HasOneMore, IfFound};

use crate::guides::Guide;
use crate::manners::{Aim, LYING_FIRST, STANDING_FIRST};
use crate::walks::{Walked, walk};
use line_tables::LineTable;
use plan_geometry::{Inst, Layer, Spot};
use plan_memory::Memory;
use std::alloc::Global;

// The parts, in 256ths, that a walk may waste on top of its share. The first walks are whole.
const PARTS: [Option<u64>; 3] = [None, Some(64), Some(16)];

// How walks in some manner end: with a layer of one case more, with all states met, or neither.
#[derive(Drop)]
enum Climbed {
    Found(Layer),
    Ended,
    Spent,
}

// What guides a climb on a pallet: the guides on the pallet straight and with its axes exchanged, the weight of the
// table and the least of a case.
#[derive(Drop)]
struct Guides<'a> {
    inst: Inst,
    straight: Guide<'a>,
    exchanged: Guide<'a>,
    total: u64,
    least: u64,
    most_states: u32,
}

// The layer of these cases, if they are a layout, and one more than so many.
fn layer_of_more(inst: Inst, spots: Vec<Spot>, count: u32) -> Option<Layer>
    ensures { IfSome result (HasOneMore inst count) }
{
    match Layer::new(inst, spots) {
        Some(layer) if u64::from(layer.count()) == u64::from(count) + 1 => Some(layer),
        _ => None,
    }
}

impl<'a> Guides<'a> {
    // Looks for a layer of one case more than so many, on the pallet and with its axes exchanged, lying first and standing
    // first. With no part the walks are whole: one that meets all its states ends the climb.
    fn walk_with(&self, alloc: Global, count: u32, part: Option<u64>) -> Result<Climbed, Memory>
        ensures { IfOk result (IfFound (HasOneMore self.now.inst count)) }
    {
        let aim = Aim::of(u64::from(count) + 1, self.least, self.total, part);
        for (guide, steps) in [
            (&self.straight, &LYING_FIRST),
            (&self.straight, &STANDING_FIRST),
            (&self.exchanged, &LYING_FIRST),
            (&self.exchanged, &STANDING_FIRST),
        ] {
            match walk(alloc, guide, &aim, steps, self.most_states)? {
                Walked::Found(spots) => {
                    if let Some(layer) = layer_of_more(self.inst, spots, count) {
                        return Ok(Climbed::Found(layer));
                    }
                }
                Walked::Ended if part.is_none() => return Ok(Climbed::Ended),
                _ => {}
            }
        }
        Ok(Climbed::Spent)
    }

    // A layer of one case more than so many, if walks find one.
    fn more(&self, alloc: Global, count: u32) -> Result<Option<Layer>, Memory>
        ensures { IfOk result (λ found. IfSome found (HasOneMore self.now.inst count)) }
    {
        for part in PARTS {
            match self.walk_with(alloc, count, part)? {
                Climbed::Found(layer) => return Ok(Some(layer)),
                Climbed::Ended => return Ok(None),
                Climbed::Spent => {}
            }
        }
        Ok(None)
    }
}

/// A layer of as many cases or more, up to `most`, which walks find that a table of weights guides. While there are fewer
/// than `most` cases, walks look for one case more, each within `most_states` states. What a walk finds is tested as a
/// layout, so that any table is safe, and nothing is promised of what is found: a table of which the total is little more
/// than the least weight of a case times the cases that are looked for leaves walks few states. Where a case may weigh
/// nothing the layer stays as it is. Memory is taken for the places along both axes and for the states of one walk.
///
/// A walk goes over corner states in preorder: at the leftmost of the lowest columns a case is placed, lying or standing,
/// or the columns up to the next raster place (Scheithauer and Terno 1996) are raised to the next height. It leaves the
/// states above which there is too little weight for the missing cases. Whole walks come first, and one that meets all its
/// states ends the climb; then steady ones, which also leave the states that waste weight early.
pub fn climb(
    alloc: Global,
    table: &LineTable,
    layer: Layer,
    most: u32,
    most_states: u32,
) -> Result<Layer, Memory>
    requires fits { CaseFits layer.inst }
    ensures inst { IfOk result (λ a. a.inst ≡ layer.inst) }
    ensures layer { IfOk result (λ a. IsLayer a.inst a.spots) }
    ensures grown { IfOk result (λ a. length layer.spots ≤ length a.spots) }
    ensures most { IfOk result (λ a. length a.spots ≤ max most (length layer.spots)) }
    ensures kept { IfOk result (λ a. length a.spots ≡ length layer.spots → a ≡ layer) }
    ensures weightless { IfOk result
        (λ a. (a ≡ layer) ⊎ WeighsAtLeast (weight_at table.now) layer.inst 1) }
    ensures memory { OnErr result
        ((length layer.spots < most) × WeighsAtLeast (weight_at table.now) layer.inst 1) }
{
    let inst = layer.inst();
    let least = table.least(inst);
    if least == 0 || most <= layer.count() {
        return Ok(layer);
    }
    let guides = Guides {
        inst,
        straight: Guide::straight(alloc, inst, table)?,
        exchanged: Guide::exchanged(alloc, inst, table)?,
        total: table.total(),
        least,
        most_states,
    };
    let mut best = layer;
    while best.count() < most {
        match guides.more(alloc, best.count())? {
            Some(found) => best = found,
            None => break,
        }
    }
    Ok(best)
}
