// The search for a layer of more cases.
ghost use Rattle.std.specs.Prelude.{◌≡◌, ◌≤◌, IfOk, length};
ghost use Rattle.plan_geometry.specs.Layout.{CaseFits};
ghost use Rattle.plan_geometry.specs.Placed.{IsLayer};
ghost use Rattle.weightings.specs.Weighting.{weight_of};
ghost use Rattle.weightings.specs.Lead.{IsLead};
ghost use Rattle.layer_planner.specs.Searched.{IsGrown, HasSearched};

use corner_search::{Walk, exhaust};
use plan_geometry::{Inst, Layer};
use plan_memory::Memory;
use std::alloc::Global;
use weightings::{Marks, Weighting};

/// How many states of a walk are visited at most.
const MOST_STATES: u32 = 500_000;

/// How a search ends: with a layer of as many cases as were hoped for; with marks that show that no layout has more cases
/// than the layer; or with a walk that has too many states.
#[derive(Drop)]
pub enum Searched {
    Reached { layer: Layer },
    Refuted { layer: Layer, tree: Marks },
    Spent { layer: Layer },
}

/// Looks for layers of one case more, time after time, until the layer has `most` cases.
pub fn search(
    alloc: Global,
    inst: Inst,
    lead: &Weighting,
    most: u32,
    start: Layer,
) -> Result<Searched, Memory>
    requires fits { CaseFits inst }
    requires lead { IsLead inst lead.now }
    requires few { most ≤ 1000 }
    requires inst { start.inst ≡ inst }
    requires layer { IsLayer start.inst start.spots }
    requires within { length start.spots ≤ most }
    ensures { IfOk result (λ s. HasSearched inst (weight_of lead.now) (length start.spots) most s) }
{
    let mut layer = start;
    let first = layer.count();
    for count in first..most {
        let walk = exhaust(alloc, inst, lead, count, MOST_STATES)?;
        match walk {
            Walk::Found { layer: better } => layer = better,
            Walk::Refuted { tree } => return Ok(Searched::Refuted { layer, tree }),
            Walk::Spent { .. } => return Ok(Searched::Spent { layer }),
        }
    }
    Ok(Searched::Reached { layer })
}
