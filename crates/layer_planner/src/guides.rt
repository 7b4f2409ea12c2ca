// Tables of weights on few lines, which bound the layouts and guide walks to layers of more cases.
ghost use Rattle.std.specs.Prelude.{◌≡◌, ◌≤◌, IfOk, IfSome, length};
ghost use Rattle.plan_geometry.specs.Layout.{CaseFits};
ghost use Rattle.plan_geometry.specs.Placed.{IsLayer};
ghost use Rattle.partitions.specs.Partitions.{SameSides};
ghost use Rattle.layer_planner.specs.Known.{IsKnown, IsFound, IsNoWorse};

use crate::bounds::Known;
use crate::settling::Settled;
use crate::tables::or_table;
use line_climb::climb;
use line_search::LineSearch;
use plan_geometry::{Inst, Layer};
use plan_memory::Memory;
use std::alloc::Global;
use weightings::Weighting;

/// How far a search of tables goes on, and how far the walks that its tables guide.
#[derive(Clone, Copy)]
pub struct Limits {
    /// The most turns of the search, counted from its start.
    pub turns: u32,
    /// The most states of each walk.
    pub states: u32,
}

/// The search of tables toward the number of the layer's cases, where the layer has fewer cases than the bound and the
/// instance has few lines.
pub fn start_search(
    alloc: Global,
    reduced: Inst,
    settled: &Settled,
) -> Result<Option<LineSearch>, Memory>
    requires fits { CaseFits reduced }
    ensures { IfOk result (λ search. IfSome search (λ s. s.inst ≡ reduced)) }
{
    let count = settled.layer.count();
    if count >= settled.known.bound {
        return Ok(None);
    }
    LineSearch::start(alloc, reduced, count)
}

// The bound so far, or that of the best table of the search where it is less.
fn or_best(
    alloc: Global,
    given: Inst,
    reduced: Inst,
    known: Known,
    search: &LineSearch,
) -> Result<Known, Memory>
    requires same { SameSides given reduced }
    requires fits { CaseFits reduced }
    requires inst { search.now.inst ≡ reduced }
    requires known { IsKnown given reduced known }
    ensures known { IfOk result (λ k. IsKnown given reduced k) }
    ensures less { IfOk result (λ k. k.bound ≤ known.bound) }
{
    let Some(best) = search.best() else {
        return Ok(known);
    };
    let table = best.table.copied(alloc)?;
    prove!(table.columns().len() <= 4000);
    prove!(table.rows().len() <= 4000);
    or_table(alloc, given, reduced, known, Weighting::Lines(table))
}

// The layer so far, or one of more cases to which walks lead that the lightest table of the search guides.
fn climbed(
    alloc: Global,
    search: &LineSearch,
    layer: Layer,
    most: u32,
    states: u32,
) -> Result<Layer, Memory>
    requires layer { IsLayer layer.inst layer.spots }
    requires inst { layer.inst ≡ search.now.inst }
    requires fits { CaseFits layer.inst }
    requires few { most ≤ 1000 }
    ensures inst { IfOk result (λ a. a.inst ≡ layer.inst) }
    ensures layer { IfOk result (λ a. IsLayer a.inst a.spots) }
    ensures grown { IfOk result (λ a. length layer.spots ≤ length a.spots) }
{
    match search.lightest() {
        Some(table) => climb(alloc, table, layer, most, states),
        None => Ok(layer),
    }
}

/// The layer and the bound so far, or better ones: the bound of the best table of the search, which goes on to its limit,
/// and the layer to which its lightest table guides the walks. Nothing is done where the layer has as many cases as the
/// bound.
pub fn guided(
    alloc: Global,
    given: Inst,
    reduced: Inst,
    search: &mut Option<LineSearch>,
    limits: Limits,
    settled: Settled,
) -> Result<Settled, Memory>
    requires same { SameSides given reduced }
    requires fits { CaseFits reduced }
    requires search { IfSome search.old (λ s. s.inst ≡ reduced) }
    requires few { settled.known.bound ≤ 1000 }
    requires placed { IsFound given reduced settled }
    ensures search { IfOk result (λ _. IfSome search.new (λ s. s.inst ≡ reduced)) }
    ensures found { IfOk result (λ s. IsFound given reduced s) }
    ensures better { IfOk result (λ s. IsNoWorse settled s) }
{
    let count = settled.layer.count();
    let Some(search) = search else {
        return Ok(settled);
    };
    if count >= settled.known.bound {
        return Ok(settled);
    }
    search.run(alloc, count, settled.known.bound, limits.turns)?;
    let known = or_best(alloc, given, reduced, settled.known, search)?;
    let layer = climbed(alloc, search, settled.layer, known.bound, limits.states)?;
    Ok(Settled { layer, known })
}
