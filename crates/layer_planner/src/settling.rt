// The layer of the reduced instance, and the bound that is left.
ghost use Rattle.std.specs.Prelude.{◌≡◌, ◌≤◌, IfOk};
ghost use Rattle.plan_geometry.specs.Layout.{CaseFits, area_bound_of};
ghost use Rattle.partitions.specs.Partitions.{SameSides};
ghost use Rattle.layer_planner.specs.Known.{IsKnown, IsPlaced, IsSettled};

use crate::bounds::{Known, least_known};
use crate::guides::{Limits, guided, start_search};
use crate::search::{Searched, search};
use crate::tables::or_dual;
use layer_patterns::{layer_by_blocks, layer_by_regions};
use line_search::MOST_TURNS;
use plan_geometry::{Inst, Layer};
use plan_memory::Memory;
use std::alloc::Global;
use weightings::{Cert, lead};

/// A layer of the reduced instance, and a bound on the cases of all.
#[derive(Drop)]
pub struct Settled {
    pub layer: Layer,
    pub known: Known,
}

// How far tables are searched and walks are led before L-regions are tried: nearly every order that a table closes is closed
// by then, and most cases that are missing are found.
const FIRST_LIMITS: Limits = Limits {
    turns: 400,
    states: 20_000,
};

// How far they go in the end.
const LAST_LIMITS: Limits = Limits {
    turns: MOST_TURNS,
    states: 500_000,
};

// The layer of the best pattern, or a better one to which a table leads, and the bound so far, or a lesser one that a table
// shows. Each engine runs where the layer has fewer cases than the bound: blocks; a short search of tables on few lines,
// with short walks; L-regions, which take longer; the search of tables to its end, with long walks; the game.
fn place(alloc: Global, given: Inst, reduced: Inst, known: Known) -> Result<Settled, Memory>
    requires same { SameSides given reduced }
    requires fits { CaseFits reduced }
    requires few { known.bound ≤ 1000 }
    requires known { IsKnown given reduced known }
    ensures { IfOk result (λ s. IsPlaced given reduced known.bound s) }
{
    let layer = layer_by_blocks(alloc, reduced, known.bound)?;
    let by_blocks = Settled { layer, known };
    let mut search = start_search(alloc, reduced, &by_blocks)?;
    let first = guided(alloc, given, reduced, &mut search, FIRST_LIMITS, by_blocks)?;
    let layer = layer_by_regions(alloc, reduced, first.known.bound, first.layer)?;
    let by_regions = Settled {
        layer,
        known: first.known,
    };
    let last = guided(alloc, given, reduced, &mut search, LAST_LIMITS, by_regions)?;
    let known = or_dual(alloc, given, reduced, last.known, &last.layer)?;
    Ok(Settled {
        layer: last.layer,
        known,
    })
}

/// The layer of the best pattern, and then of the search, and the least bound: that of the search where it ends, else the
/// least that is known beforehand or that a table shows.
pub fn settle(alloc: Global, given: Inst, reduced: Inst) -> Result<Settled, Memory>
    requires same { SameSides given reduced }
    requires fits { CaseFits reduced }
    requires few { area_bound_of reduced ≤ 10000 }
    requires given_few { area_bound_of given ≤ 1000 }
    ensures { IfOk result (λ s. IsSettled given reduced s) }
{
    let lead = lead(reduced);
    let known = least_known(alloc, given, reduced, &lead)?;
    let placed = place(alloc, given, reduced, known)?;
    let known = placed.known;
    let found = search(alloc, reduced, &lead, known.bound, placed.layer)?;
    match found {
        Searched::Reached { layer } => Ok(Settled { layer, known }),
        Searched::Spent { layer } => Ok(Settled { layer, known }),
        Searched::Refuted { layer, tree } => {
            let bound = layer.count();
            let cert = Cert::Weighted {
                weighting: lead,
                tree,
            };
            let known = Known { bound, cert };
            Ok(Settled { layer, known })
        }
    }
}
