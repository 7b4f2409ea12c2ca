// What bounds the layouts of an order before any is looked for.
ghost use Rattle.std.specs.Prelude.{◌≡◌, ◌≤◌, ◌∷◌, [], IfOk, length};
ghost use Rattle.plan_geometry.specs.Layout.{CaseFits, area_bound_of};
ghost use Rattle.partitions.specs.Partitions.{SameSides};
ghost use Rattle.weightings.specs.Lead.{IsLead};
ghost use Rattle.strip_bound.specs.CutLists.{IsStripBoundOf};
ghost use Rattle.layer_planner.specs.Quality.{IsAtMostFamily, IsAtMostStrip};
ghost use Rattle.layer_planner.specs.Known.{IsKnown, IsKeptOrLess};

use block_tables::uniform_of;
use plan_geometry::{Inst, area_bound};
use plan_memory::Memory;
use std::alloc::Global;
use strip_bound::strip;
use weightings::{Cert, Mark, Marks, Weighting};

/// A number of cases that no layout of the order exceeds, and the certificate of it.
#[derive(Drop)]
pub struct Known {
    pub bound: u32,
    pub cert: Cert,
}

/// A bound that a weighting shows with no branch.
pub fn by_weights(alloc: Global, bound: u32, weighting: Weighting) -> Result<Known, Memory>
    ensures { IfOk result (λ k. k ≡ record { bound = bound; cert = Cert.Weighted weighting (Mark.Leaf ∷ []) }) }
{
    let mut tree = Vec::new(alloc);
    tree.push(Mark::Leaf)?;
    let tree = Marks::new(tree);
    Ok(Known {
        bound,
        cert: Cert::Weighted { weighting, tree },
    })
}

// The bound of the lead, which its weights show with no branch.
fn by_lead(alloc: Global, given: Inst, reduced: Inst, lead: &Weighting) -> Result<Known, Memory>
    requires same { SameSides given reduced }
    requires fits { CaseFits reduced }
    requires few { area_bound_of reduced ≤ 10000 }
    requires lead { IsLead reduced lead.now }
    ensures known { IfOk result (λ k. IsKnown given reduced k) }
    ensures family { IfOk result (λ k. IsAtMostFamily reduced k.bound) }
{
    let bound = match lead.bound(reduced) {
        Some(bound) => bound,
        None => unreachable!(),
    };
    let weighting = lead.copied(alloc)?;
    by_weights(alloc, bound as u32, weighting)
}

// The bound so far, or that of the strips where it is less.
fn or_strip(alloc: Global, given: Inst, reduced: Inst, known: Known) -> Result<Known, Memory>
    requires same { SameSides given reduced }
    requires fits { CaseFits reduced }
    requires few { area_bound_of reduced ≤ 10000 }
    requires given_few { area_bound_of given ≤ 1000 }
    requires known { IsKnown given reduced known }
    ensures known { IfOk result (λ k. IsKnown given reduced k) }
    ensures less { IfOk result (λ k. k.bound ≤ known.bound) }
    ensures kept { IfOk result (λ k. IsKeptOrLess known k) }
    ensures strip { IfOk result (λ k. IsAtMostStrip reduced k.bound) }
{
    let strip = strip(alloc, reduced)?;
    let bound = strip.cuts().len() as u32 - 2;
    if known.bound <= bound {
        return Ok(known);
    }
    Ok(Known {
        bound,
        cert: Cert::Strip(strip),
    })
}

// The bound so far, or that of the area of the order's own instance where it is less.
fn or_area(given: Inst, reduced: Inst, known: Known) -> Known
    requires same { SameSides given reduced }
    requires known { IsKnown given reduced known }
    ensures known { IsKnown given reduced result }
    ensures less { result.bound ≤ known.bound }
    ensures kept { IsKeptOrLess known result }
    ensures area { result.bound ≤ area_bound_of given }
{
    let bound = area_bound(given);
    if known.bound <= bound {
        return known;
    }
    Known {
        bound,
        cert: Cert::GivenArea,
    }
}

/// The least of the bounds that are known beforehand: of the lead of the family and of the strips of the reduced
/// instance, and of the area of the order's own; of equal ones the first. The strips are left out where the better grid
/// has as many cases as the lead allows: no bound can be less then.
pub fn least_known(
    alloc: Global,
    given: Inst,
    reduced: Inst,
    lead: &Weighting,
) -> Result<Known, Memory>
    requires same { SameSides given reduced }
    requires fits { CaseFits reduced }
    requires few { area_bound_of reduced ≤ 10000 }
    requires given_few { area_bound_of given ≤ 1000 }
    requires lead { IsLead reduced lead.now }
    ensures known { IfOk result (λ k. IsKnown given reduced k) }
    ensures family { IfOk result (λ k. IsAtMostFamily reduced k.bound) }
    ensures strip { IfOk result (λ k. IsAtMostStrip reduced k.bound) }
    ensures area { IfOk result (λ k. k.bound ≤ area_bound_of given) }
{
    let known = by_lead(alloc, given, reduced, lead)?;
    let grid = uniform_of(reduced, reduced.l_side, reduced.w_side);
    if known.bound <= grid && known.bound <= area_bound(given) {
        return Ok(known);
    }
    let known = or_strip(alloc, given, reduced, known)?;
    Ok(or_area(given, reduced, known))
}
