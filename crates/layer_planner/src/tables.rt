// What tables of weights bound, once a layer is known.
ghost use Rattle.std.specs.Prelude.{◌≡◌, ℕ, ◌*◌, ◌≤◌, ◌<◌, ◌↔◌, true, IsTrue, IfOk, length};
ghost use Rattle.plan_geometry.specs.Layout.{CaseFits};
ghost use Rattle.plan_geometry.specs.Placed.{IsLayer};
ghost use Rattle.partitions.specs.Partitions.{SameSides};
ghost use Rattle.weightings.specs.Weighting.{weight_of, IsLawfulWeighting, IsWeightBound};
ghost use Rattle.cert_text.specs.declared.forms.Form.TheVariants.{Two};
ghost use Rattle.cert_text.specs.Ranges.{is_weighting};
ghost use Rattle.layer_planner.specs.Quality.{IsTable, IsAtMostDual};
ghost use Rattle.layer_planner.specs.Known.{IsKnown};

use crate::bounds::{Known, by_weights};
use dual_search::{MOST_ROUNDS, dual};
use plan_geometry::{Inst, Layer};
use plan_memory::Memory;
use std::alloc::Global;
use weightings::{Cert, MOST_CELLS, Weighting};

// Whether the pallet has no more cells than a table of all cells.
fn has_few_cells(inst: Inst) -> bool
    ensures { IsTrue result ↔ inst.l_side * inst.w_side ≤ 40000 }
{
    u64::from(inst.l_side) * u64::from(inst.w_side) <= MOST_CELLS
}

// Whether a bound that a table shows takes the place of the one so far: where it is less, or as low and only the area
// shows the one so far.
fn is_better(bound: u64, known: &Known) -> bool
    ensures better { IsTrue result → bound ≤ known.now.bound }
    ensures no_better { (IsTrue result → ⊥) → known.now.bound ≤ bound }
{
    match known.cert {
        Cert::GivenArea => bound <= u64::from(known.bound),
        Cert::Weighted { .. } | Cert::Strip(_) => bound < u64::from(known.bound),
    }
}

/// The bound so far, or that of a table where it is less, which its weights show with no branch; of equal ones the first,
/// unless only the area shows it.
pub fn or_table(
    alloc: Global,
    given: Inst,
    reduced: Inst,
    known: Known,
    table: Weighting,
) -> Result<Known, Memory>
    requires same { SameSides given reduced }
    requires fits { CaseFits reduced }
    requires known { IsKnown given reduced known }
    requires table { IsTable table }
    requires lawful { IsLawfulWeighting reduced table }
    requires text { is_weighting Two table ≡ true }
    ensures known { IfOk result (λ k. IsKnown given reduced k) }
    ensures less { IfOk result (λ k. k.bound ≤ known.bound) }
    ensures value { IfOk result (λ k. (n : ℕ) → IsWeightBound reduced (weight_of table) n → k.bound ≤ n) }
{
    let Some(bound) = table.bound(reduced) else {
        return Ok(known);
    };
    if !is_better(bound, &known) {
        return Ok(known);
    }
    by_weights(alloc, bound as u32, table)
}

/// The bound so far, or a lesser one of the best table of the game of best answers. It is played where the layer has fewer
/// cases than the bound, on a pallet of at most 40,000 cells.
pub fn or_dual(
    alloc: Global,
    given: Inst,
    reduced: Inst,
    known: Known,
    layer: &Layer,
) -> Result<Known, Memory>
    requires same { SameSides given reduced }
    requires fits { CaseFits reduced }
    requires known { IsKnown given reduced known }
    requires inst { layer.now.inst ≡ reduced }
    requires layer { IsLayer layer.now.inst layer.now.spots }
    ensures known { IfOk result (λ k. IsKnown given reduced k) }
    ensures less { IfOk result (λ k. k.bound ≤ known.bound) }
    ensures dual { IfOk result (λ k. IsAtMostDual reduced k.bound) }
{
    let count = layer.count();
    if known.bound <= count || !has_few_cells(reduced) {
        return Ok(known);
    }
    let Some(table) = dual(alloc, reduced, MOST_ROUNDS)? else {
        return Ok(known);
    };
    prove!(table.x_side() == reduced.l_side);
    or_table(alloc, given, reduced, known, Weighting::Table(table))
}
