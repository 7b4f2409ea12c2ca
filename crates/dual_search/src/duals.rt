ghost use Rattle.std.specs.Prelude.{◌≡◌, ℕ, ◌+◌, ◌*◌, ◌≤◌, List, [], ◌∷◌, replicate, length, IfOk, IfSome};
ghost use Rattle.plan_geometry.specs.declared.spots.Axis.TheVariants.{X, Y};
ghost use Rattle.plan_geometry.specs.Layout.{CaseFits};
ghost use Rattle.plan_geometry.specs.Weight.{total_weight};
ghost use Rattle.weightings.specs.Table.{IsTable, cell_of};
ghost use Rattle.weightings.specs.Weighting.{IsLeastWeight, IsWeightBound};
ghost use Rattle.dual_search.specs.Positions.{places};
ghost use Rattle.dual_search.specs.Rounds.{Stage, weights_at, IsStart, IsGame};
ghost use Rattle.dual_search.specs.Dual.{IsDual, HoldsTable, IsBestSoFar, IsPlayed};

use crate::positions::{lightest_of_all, positions_of, raise_positions};
use crate::rounds::play;
use plan_geometry::{Inst, Way};
use plan_memory::Memory;
use std::alloc::Global;
use weightings::WeightTable;

/// The most rounds of a game.
pub const MOST_ROUNDS: u32 = 2_000;

// A bound, and the weights of the cells that give it.
#[derive(Drop)]
pub(crate) struct Best {
    pub(crate) bound: u32,
    pub(crate) cells: Vec<u32>,
}

// The best so far, once these weights are looked at, which are those after so many rounds and of which this is the
// least of a case.
fn better(
    alloc: Global,
    inst: Inst,
    best: Option<Best>,
    rounds: u32,
    least: u32,
    weights: &[u32],
) -> Result<Option<Best>, Memory>
    ensures best { IfOk result (λ r. (s : Stage) (older : List Stage)
        → s.weights ≡ weights.now
        → total_weight (weights_at inst s) inst ≡ rounds
        → IsLeastWeight inst (weights_at inst s) least
        → IsBestSoFar inst older best
        → IsBestSoFar inst (s ∷ older) r) }
    ensures cells { IfOk result (λ r. HoldsTable inst best → IsTable inst.l_side inst.w_side weights.now → HoldsTable inst r) }
{
    if least == 0 {
        return Ok(best);
    }
    let bound = rounds / least;
    match best {
        Some(old) => if old.bound <= bound {
            Ok(Some(old))
        } else {
            let cells = Vec::from_slice(alloc, weights)?;
            Ok(Some(Best { bound, cells }))
        },
        None => {
            let cells = Vec::from_slice(alloc, weights)?;
            Ok(Some(Best { bound, cells }))
        }
    }
}

// Plays so many rounds, and answers the best of the stages on the way.
fn play_all(
    alloc: Global,
    inst: Inst,
    rounds: u32,
    covers: &mut [u32],
    weights: &mut [u32],
    lying: &mut [u32],
    standing: &mut [u32],
) -> Result<Option<Best>, Memory>
    requires fits { CaseFits inst }
    requires few { inst.l_side * inst.w_side ≤ 40000 }
    requires limited { rounds ≤ 2000 }
    requires start { IsStart inst (record { covers = covers.old; weights = weights.old }) }
    requires lying { lying.old ≡ replicate (places X inst Way.Lying * places Y inst Way.Lying) 0 }
    requires standing { standing.old ≡ replicate (places X inst Way.Standing * places Y inst Way.Standing) 0 }
    ensures { IfOk result (λ b. IsPlayed inst rounds b) }
{
    let mut found = lightest_of_all(inst, lying, standing);
    let mut best = better(alloc, inst, None, 0, found.weight, weights)?;
    for k in 0..rounds {
        let cell = play(inst, found.spot, covers, weights);
        raise_positions(inst, Way::Lying, cell, lying);
        raise_positions(inst, Way::Standing, cell, standing);
        found = lightest_of_all(inst, lying, standing);
        best = better(alloc, inst, best, k + 1, found.weight, weights)?;
    }
    Ok(best)
}

/// The table of the first weights, after at most so many rounds of a game, that give the least bound; None exactly
/// where none of them gives a bound. At the start no cell is covered and none weighs anything; in each round the first
/// lightest position (lying before standing, then by y, then by x) is covered once more, and then the first cell (by
/// y, then x) of those that are covered most weighs one more. Both players give best answers to what the other did so
/// far, as in the method of Brown 1951 and Robinson 1951.
pub fn dual(alloc: Global, inst: Inst, rounds: u32) -> Result<Option<WeightTable>, Memory>
    requires fits { CaseFits inst }
    requires few { inst.l_side * inst.w_side ≤ 40000 }
    requires limited { rounds ≤ 2000 }
    ensures best { IfOk result (λ answer. IsDual inst rounds answer) }
    ensures sides { IfOk result (λ answer. IfSome answer
        (λ t. (t.x_side ≡ inst.l_side) × (t.y_side ≡ inst.w_side))) }
    ensures bound { IfOk result (λ answer. IfSome answer (λ t. (n : ℕ) × IsWeightBound inst (cell_of t) n)) }
{
    let cells = inst.l_side as usize * inst.w_side as usize;
    let mut covers = vec![in alloc; 0u32; cells]?;
    let mut weights = vec![in alloc; 0u32; cells]?;
    let mut lying = vec![in alloc; 0u32; positions_of(inst, Way::Lying)]?;
    let mut standing = vec![in alloc; 0u32; positions_of(inst, Way::Standing)]?;
    let best = play_all(
        alloc,
        inst,
        rounds,
        covers.as_mut_slice(),
        weights.as_mut_slice(),
        lying.as_mut_slice(),
        standing.as_mut_slice(),
    )?;
    match best {
        Some(best) => Ok(WeightTable::new(inst.l_side, inst.w_side, best.cells)),
        None => Ok(None),
    }
}
