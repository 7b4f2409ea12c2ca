ghost use Rattle.std.specs.Prelude.{◌≡◌, ◌+◌, ◌*◌, ◌<◌, ◌≤◌};
ghost use Rattle.plan_geometry.specs.Layout.{CaseFits};
ghost use Rattle.weightings.specs.Weighting.{IsMember, IsCaseSide, IsLawfulWeighting};
ghost use Rattle.weightings.specs.Family.{IsFirstLeast};
ghost use Rattle.weightings.specs.Lead.{place_of, IsLead, IsBestBefore, ColourBounds};

use crate::kinds::Weighting;
use plan_geometry::{Inst, area_bound};

// The best weighting so far, with its bound.
#[derive(Drop)]
struct Best {
    weighting: Weighting,
    bound: u64,
}

// The area alone, which comes first.
fn start(inst: Inst) -> Best
    requires { CaseFits inst }
    ensures { IsBestBefore inst result.weighting result.bound 1 }
{
    Best {
        weighting: Weighting::Area,
        bound: u64::from(area_bound(inst)),
    }
}

// The better of the best so far and the next of the family.
fn better(inst: Inst, best: Best, next: Weighting) -> Best
    requires fits { CaseFits inst }
    requires member { IsMember inst next }
    requires best { IsBestBefore inst best.weighting best.bound (place_of inst next) }
    ensures { IsBestBefore inst result.weighting result.bound (place_of inst next + 1) }
{
    match next.bound(inst) {
        Some(bound) => {
            if bound < best.bound {
                Best {
                    weighting: next,
                    bound,
                }
            } else {
                best
            }
        }
        None => best,
    }
}

// The best so far, after the colours of one side of the case.
fn best_of_colours(inst: Inst, start: Best, k: u32) -> Best
    requires fits { CaseFits inst }
    requires side { IsCaseSide inst k }
    requires best { IsBestBefore inst start.weighting start.bound (place_of inst (Weighting.Colour k 0)) }
    ensures { IsBestBefore inst result.weighting result.bound (place_of inst (Weighting.Colour k 0) + k) }
{
    let mut best = start;
    for c in 0..k {
        best = better(inst, best, Weighting::Colour { k, c });
    }
    best
}

// The best so far, after the combs of a pair of sides.
fn best_of_combs(inst: Inst, start: Best, p: u32, r: u32) -> Best
    requires fits { CaseFits inst }
    requires columns { IsCaseSide inst p }
    requires rows { IsCaseSide inst r }
    requires best { IsBestBefore inst start.weighting start.bound (place_of inst (Weighting.Comb p 0 r 0)) }
    ensures { IsBestBefore inst result.weighting result.bound (place_of inst (Weighting.Comb p 0 r 0) + p * r) }
{
    let mut best = start;
    for a in 0..p {
        for b in 0..r {
            best = better(inst, best, Weighting::Comb { p, a, r, b });
        }
    }
    best
}

/// The first weighting of the family with the least bound.
pub fn lead(inst: Inst) -> Weighting
    requires { CaseFits inst }
    ensures lawful { IsLawfulWeighting inst result }
    ensures lead { IsLead inst result }
    ensures first { IsFirstLeast inst result }
    ensures colours { ColourBounds inst result }
{
    let long = inst.long;
    let short = inst.short;
    let area = start(inst);
    let lines = best_of_colours(inst, area, long);
    let combs = if short < long {
        let all = best_of_colours(inst, lines, short);
        let a = best_of_combs(inst, all, long, long);
        let b = best_of_combs(inst, a, long, short);
        let c = best_of_combs(inst, b, short, long);
        best_of_combs(inst, c, short, short)
    } else {
        best_of_combs(inst, lines, long, long)
    };
    combs.weighting
}
