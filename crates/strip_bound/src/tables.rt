ghost use Rattle.std.specs.Prelude.{◌≡◌, ℕ, ◌+◌, ◌-◌, ◌<◌, ◌≤◌, IfOk, MatchOption, length, slice_index_or};
ghost use Rattle.plan_geometry.specs.Layout.{CaseFits, IsBounded, area_bound_of};
ghost use Rattle.weightings.specs.declared.certs.StripCut.TheVariants.{Area};
ghost use Rattle.strip_cuts.specs.Cuts.{AcceptsStrip};
ghost use Rattle.strip_bound.specs.CutLists.{IsStripBoundOf, IsStripOf};
ghost use Rattle.strip_bound.specs.Firsts.{AreTrue, MeetsAll, IsFirst, IsReached, IsStripBound, IsTable};

use crate::lists::cuts_of;
use plan_geometry::Inst;
use plan_memory::Memory;
use std::alloc::Global;
use strip_cuts::meets_cut;
use weightings::{StripCert, StripCut};

// The first of the cuts that the pair does not meet.
fn first_cut(inst: Inst, cuts: &[StripCut], h: u32, v: u32) -> Option<StripCut>
    requires lying { h ≤ 10001 }
    requires standing { v ≤ 10001 }
    requires are_true { AreTrue inst cuts.now }
    ensures { MatchOption result (MeetsAll inst cuts.now h v) (λ c. IsFirst inst cuts.now h v c) }
{
    for k in 0..cuts.len() {
        let cut = cuts[k];
        if !meets_cut(inst, cut, h, v) {
            return Some(cut);
        }
    }
    None
}

// The least number of cases from n on that no pair with h lying ones of one more reaches, where some pair of n cases
// meets all cuts and no pair above the area bound does.
fn raised(inst: Inst, cuts: &[StripCut], h: u32, n: u32) -> u32
    requires are_true { AreTrue inst cuts.now }
    requires area { (g v : ℕ) → MeetsAll inst cuts.now g v → g + v ≤ area_bound_of inst }
    requires few { area_bound_of inst ≤ 10000 }
    requires within { h ≤ n + 1 }
    requires reached { IsReached inst cuts.now n }
    ensures reached { IsReached inst cuts.now result }
    ensures more { n ≤ result }
    ensures few { result ≤ area_bound_of inst }
    ensures most { MeetsAll inst cuts.now h (result + 1 - h) → ⊥ }
{
    for m in n..10001 {
        match first_cut(inst, cuts, h, m + 1 - h) {
            Some(_) => return m,
            None => {}
        }
    }
    unreachable!()
}

// The greatest sum of a pair that meets all of a list of true cuts, where no pair above the area bound does.
fn greatest_sum(inst: Inst, cuts: &[StripCut]) -> u32
    requires are_true { AreTrue inst cuts.now }
    requires area { (g v : ℕ) → MeetsAll inst cuts.now g v → g + v ≤ area_bound_of inst }
    requires few { area_bound_of inst ≤ 10000 }
    ensures bound { IsStripBound inst cuts.now result }
    ensures few { result ≤ area_bound_of inst }
{
    let mut n = 0;
    for h in 0..10002 {
        if h <= n + 1 {
            n = raised(inst, cuts, h, n);
        }
    }
    n
}

// The first cuts that exclude the pairs of one case more than the strip bound of a list of true cuts.
fn table(alloc: Global, inst: Inst, cuts: &[StripCut], n: u32) -> Result<Vec<StripCut>, Memory>
    requires few { n ≤ 10000 }
    requires are_true { AreTrue inst cuts.now }
    requires bound { IsStripBound inst cuts.now n }
    ensures { IfOk result (λ t. IsTable inst cuts.now n t.items) }
{
    let mut found = Vec::new(alloc);
    for h in 0..n + 2 {
        match first_cut(inst, cuts, h, n + 1 - h) {
            Some(cut) => found.push(cut)?,
            None => unreachable!(),
        }
    }
    Ok(found)
}

/// The certificate of the strip bound of the instance, which is two less than the number of its cuts: each place has
/// the first cut, in the order of the cuts, that excludes its pair. The bound is the greatest sum of a pair of numbers
/// of lying and standing cases that meets every cut; no layout has more cases, and it is at most the area bound.
pub fn strip(alloc: Global, inst: Inst) -> Result<StripCert, Memory>
    requires fits { CaseFits inst }
    requires few { area_bound_of inst ≤ 10000 }
    ensures certificate { IfOk result (λ s. IsStripOf inst s) }
    ensures accepted { IfOk result (λ s. AcceptsStrip inst (length s - 2) s) }
    ensures bounds { IfOk result (λ s. IsBounded inst (length s - 2)) }
    ensures greatest { IfOk result (λ s. IsStripBoundOf inst (length s - 2)) }
    ensures few { IfOk result (λ s. length s ≤ area_bound_of inst + 2) }
    ensures some { IfOk result (λ s. 2 ≤ length s) }
{
    let cuts = cuts_of(alloc, inst)?;
    let kept = cuts.as_slice();
    let n = greatest_sum(inst, kept);
    let found = table(alloc, inst, kept, n)?;
    Ok(StripCert::new(found))
}
