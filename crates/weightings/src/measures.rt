ghost use Rattle.std.specs.Prelude.{◌≡◌, ◌+◌, ◌-◌, ◌<◌, ◌≤◌, ◌↔◌, min, IsTrue, IfOk, IfSome, IfNone};
ghost use Rattle.plan_geometry.specs.Layout.{IsBounded, CaseFits, CaseFitsSo};
ghost use Rattle.plan_geometry.specs.Weight.{total_weight};
ghost use Rattle.weightings.specs.Weighting.{weight_of, HasCell, IsLawfulWeighting, IsLeastWeight, IsLeastOfWay, IsWeightBound};

use crate::kinds::Weighting;
use crate::lines::{count, least_in_line};
use crate::tables::WeightTable;
use plan_geometry::{Axis, Inst, Way, extent_along, weight_bound};
use plan_memory::Memory;
use std::alloc::Global;

// How many cells of an r by s block have x + y = t.
fn diagonal(r: u32, s: u32, t: u32) -> u64
    requires { t < 8000 }
    ensures value { result ≡ min r (t + 1) - (t + 1 - s) }
    ensures small { result ≤ r }
{
    u64::from(r.min(t + 1).saturating_sub((t + 1).saturating_sub(s)))
}

// The weight of a colour over the pallet: whole rounds of each column, those of each row of what is left, and the
// corner that is left then.
fn colour_total(inst: Inst, k: u32, c: u32) -> u64
    requires colour { c < k }
    requires few { k ≤ 4000 }
    ensures value { result ≡ total_weight (weight_of (Weighting.Colour k c)) inst }
    ensures small { result ≤ 16000000 }
{
    let r = inst.l_side % k;
    let s = inst.w_side % k;
    let rounds = u64::from(inst.l_side * (inst.w_side / k)) + u64::from(s * (inst.l_side / k));
    rounds + diagonal(s, r, c) + diagonal(s, r, c + k)
}

// The least weight of a case of this way, under a comb.
fn comb_least(inst: Inst, way: Way, p: u32, a: u32, r: u32, b: u32) -> u64
    requires columns { a < p }
    requires rows { b < r }
    requires fits { CaseFitsSo inst way }
    ensures { IsLeastOfWay inst (weight_of (Weighting.Comb p a r b)) way result }
{
    let across = extent_along(Axis::X, inst, way);
    let along = extent_along(Axis::Y, inst, way);
    least_in_line(inst.l_side, across, p, a) * least_in_line(inst.w_side, along, r, b)
}

// The least weight of a case of this way, under a table.
fn table_least(inst: Inst, way: Way, table: &WeightTable) -> u64
    requires member { IsLawfulWeighting inst (Weighting.Table table.now) }
    requires fits { CaseFitsSo inst way }
    ensures { IsLeastOfWay inst (weight_of (Weighting.Table table.now)) way result }
{
    let across = extent_along(Axis::X, inst, way);
    let along = extent_along(Axis::Y, inst, way);
    u64::from(table.least_block(across, along))
}

impl Weighting {
    /// A copy.
    pub fn copied(&self, alloc: Global) -> Result<Weighting, Memory>
        ensures { IfOk result (λ w. w ≡ self.now) }
    {
        match *self {
            Weighting::Area => Ok(Weighting::Area),
            Weighting::Colour { k, c } => Ok(Weighting::Colour { k, c }),
            Weighting::Comb { p, a, r, b } => Ok(Weighting::Comb { p, a, r, b }),
            Weighting::Table(ref table) => {
                let table = table.copied(alloc)?;
                Ok(Weighting::Table(table))
            }
            Weighting::Lines(ref table) => {
                let table = table.copied(alloc)?;
                Ok(Weighting::Lines(table))
            }
        }
    }

    /// Whether the weighting is in the family of the instance, or is a table that has the pallet's sides, or one whose
    /// lines the pallet has.
    pub fn belongs(&self, inst: Inst) -> bool
        ensures { IsTrue result ↔ IsLawfulWeighting inst self.now }
    {
        match *self {
            Weighting::Area => true,
            Weighting::Colour { k, c } => (k == inst.long || k == inst.short) && c < k,
            Weighting::Comb { p, a, r, b } => {
                (p == inst.long || p == inst.short)
                    && a < p
                    && (r == inst.long || r == inst.short)
                    && b < r
            }
            Weighting::Table(ref table) => {
                table.x_side() == inst.l_side && table.y_side() == inst.w_side
            }
            Weighting::Lines(ref table) => table.belongs(inst),
        }
    }

    /// What the cell (x, y) weighs.
    pub fn cell(&self, x: u32, y: u32) -> u64
        requires { HasCell self.now x y }
        ensures { result ≡ weight_of self.now x y }
    {
        match *self {
            Weighting::Area => 1,
            Weighting::Colour { k, c } => {
                if (u64::from(x) + u64::from(y)) % u64::from(k) == u64::from(c) {
                    1
                } else {
                    0
                }
            }
            Weighting::Comb { p, a, r, b } => { if x % p == a && y % r == b { 1 } else { 0 } }
            Weighting::Table(ref table) => u64::from(table.cell(x, y)),
            Weighting::Lines(ref table) => table.cell(x, y),
        }
    }

    /// The weight of all cells of the pallet together.
    pub fn total(&self, inst: Inst) -> u64
        requires { IsLawfulWeighting inst self.now }
        ensures value { result ≡ total_weight (weight_of self.now) inst }
        ensures small { result ≤ 16000000000 }
    {
        match *self {
            Weighting::Area => u64::from(inst.l_side) * u64::from(inst.w_side),
            Weighting::Colour { k, c } => colour_total(inst, k, c),
            Weighting::Comb { p, a, r, b } => {
                count(0, inst.l_side, p, a) * count(0, inst.w_side, r, b)
            }
            Weighting::Table(ref table) => u64::from(table.weight_before(inst.l_side, inst.w_side)),
            Weighting::Lines(ref table) => table.total(),
        }
    }

    // The least weight of a case of this way inside the pallet.
    fn least_of_way(&self, inst: Inst, way: Way) -> u64
        requires member { IsLawfulWeighting inst self.now }
        requires fits { CaseFitsSo inst way }
        ensures { IsLeastOfWay inst (weight_of self.now) way result }
    {
        match *self {
            Weighting::Area => u64::from(inst.long) * u64::from(inst.short),
            Weighting::Colour { k, .. } => u64::from(inst.long + inst.short - k),
            Weighting::Comb { p, a, r, b } => comb_least(inst, way, p, a, r, b),
            Weighting::Table(ref table) => table_least(inst, way, table),
            Weighting::Lines(ref table) => table.least_of_way(inst, way),
        }
    }

    /// The least weight of a case inside the pallet, over the lawful ways in which it fits.
    pub fn least(&self, inst: Inst) -> u64
        requires member { IsLawfulWeighting inst self.now }
        requires fits { CaseFits inst }
        ensures { IsLeastWeight inst (weight_of self.now) result }
    {
        let lying = inst.long <= inst.l_side && inst.short <= inst.w_side;
        let standing = inst.short < inst.long
            && inst.short <= inst.l_side
            && inst.long <= inst.w_side;
        if lying && standing {
            let one = self.least_of_way(inst, Way::Lying);
            let other = self.least_of_way(inst, Way::Standing);
            if one <= other { one } else { other }
        } else if lying {
            self.least_of_way(inst, Way::Lying)
        } else {
            self.least_of_way(inst, Way::Standing)
        }
    }

    /// The total divided by the least weight: no layout has more cases. None exactly where a case may weigh
    /// nothing. It is not cut off at 32 bits: the total of a table on lines may be 16,000,000,000.
    pub fn bound(&self, inst: Inst) -> Option<u64>
        requires member { IsLawfulWeighting inst self.now }
        requires fits { CaseFits inst }
        ensures none { IfNone result (IsLeastWeight inst (weight_of self.now) 0) }
        ensures value { IfSome result (λ n. IsWeightBound inst (weight_of self.now) n) }
        ensures small { IfSome result (λ n. n ≤ 16000000000) }
        ensures bounds { IfSome result (λ n. IsBounded inst n) }
    {
        let least = self.least(inst);
        if least == 0 {
            None
        } else {
            Some(weight_bound(self.total(inst), least))
        }
    }
}
