ghost use Rattle.std.specs.Prelude.{◌≡◌, ◌+◌, ◌-◌, ◌≤◌, ◌↔◌, length, IsTrue, IfOk, OnErr, IsSome, IfSome, IfNone, All};
ghost use Rattle.plan_geometry.specs.declared.instances.Inst.{Inst};
ghost use Rattle.plan_geometry.specs.Layout.{x_extent, y_extent, IsBounded, IsLawfulWay, CaseFits, CaseFitsSo};
ghost use Rattle.plan_geometry.specs.Weight.{block_weight, total_weight};
ghost use Rattle.line_tables.specs.Lines.{crossing, weight_at, IsLineTable, BelongsTo};
ghost use Rattle.line_tables.specs.Least.{IsLeastOf, IsInsideSo, IsLawfullyInside, IsTotalByLeast};
ghost use Rattle.line_tables.specs.Sums.{first_weights};

use crate::lines::{are_lines, count_below, count_below_from, end_before, place_of};
use crate::sums::{sums_of, weight_of_crossing};
use plan_geometry::{Axis, Inst, Way, extent_along, is_lawful, weight_bound};
use plan_memory::Memory;
use std::alloc::Global;
use std::marker::Model;

/// The most weights that a table lists.
pub const MOST_LISTED: usize = 40_000;

/// The greatest weight in a table.
pub const MOST_WEIGHT: u32 = 100_000;

/// A weight for each cell of a pallet that is 0 but where one of few columns of cells crosses one of few rows, and that
/// is the same from both ends along both axes. It is for any pallet that has all these columns and rows. Beside the
/// weights of a quarter it keeps the sums that tell the weight of any block.
#[derive(Debug, Drop)]
pub struct LineTable {
    columns: Vec<u32>,
    rows: Vec<u32>,
    quarter: Vec<u32>,
    sums: Vec<u64>,
}

impl Model for LineTable {
    ghost use Rattle.line_tables.specs.Lines.{Lines};
    ghost use Rattle.line_tables.specs.Sums.{HoldSums};

    ghost Value = { Lines };

    ghost view = { λ a. record { columns = a.columns.items; rows = a.rows.items; quarter = a.quarter.items } };

    ghost invariant = { λ a. HoldSums
        (record { columns = a.columns.items; rows = a.rows.items; quarter = a.quarter.items }) a.sums.items };
}

// Whether no weight is above the greatest that a table has.
fn are_light(weights: &[u32]) -> bool
    ensures { IsTrue result ↔ All (λ weight. weight ≤ 100000) weights.now }
{
    weights.iter().all(|weight| *weight <= MOST_WEIGHT)
}

// Whether these are the lines and the weights of a table.
fn is_table(columns: &[u32], rows: &[u32], quarter: &[u32]) -> bool
    ensures { IsTrue result
        ↔ IsLineTable (record { columns = columns.now; rows = rows.now; quarter = quarter.now }) }
{
    are_lines(columns)
        && are_lines(rows)
        && quarter.len() == rows.len().div_ceil(2) * columns.len().div_ceil(2)
        && quarter.len() <= MOST_LISTED
        && are_light(quarter)
}

// Whether a case fits on the pallet in this way, and has it.
fn fits_lawfully(inst: Inst, way: Way) -> bool
    ensures { IsTrue result ↔ (CaseFitsSo inst way × IsLawfulWay inst way) }
{
    extent_along(Axis::X, inst, way) <= inst.l_side
        && extent_along(Axis::Y, inst, way) <= inst.w_side
        && is_lawful(inst, way)
}

impl LineTable {
    /// The table of these columns and rows, and of the weights where the first half of the columns crosses the first
    /// half of the rows, row by row; of an odd number the half has the middle too. None exactly where the columns or the
    /// rows do not rise, there are none, or one is 4,000 or above, where there are not as many weights as such
    /// crossings, or more than 40,000, or one above 100,000. Memory is taken for the sums, which are about four times as
    /// many as the weights.
    pub fn new(
        alloc: Global,
        columns: Vec<u32>,
        rows: Vec<u32>,
        quarter: Vec<u32>,
    ) -> Result<Option<LineTable>, Memory>
        ensures accepted { IfOk result (λ made. IsSome made
            ↔ IsLineTable (record { columns = columns.items; rows = rows.items; quarter = quarter.items })) }
        ensures value { IfOk result (λ made. IfSome made
            (λ t. t ≡ record { columns = columns.items; rows = rows.items; quarter = quarter.items })) }
        ensures memory { OnErr result
            (IsLineTable (record { columns = columns.items; rows = rows.items; quarter = quarter.items })) }
    {
        if !is_table(columns.as_slice(), rows.as_slice(), quarter.as_slice()) {
            return Ok(None);
        }
        let sums = sums_of(
            alloc,
            columns.as_slice(),
            rows.as_slice(),
            quarter.as_slice(),
        )?;
        Ok(Some(LineTable {
            columns,
            rows,
            quarter,
            sums,
        }))
    }

    /// A copy.
    pub fn copied(&self, alloc: Global) -> Result<LineTable, Memory>
        ensures { IfOk result (λ t. t ≡ self.now) }
    {
        let columns = Vec::from_slice(alloc, self.columns.as_slice())?;
        let rows = Vec::from_slice(alloc, self.rows.as_slice())?;
        let quarter = Vec::from_slice(alloc, self.quarter.as_slice())?;
        let sums = Vec::from_slice(alloc, self.sums.as_slice())?;
        Ok(LineTable {
            columns,
            rows,
            quarter,
            sums,
        })
    }

    /// The columns, rising.
    pub fn columns(&self) -> &[u32]
        ensures value { result.now ≡ self.now.columns }
        ensures few { length result.now ≤ 4000 }
        ensures table { IsLineTable self.now }
    {
        self.columns.as_slice()
    }

    /// The rows, rising.
    pub fn rows(&self) -> &[u32]
        ensures value { result.now ≡ self.now.rows }
        ensures few { length result.now ≤ 4000 }
        ensures table { IsLineTable self.now }
    {
        self.rows.as_slice()
    }

    /// The weights where the first half of the columns crosses the first half of the rows, row by row.
    pub fn quarter(&self) -> &[u32]
        ensures value { result.now ≡ self.now.quarter }
        ensures table { IsLineTable self.now }
    {
        self.quarter.as_slice()
    }

    /// Whether the pallet has all columns and rows of the table.
    pub fn belongs(&self, inst: Inst) -> bool
        ensures { IsTrue result ↔ BelongsTo self.now inst }
    {
        end_before(self.columns(), inst.l_side) && end_before(self.rows(), inst.w_side)
    }

    /// What the cell (x, y) weighs, on the pallet or beyond it.
    pub fn cell(&self, x: u32, y: u32) -> u64
        ensures value { result ≡ weight_at self.now x y }
        ensures light { result ≤ 100000 }
    {
        let (columns, rows) = (self.columns(), self.rows());
        match (place_of(columns, x), place_of(rows, y)) {
            (Some(i), Some(j)) => {
                u64::from(weight_of_crossing(columns, rows, self.quarter(), i, j))
            }
            _ => 0,
        }
    }

    /// The weight of the crossings of the first i columns and the first j rows, which is kept.
    pub fn first_weight(&self, i: usize, j: usize) -> u64
        requires column { i ≤ length self.now.columns }
        requires row { j ≤ length self.now.rows }
        ensures { result ≡ first_weights self.now i j }
    {
        self.sums[j * (self.columns.len() + 1) + i]
    }

    // The weight of the crossings of the columns from `left` on, before `right`, and the rows from `low` on, before `high`.
    fn crossings_weight(&self, left: usize, right: usize, low: usize, high: usize) -> u64
        requires columns { left ≤ right }
        requires right { right ≤ length self.now.columns }
        requires rows { low ≤ high }
        requires high { high ≤ length self.now.rows }
        ensures { result ≡ block_weight (crossing self.now) left low (right - left) (high - low) }
    {
        let above = self.first_weight(right, high) - self.first_weight(left, high);
        let under = self.first_weight(right, low) - self.first_weight(left, low);
        above - under
    }

    /// The weight of all cells of the pallet together, for each pallet that the table belongs to.
    pub fn total(&self) -> u64
        ensures value { (I : Inst) → BelongsTo self.now I → result ≡ total_weight (weight_at self.now) I }
        ensures small { result ≤ 16000000000 }
    {
        self.first_weight(self.columns().len(), self.rows().len())
    }

    /// The weight of all cells of a block, a along x and b along y, whose first cell is (x, y), on the pallet or beyond
    /// it. Each end is looked up among the lines by halving, and four sums are read.
    pub fn weight_from(&self, x: u32, y: u32, a: u32, b: u32) -> u64
        ensures value { result ≡ block_weight (weight_at self.now) x y a b }
    {
        let (columns, rows) = (self.columns(), self.rows());
        let left = count_below(columns, u64::from(x));
        let right = count_below(columns, u64::from(x) + u64::from(a));
        let low = count_below(rows, u64::from(y));
        let high = count_below(rows, u64::from(y) + u64::from(b));
        self.crossings_weight(left, right, low, high)
    }

    // The least weight of a case of this way that lies on the pallet from the row y on. Of the places along x with the
    // same columns before them the first weighs least: 0, or the place behind a column.
    fn least_from_row(&self, inst: Inst, way: Way, y: u32) -> u64
        requires across { x_extent inst way ≤ inst.l_side }
        requires along { y + y_extent inst way ≤ inst.w_side }
        ensures { IsLeastOf inst (weight_at self.now) (λ s. IsInsideSo inst way s × (s.y ≡ y)) result }
    {
        let across = extent_along(Axis::X, inst, way);
        let along = extent_along(Axis::Y, inst, way);
        let columns = self.columns();
        let rows = self.rows();
        let low = count_below(rows, u64::from(y));
        let high = count_below(rows, u64::from(y + along));
        let mut right = count_below(columns, u64::from(across));
        let mut least = self.crossings_weight(0, right, low, high);
        for (k, column) in columns.iter().enumerate() {
            let end = *column + 1 + across;
            if end <= inst.l_side {
                right = count_below_from(columns, right, u64::from(end));
                least = least.min(self.crossings_weight(k + 1, right, low, high));
            }
        }
        least
    }

    /// The least weight of a case of this way that lies on the pallet. Of the places along y with the same rows before
    /// them the first weighs least: 0, or the place behind a row.
    pub fn least_of_way(&self, inst: Inst, way: Way) -> u64
        requires fits { CaseFitsSo inst way }
        ensures { IsLeastOf inst (weight_at self.now) (IsInsideSo inst way) result }
    {
        let along = extent_along(Axis::Y, inst, way);
        let mut least = self.least_from_row(inst, way, 0);
        for row in self.rows() {
            let y = *row + 1;
            if y + along <= inst.w_side {
                least = least.min(self.least_from_row(inst, way, y));
            }
        }
        least
    }

    /// The least weight of a case that lies on the pallet, over the lawful ways in which it fits.
    pub fn least(&self, inst: Inst) -> u64
        requires fits { CaseFits inst }
        ensures { IsLeastOf inst (weight_at self.now) (IsLawfullyInside inst) result }
    {
        let lying = fits_lawfully(inst, Way::Lying);
        let standing = fits_lawfully(inst, Way::Standing);
        if lying && standing {
            let one = self.least_of_way(inst, Way::Lying);
            one.min(self.least_of_way(inst, Way::Standing))
        } else if lying {
            self.least_of_way(inst, Way::Lying)
        } else {
            self.least_of_way(inst, Way::Standing)
        }
    }

    /// The total divided by the least weight of a case: no layout has more cases. None exactly where a case may weigh
    /// nothing. It is not cut off at 32 bits: where the least weight is 1 the bound is the total, up to 16,000,000,000.
    pub fn bound(&self, inst: Inst) -> Option<u64>
        requires belongs { BelongsTo self.now inst }
        requires fits { CaseFits inst }
        ensures none { IfNone result (IsLeastOf inst (weight_at self.now) (IsLawfullyInside inst) 0) }
        ensures value { IfSome result (λ n. IsTotalByLeast inst (weight_at self.now) n) }
        ensures small { IfSome result (λ n. n ≤ 16000000000) }
        ensures bounds { IfSome result (λ n. IsBounded inst n) }
    {
        let least = self.least(inst);
        if least == 0 {
            None
        } else {
            Some(weight_bound(self.total(), least))
        }
    }
}
