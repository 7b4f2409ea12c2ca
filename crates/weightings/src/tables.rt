ghost use Rattle.std.specs.Prelude.{All, ◌≡◌, ◌+◌, ◌-◌, ◌*◌, ◌<◌, ◌≤◌, ◌↔◌, length, IsTrue, IsSome, IfSome, IfOk};
ghost use Rattle.plan_geometry.specs.Weight.{block_weight};
ghost use Rattle.weightings.specs.Table.{cell_of, IsTable, IsCellTable};
ghost use Rattle.weightings.specs.Sums.{sum_at, AreSums, IsLeastBlock};

use plan_memory::Memory;
use std::alloc::Global;
use std::marker::Model;

/// The most cells that a table has.
pub const MOST_CELLS: u64 = 40_000;

/// The greatest weight in a table.
pub const MOST_WEIGHT: u32 = 100_000;

/// A weight for each cell of a pallet, kept as the sum of all cells up to and with it in both directions.
#[derive(Debug, Drop)]
pub struct WeightTable {
    x_side: u32,
    y_side: u32,
    sums: Vec<u32>,
}

impl Model for WeightTable {
    ghost use Rattle.weightings.specs.Table.{CellTable};
    ghost use Rattle.weightings.specs.Sums.{cells_from, HoldSums};

    ghost Value = { CellTable };

    ghost view = { λ a. record { x_side = a.x_side; y_side = a.y_side; cells = cells_from a.x_side a.y_side a.sums.items } };

    ghost invariant = { λ a. HoldSums a.x_side a.y_side a.sums.items };
}

// Whether these are the sides and the weights of a table.
fn is_table(x: u32, y: u32, cells: &[u32]) -> bool
    ensures { IsTrue result ↔ IsTable x y cells.now }
{
    1 <= x
        && 1 <= y
        && u64::from(x) * u64::from(y) <= MOST_CELLS
        && cells.len() as u64 == u64::from(x) * u64::from(y)
        && are_light(cells)
}

// Whether no weight is above the greatest that a table has.
fn are_light(cells: &[u32]) -> bool
    ensures { IsTrue result ↔ All (λ weight. weight ≤ 100000) cells.now }
{
    cells.iter().all(|weight| *weight <= MOST_WEIGHT)
}

// The sum of the x by y cells from the corner (0, 0) on.
fn sum_before(x_side: usize, sums: &[u32], x: usize, y: usize) -> u32
    requires width { x ≤ x_side }
    requires kept { 0 < x → 0 < y → (y - 1) * x_side + (x - 1) < length sums.now }
    requires small { length sums.now ≤ 40000 }
    ensures { result ≡ sum_at x_side sums.now x y }
{
    if x == 0 || y == 0 {
        0
    } else {
        sums[(y - 1) * x_side + (x - 1)]
    }
}

// Puts in place of each weight the sum of all cells up to and with it in both directions.
fn sum_up(x_side: usize, y_side: usize, cells: &mut [u32])
    requires { IsTable x_side y_side cells.old }
    ensures { AreSums x_side y_side cells.old cells.new }
{
    for n in 0..cells.len() {
        let x = n % x_side;
        let y = n / x_side;
        let row = sum_before(x_side, cells, x, y + 1) - sum_before(x_side, cells, x, y);
        let below = sum_before(x_side, cells, x + 1, y);
        cells[n] += row + below;
    }
}

impl WeightTable {
    /// The table of these weights, by y, then x. None exactly where a side is 0, there are more than 40,000 cells,
    /// there are not as many weights as cells, or a weight is above 100,000.
    pub fn new(x: u32, y: u32, mut cells: Vec<u32>) -> Option<WeightTable>
        ensures accepted { IsSome result ↔ IsTable x y cells.items }
        ensures value { IfSome result (λ t. t ≡ record { x_side = x; y_side = y; cells = cells.items }) }
    {
        if !is_table(x, y, cells.as_slice()) {
            return None;
        }
        sum_up(x as usize, y as usize, cells.as_mut_slice());
        Some(WeightTable {
            x_side: x,
            y_side: y,
            sums: cells,
        })
    }

    /// How many cells a row has.
    pub fn x_side(&self) -> u32
        ensures value { result ≡ self.now.x_side }
        ensures table { IsCellTable self.now }
    {
        self.x_side
    }

    /// How many rows there are.
    pub fn y_side(&self) -> u32
        ensures value { result ≡ self.now.y_side }
        ensures table { IsCellTable self.now }
    {
        self.y_side
    }

    /// A copy.
    pub fn copied(&self, alloc: Global) -> Result<WeightTable, Memory>
        ensures { IfOk result (λ t. t ≡ self.now) }
    {
        let sums = Vec::from_slice(alloc, self.sums.as_slice())?;
        Ok(WeightTable {
            x_side: self.x_side,
            y_side: self.y_side,
            sums,
        })
    }

    // The weight of the x by y cells from the corner (0, 0) on.
    pub(crate) fn weight_before(&self, x: u32, y: u32) -> u32
        requires across { x ≤ self.now.x_side }
        requires along { y ≤ self.now.y_side }
        ensures value { result ≡ block_weight (cell_of self.now) 0 0 x y }
        ensures small { result ≤ 4000000000 }
    {
        sum_before(
            self.x_side as usize,
            self.sums.as_slice(),
            x as usize,
            y as usize,
        )
    }

    /// The weight of all cells of a block, a along x and b along y, whose first cell is (x, y), in four reads.
    pub fn weight_from(&self, x: u32, y: u32, a: u32, b: u32) -> u32
        requires across { x + a ≤ self.now.x_side }
        requires along { y + b ≤ self.now.y_side }
        ensures value { result ≡ block_weight (cell_of self.now) x y a b }
    {
        prove!(a <= self.x_side && b <= self.y_side);
        let right = self.weight_before(x + a, y + b) - self.weight_before(x, y + b);
        let under = self.weight_before(x + a, y) - self.weight_before(x, y);
        right - under
    }

    /// The weight of the cell (x, y).
    pub fn cell(&self, x: u32, y: u32) -> u32
        requires across { x < self.now.x_side }
        requires along { y < self.now.y_side }
        ensures value { result ≡ cell_of self.now x y }
    {
        self.weight_from(x, y, 1, 1)
    }

    // The least weight of an a by b block in the b rows from y on.
    fn least_in_rows(&self, y: u32, a: u32, b: u32) -> u32
        requires across { a ≤ self.now.x_side }
        requires along { y + b ≤ self.now.y_side }
        ensures { IsLeastBlock (cell_of self.now) a b (λ u v. (u + a ≤ self.now.x_side) × (v ≡ y)) result }
    {
        let mut least = self.weight_from(0, y, a, b);
        for x in 1..self.x_side - a + 1 {
            least = least.min(self.weight_from(x, y, a, b));
        }
        least
    }

    // The least weight of an a by b block of the table.
    pub(crate) fn least_block(&self, a: u32, b: u32) -> u32
        requires across { a ≤ self.now.x_side }
        requires along { b ≤ self.now.y_side }
        ensures { IsLeastBlock (cell_of self.now) a b
            (λ u v. (u + a ≤ self.now.x_side) × (v + b ≤ self.now.y_side)) result }
    {
        let mut least = self.least_in_rows(0, a, b);
        for y in 1..self.y_side - b + 1 {
            least = least.min(self.least_in_rows(y, a, b));
        }
        least
    }
}
