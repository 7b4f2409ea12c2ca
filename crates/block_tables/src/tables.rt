ghost use Rattle.std.specs.Prelude.{◌≡◌, ◌*◌, ◌≤◌, ◌<◌, length, slice_index};
ghost use Rattle.block_tree.specs.Trees.{uniform};
ghost use Rattle.block_tables.specs.Tables.{IsTable, look};

use block_tree::grid_cases;
use plan_geometry::{Inst, Way};

/// The cuts of a block into five parts.
#[derive(Clone, Copy, PartialEq, Eq, Debug)]
pub struct Split {
    pub x1: u32,
    pub x2: u32,
    pub y1: u32,
    pub y2: u32,
}

/// A number of a block, and the cuts that reach it: none where it is that of a grid.
#[derive(Clone, Copy, PartialEq, Eq, Debug)]
pub struct Best {
    pub value: u32,
    pub split: Option<Split>,
}

/// The numbers of all blocks whose sides are normal places, by rows of `y_count`; 0 where none is known
/// yet. For each length, `x_places` and `y_places` have the place of the greatest normal place up to it.
#[derive(Debug, Drop)]
pub struct Table {
    pub x_places: Vec<u32>,
    pub y_places: Vec<u32>,
    pub x_count: u32,
    pub y_count: u32,
    pub values: Vec<u32>,
}

/// A block of sides a and b, the rising lists of its cuts, and the table so far.
#[derive(Clone, Copy)]
pub struct Job<'a> {
    pub inst: Inst,
    pub table: &'a Table,
    pub a: u32,
    pub b: u32,
    pub xs: &'a [u32],
    pub ys: &'a [u32],
}

/// The number of the better grid of an a by b block.
pub fn uniform_of(inst: Inst, a: u32, b: u32) -> u32
    requires a_small { a ≤ 4000 }
    requires b_small { b ≤ 4000 }
    ensures value { result ≡ uniform inst a b }
    ensures small { result ≤ 16000000 }
{
    grid_cases(inst, Way::Lying, a, b).max(grid_cases(inst, Way::Standing, a, b))
}

/// Where the row of the length c begins in the table.
pub fn row_of(t: &Table, c: u32) -> usize
    requires table { IsTable t.now }
    requires c_in { c < length t.now.x_places.items }
    ensures { result ≡ slice_index t.now.x_places.items c * t.now.y_count }
{
    t.x_places[c as usize] as usize * t.y_count as usize
}

/// The number of the c by d block, each side rounded down, where the row of c is known.
pub fn look_from(t: &Table, c: u32, row: usize, d: u32) -> u32
    requires table { IsTable t.now }
    requires c_in { c < length t.now.x_places.items }
    requires d_in { d < length t.now.y_places.items }
    requires row { row ≡ slice_index t.now.x_places.items c * t.now.y_count }
    ensures value { result ≡ look t.now c d }
    ensures small { result ≤ 16000000 }
{
    let _c = c;
    let column = t.y_places[d as usize];
    t.values[row + column as usize]
}

/// The number of the c by d block, each side rounded down.
pub fn look_at(t: &Table, c: u32, d: u32) -> u32
    requires table { IsTable t.now }
    requires c_in { c < length t.now.x_places.items }
    requires d_in { d < length t.now.y_places.items }
    ensures value { result ≡ look t.now c d }
    ensures small { result ≤ 16000000 }
{
    look_from(t, c, row_of(t, c), d)
}
