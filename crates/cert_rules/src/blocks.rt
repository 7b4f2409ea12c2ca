ghost use Rattle.std.specs.Prelude.{◌≡◌, ◌+◌, ◌*◌, ◌<◌, ◌≤◌};
ghost use Rattle.plan_geometry.specs.Weight.{sum_below, block_weight};
ghost use Rattle.weightings.specs.Line.{count_from};
ghost use Rattle.weightings.specs.Table.{cell_of};
ghost use Rattle.weightings.specs.Weighting.{weight_of, IsLawfulWeighting};

use plan_geometry::Inst;
use weightings::Weighting;

// How many of the n numbers from x on leave a when divided by p.
fn count(x: u32, n: u32, p: u32, a: u32) -> u64
    requires { a < p }
    ensures value { result ≡ count_from x n p a }
    ensures small { result ≤ n }
{
    let p = u64::from(p);
    let lift = p - 1 - u64::from(a);
    (u64::from(x) + u64::from(n) + lift) / p - (u64::from(x) + lift) / p
}

// The weight of a block under a colour, column by column.
fn colour_block(k: u32, c: u32, x: u32, y: u32, a: u32, b: u32) -> u64
    requires colour { c < k }
    requires across { x + a ≤ 4000 }
    requires along { y + b ≤ 4000 }
    ensures { result ≡ block_weight (weight_of (Weighting.Colour k c)) x y a b }
{
    let mut sum: u64 = 0;
    for i in 0..a {
        sum += count(x + i + y, b, k, c);
    }
    sum
}

/// The weight of the block of cells from (x, y), a wide and b high.
pub fn block(inst: Inst, weighting: &Weighting, x: u32, y: u32, a: u32, b: u32) -> u64
    requires lawful { IsLawfulWeighting inst weighting.now }
    requires across { x + a ≤ inst.l_side }
    requires along { y + b ≤ inst.w_side }
    ensures { result ≡ block_weight (weight_of weighting.now) x y a b }
{
    match *weighting {
        Weighting::Area => u64::from(a) * u64::from(b),
        Weighting::Colour { k, c } => colour_block(k, c, x, y, a, b),
        Weighting::Comb {
            p,
            a: column,
            r,
            b: row,
        } => count(x, a, p, column) * count(y, b, r, row),
        Weighting::Table(ref table) => u64::from(table.weight_from(x, y, a, b)),
        Weighting::Lines(ref table) => table.weight_from(x, y, a, b),
    }
}
