ghost use Rattle.std.specs.Prelude.{◌≡◌, ◌+◌, ◌*◌, ◌/◌, ◌%◌, ◌<◌, ◌≤◌, length, IfOk};
ghost use Rattle.line_tables.specs.Lines.{crossing, from_end, IsLineTable};
ghost use Rattle.line_tables.specs.Sums.{first_weights, AreSums};

use plan_memory::Memory;
use std::alloc::Global;

// How many of `count` lines stand between the one at `place` and the nearer end.
fn lines_from_end(count: usize, place: usize) -> usize
    requires { place < count }
    ensures { result ≡ from_end count place }
{
    place.min(count - 1 - place)
}

// The weight where the column at `i` crosses the row at `j`.
pub(crate) fn weight_of_crossing(
    columns: &[u32],
    rows: &[u32],
    quarter: &[u32],
    i: usize,
    j: usize,
) -> u32
    requires table { IsLineTable (record { columns = columns.now; rows = rows.now; quarter = quarter.now }) }
    requires column { i < length columns.now }
    requires row { j < length rows.now }
    ensures value { result ≡ crossing (record { columns = columns.now; rows = rows.now; quarter = quarter.now }) i j }
    ensures light { result ≤ 100000 }
{
    let row = lines_from_end(rows.len(), j) * columns.len().div_ceil(2);
    quarter[row + lines_from_end(columns.len(), i)]
}

// The n-th sum, from the weight of one crossing and the sums before.
fn next_sum(columns: &[u32], rows: &[u32], quarter: &[u32], sums: &[u64], n: usize) -> u64
    requires table { IsLineTable (record { columns = columns.now; rows = rows.now; quarter = quarter.now }) }
    requires summed { AreSums (record { columns = columns.now; rows = rows.now; quarter = quarter.now }) n sums.now }
    requires place { n < (length rows.now + 1) * (length columns.now + 1) }
    ensures { result ≡ first_weights (record { columns = columns.now; rows = rows.now; quarter = quarter.now })
        (n % (length columns.now + 1)) (n / (length columns.now + 1)) }
{
    let width = columns.len() + 1;
    let (i, j) = (n % width, n / width);
    if i == 0 || j == 0 {
        return 0;
    }
    let weight = weight_of_crossing(columns, rows, quarter, i - 1, j - 1);
    let row = sums[n - 1] - sums[n - 1 - width];
    sums[n - width] + row + u64::from(weight)
}

// For no row, one row and so on, and in each for no column, one column and so on, the weight of the crossings of the
// first so many columns and rows.
pub(crate) fn sums_of(
    alloc: Global,
    columns: &[u32],
    rows: &[u32],
    quarter: &[u32],
) -> Result<Vec<u64>, Memory>
    requires table { IsLineTable (record { columns = columns.now; rows = rows.now; quarter = quarter.now }) }
    ensures { IfOk result (λ sums. AreSums (record { columns = columns.now; rows = rows.now; quarter = quarter.now })
        ((length rows.now + 1) * (length columns.now + 1)) sums.items) }
{
    let places = (rows.len() + 1) * (columns.len() + 1);
    let mut sums = Vec::with_capacity(alloc, places)?;
    for n in 0..places {
        let sum = next_sum(columns, rows, quarter, sums.as_slice(), n);
        sums.push(sum)?;
    }
    Ok(sums)
}
