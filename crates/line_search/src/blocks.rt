ghost use Rattle.std.specs.Prelude.{◌≡◌, ◌+◌, ◌*◌, ◌<◌, ◌≤◌, length};
ghost use Rattle.line_tables.specs.Lines.{half};
ghost use Rattle.line_search.specs.Blocks.{IsRange, AreRanges};

// Grids that are the same from both ends along both axes. Of each a quarter is kept, row by row: the first half of
// the rows, and of each the first half of the columns; of an odd number the half has the middle too. The sums below
// stay under 2^56 (the numbers that are summed are at most 2^37, and there are at most 2^18 of them, each from two
// ways), so none wraps.

// Places in a row, from the first on, before the end.
#[derive(Clone, Copy)]
pub(crate) struct Range {
    pub(crate) from: usize,
    pub(crate) to: usize,
}

// Which of two numbers is looked for.
#[derive(Clone, Copy)]
pub(crate) enum Extreme {
    Least,
    Greatest,
}

// The better of two numbers.
fn better(extreme: Extreme, a: u64, b: u64) -> u64 {
    match extreme {
        Extreme::Least => a.min(b),
        Extreme::Greatest => a.max(b),
    }
}

// The number than which each other is better.
fn worst(extreme: Extreme) -> u64 {
    match extreme {
        Extreme::Least => u64::MAX,
        Extreme::Greatest => 0,
    }
}

// How many of `count` places stand between this one and the nearer end.
pub(crate) fn folded(count: usize, place: usize) -> usize
    requires { place < count }
    ensures { result < half count }
{
    place.min(count - 1 - place)
}

// Puts into `here` the sums of two rows.
fn add_row(before: &[u64], row: &[u64], here: &mut [u64])
    requires before { length before.now ≡ length here.old }
    requires row { length row.now ≡ length here.old }
{
    for x in 0..here.len() {
        here[x] = before[x].wrapping_add(row[x]);
    }
}

// Puts into `sums` a row of sums for no row of the grid, the first row, the first two and so on up to all; of each row
// the kept columns.
fn sum_rows(cells: &[u64], width: usize, rows: usize, sums: &mut [u64])
    requires cells { length cells.now ≡ half rows * width }
    requires sums { length sums.old ≡ (rows + 1) * width }
{
    sums[..width].fill(0);
    for y in 0..rows {
        let kept = folded(rows, y);
        let (before, here) = sums.split_at_mut((y + 1) * width);
        add_row(
            &before[y * width..],
            &cells[kept * width..(kept + 1) * width],
            &mut here[..width],
        );
    }
}

// Puts into `strip` the sums of the first columns, none, one and so on up to all, of what the rows between two rows of
// sums add up to.
fn sum_columns(low: &[u64], high: &[u64], columns: usize, strip: &mut [u64])
    requires low { length low.now ≡ half columns }
    requires high { length high.now ≡ half columns }
    requires strip { columns < length strip.old }
{
    let mut sum: u64 = 0;
    strip[0] = 0;
    for x in 0..columns {
        let kept = folded(columns, x);
        sum = sum.wrapping_add(high[kept].wrapping_sub(low[kept]));
        strip[x + 1] = sum;
    }
}

// Does so with the rows of a range, by the sums of rows of a whole grid.
fn sum_range(scratch: &[u64], columns: usize, rows: usize, range: Range, strip: &mut [u64])
    requires few { rows ≤ 4000 }
    requires scratch { length scratch.now ≡ (rows + 1) * half columns }
    requires range { IsRange rows range }
    requires strip { columns < length strip.old }
{
    let kept = columns.div_ceil(2);
    let low = &scratch[range.from * kept..(range.from + 1) * kept];
    let high = &scratch[range.to * kept..(range.to + 1) * kept];
    sum_columns(low, high, columns, strip);
}

// Adds to each number what the columns of its range add up to.
fn add_ranges(strip: &[u64], columns: usize, across: &[Range], sums: &mut [u64])
    requires strip { columns < length strip.now }
    requires across { AreRanges columns across.now }
    requires sums { length sums.old ≤ length across.now }
{
    for x in 0..sums.len() {
        let Range { from, to } = across[x];
        sums[x] = sums[x].wrapping_add(strip[to].wrapping_sub(strip[from]));
    }
}

// Adds to the kept quarter of a grid the sums of the blocks of another: each entry has a range of that one's columns
// and one of its rows.
pub(crate) fn add_blocks(
    cells: &[u64],
    columns: usize,
    rows: usize,
    across: &[Range],
    down: &[Range],
    scratch: &mut [u64],
    strip: &mut [u64],
    sums: &mut [u64],
)
    requires few { rows ≤ 4000 }
    requires cells { length cells.now ≡ half rows * half columns }
    requires across { AreRanges columns across.now }
    requires down { AreRanges rows down.now }
    requires scratch { length scratch.old ≡ (rows + 1) * half columns }
    requires strip { columns < length strip.old }
    requires sums { length sums.old ≡ half (length down.now) * half (length across.now) }
{
    let kept = columns.div_ceil(2);
    let width = across.len().div_ceil(2);
    sum_rows(cells, kept, rows, scratch);
    for y in 0..down.len().div_ceil(2) {
        sum_range(scratch, columns, rows, down[y], strip);
        add_ranges(
            strip,
            columns,
            across,
            &mut sums[y * width..(y + 1) * width],
        );
    }
}

// Puts into each entry of `best` the better of it and the row's.
fn better_row(extreme: Extreme, row: &[u64], best: &mut [u64])
    requires { length row.now ≡ length best.old }
{
    for x in 0..best.len() {
        best[x] = better(extreme, best[x], row[x]);
    }
}

// Puts into `best` the best of a range of rows, column by column.
fn best_of_rows(extreme: Extreme, cells: &[u64], rows: usize, range: Range, best: &mut [u64])
    requires cells { length cells.now ≡ half rows * length best.old }
    requires range { range.to ≤ rows }
{
    let width = best.len();
    best.fill(worst(extreme));
    for y in range.from..range.to {
        let kept = folded(rows, y);
        better_row(extreme, &cells[kept * width..(kept + 1) * width], best);
    }
}

// Puts into `strip` all columns of a row of which the first half is given.
fn unfold(row: &[u64], columns: usize, strip: &mut [u64])
    requires row { length row.now ≡ half columns }
    requires strip { columns ≤ length strip.old }
{
    for x in 0..columns {
        strip[x] = row[folded(columns, x)];
    }
}

// The best of some numbers.
fn best_of(extreme: Extreme, numbers: &[u64]) -> u64 {
    let mut best = worst(extreme);
    for number in numbers {
        best = better(extreme, best, *number);
    }
    best
}

// Puts into each number the better of it and the best of the columns of its range.
fn better_ranges(
    extreme: Extreme,
    strip: &[u64],
    columns: usize,
    across: &[Range],
    best: &mut [u64],
)
    requires strip { columns ≤ length strip.now }
    requires across { AreRanges columns across.now }
    requires best { length best.old ≤ length across.now }
{
    for x in 0..best.len() {
        let Range { from, to } = across[x];
        best[x] = better(extreme, best[x], best_of(extreme, &strip[from..to]));
    }
}

// Puts into each entry of the kept quarter of a grid the better of it and the best entry of its block of another grid.
pub(crate) fn better_blocks(
    extreme: Extreme,
    cells: &[u64],
    columns: usize,
    rows: usize,
    across: &[Range],
    down: &[Range],
    row: &mut [u64],
    strip: &mut [u64],
    best: &mut [u64],
)
    requires cells { length cells.now ≡ half rows * half columns }
    requires across { AreRanges columns across.now }
    requires down { AreRanges rows down.now }
    requires row { half columns ≤ length row.old }
    requires strip { columns ≤ length strip.old }
    requires best { length best.old ≡ half (length down.now) * half (length across.now) }
{
    let kept = columns.div_ceil(2);
    let width = across.len().div_ceil(2);
    for y in 0..down.len().div_ceil(2) {
        let row = &mut row[..kept];
        best_of_rows(extreme, cells, rows, down[y], row);
        unfold(row, columns, strip);
        better_ranges(
            extreme,
            strip,
            columns,
            across,
            &mut best[y * width..(y + 1) * width],
        );
    }
}

// The sum of a whole row of which the first half is given. No sum is cut off: each stays under 2^56.
fn total_of_row(row: &[u64], columns: usize) -> u64
    requires { length row.now ≡ half columns }
{
    let mut sum: u64 = 0;
    for x in 0..columns {
        sum = sum.saturating_add(row[folded(columns, x)]);
    }
    sum
}

// The sum of a whole grid, likewise.
pub(crate) fn total_of(cells: &[u64], columns: usize, rows: usize) -> u64
    requires { length cells.now ≡ half rows * half columns }
{
    let kept = columns.div_ceil(2);
    let mut sum: u64 = 0;
    for y in 0..rows {
        let y = folded(rows, y);
        let row = &cells[y * kept..(y + 1) * kept];
        sum = sum.saturating_add(total_of_row(row, columns));
    }
    sum
}
