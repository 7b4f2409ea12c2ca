ghost use Rattle.std.specs.Prelude.{◌≡◌, ◌⊎◌, ◌+◌, ◌-◌, ◌*◌, ◌≤◌, ◌<◌, length, slice_index};
ghost use Rattle.block_tables.specs.declared.patterns.Pattern.TheVariants as pattern;
ghost use Rattle.block_tables.specs.Tables.{IsJob, IsDue, HasPlace, first_term, second_term, sum_at};
ghost use Rattle.block_tables.specs.Built.{IsSolved};
ghost use Rattle.five_block.specs.Scan.{AreSecondTerms, Reached, CoversY2, CoversY1, CoversX2, CoversX1};

use block_tables::{Best, Job, Split, Table, look_at, look_from, row_of, uniform_of};
use plan_geometry::Inst;

// The better of `best` and one cut: `outer` is what its four outer parts hold, and `row` where the centre's
// row begins.
fn try_cut(
    q: Job<'_>,
    x1: u32,
    x2: u32,
    y1: u32,
    y2: u32,
    outer: u32,
    row: usize,
    best: Best,
) -> Best
    requires job { IsJob q }
    requires x1_has { HasPlace q.xs.now x1 }
    requires x2_has { HasPlace q.xs.now x2 }
    requires y1_has { HasPlace q.ys.now y1 }
    requires y2_has { HasPlace q.ys.now y2 }
    requires x_order { x1 ≤ x2 }
    requires y_order { y1 ≤ y2 }
    requires x2_in { x2 ≤ q.a }
    requires y2_in { y2 ≤ q.b }
    requires outer { outer ≡ first_term q x1 x2 y1 + second_term q x1 x2 y2 }
    requires outer_small { outer ≤ 64000000 }
    requires row { row ≡ slice_index q.table.now.x_places.items (x2 - x1) * q.table.now.y_count }
    requires reached { Reached q best }
    ensures above { best.value ≤ result.value }
    ensures covers { sum_at pattern.Five q.entry x1 x2 y1 y2 ≤ result.value }
    ensures reached { Reached q.entry result }
{
    let value = outer + look_from(q.table, x2 - x1, row, y2 - y1);
    if value > best.value {
        Best {
            value,
            split: Some(Split { x1, x2, y1, y2 }),
        }
    } else {
        best
    }
}

// The better of `best` and the cuts with these x cuts and the j-th first y cut.
fn scan_y2(q: Job<'_>, x1: u32, x2: u32, j: usize, second: &[u32], best: Best) -> Best
    requires job { IsJob q }
    requires x1_has { HasPlace q.xs.now x1 }
    requires x2_has { HasPlace q.xs.now x2 }
    requires j_in { j < length q.ys.now }
    requires x_order { x1 ≤ x2 }
    requires x2_in { x2 ≤ q.a }
    requires second { AreSecondTerms q x1 x2 second.now }
    requires reached { Reached q best }
    ensures above { best.value ≤ result.value }
    ensures covers { CoversY2 q.entry x1 x2 (slice_index q.entry.ys.now j) (length q.entry.ys.now) result.value }
    ensures reached { Reached q.entry result }
{
    let mut best = best;
    let y1 = q.ys[j];
    let first = look_at(q.table, x2, y1) + look_at(q.table, x1, q.b - y1);
    let row = row_of(q.table, x2 - x1);
    for k in j..q.ys.len() {
        best = try_cut(q, x1, x2, y1, q.ys[k], first + second[k], row, best);
    }
    best
}

// The better of `best` and the cuts with these x cuts.
fn scan_y1(q: Job<'_>, x1: u32, x2: u32, second: &[u32], best: Best) -> Best
    requires job { IsJob q }
    requires x1_has { HasPlace q.xs.now x1 }
    requires x2_has { HasPlace q.xs.now x2 }
    requires x_order { x1 ≤ x2 }
    requires x2_in { x2 ≤ q.a }
    requires second { AreSecondTerms q x1 x2 second.now }
    requires reached { Reached q best }
    ensures above { best.value ≤ result.value }
    ensures covers { CoversY1 q.entry x1 x2 (length q.entry.ys.now) result.value }
    ensures reached { Reached q.entry result }
{
    let mut best = best;
    for j in 0..q.ys.len() {
        best = scan_y2(q, x1, x2, j, second, best);
    }
    best
}

// Writes what the two parts at each second y cut hold.
fn second_terms(q: Job<'_>, x1: u32, x2: u32, second: &mut [u32])
    requires job { IsJob q }
    requires x_order { x1 ≤ x2 }
    requires x2_in { x2 ≤ q.a }
    requires room { length second.now ≡ length q.ys.now }
    ensures { AreSecondTerms q.entry x1 x2 second.new }
{
    for k in 0..q.ys.len() {
        let y2 = q.ys[k];
        second[k] = look_at(q.table, q.a - x2, y2) + look_at(q.table, q.a - x1, q.b - y2);
    }
}

// The better of `best` and the cuts with the i-th first x cut, or one of at least `bound`.
fn scan_x2(q: Job<'_>, i: usize, second: &mut [u32], bound: u32, best: Best) -> Best
    requires job { IsJob q }
    requires i_in { i < length q.xs.now }
    requires room { length second.now ≡ length q.ys.now }
    requires reached { Reached q best }
    ensures room { length second.new ≡ length q.entry.ys.now }
    ensures above { best.value ≤ result.value }
    ensures covers { (bound ≤ result.value)
        ⊎ CoversX2 q.entry (slice_index q.entry.xs.now i) (length q.entry.xs.now) result.value }
    ensures reached { Reached q.entry result }
{
    let mut best = best;
    let x1 = q.xs[i];
    for m in i..q.xs.len() {
        if best.value < bound {
            let x2 = q.xs[m];
            second_terms(q, x1, x2, second);
            best = scan_y1(q, x1, x2, second, best);
        }
    }
    best
}

// The better of `best` and all cuts of the block, or one of at least `bound`.
fn scan_x1(q: Job<'_>, second: &mut [u32], bound: u32, best: Best) -> Best
    requires job { IsJob q }
    requires room { length second.now ≡ length q.ys.now }
    requires reached { Reached q best }
    ensures above { best.value ≤ result.value }
    ensures covers { (bound ≤ result.value) ⊎ CoversX1 q.entry (length q.entry.xs.now) result.value }
    ensures reached { Reached q.entry result }
{
    let mut best = best;
    for i in 0..q.xs.len() {
        if best.value < bound {
            best = scan_x2(q, i, second, bound, best);
        }
    }
    best
}

/// The greatest number of the block that comes next. The scan stops where a number reaches the cells of the
/// block divided by those of a case, since none is greater.
pub fn solve_block(
    inst: Inst,
    t: &Table,
    xs: &[u32],
    ys: &[u32],
    r: usize,
    c: usize,
    rx: &[u32],
    ry: &[u32],
    second: &mut [u32],
) -> Best
    requires due { IsDue inst pattern.Five xs.now ys.now t.now r c rx.now ry.now }
    requires room { length second.now ≡ length ry.now }
    ensures { IsSolved inst pattern.Five t.now (slice_index xs.now r) (slice_index ys.now c) result }
{
    let a = xs[r];
    let b = ys[c];
    let q = Job {
        inst,
        table: t,
        a,
        b,
        xs: rx,
        ys: ry,
    };
    let start = Best {
        value: uniform_of(inst, a, b),
        split: None,
    };
    scan_x1(q, second, a * b / (inst.long * inst.short), start)
}
