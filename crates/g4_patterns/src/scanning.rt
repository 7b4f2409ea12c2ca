ghost use Rattle.std.specs.Prelude.{◌≡◌, ◌⊎◌, ◌+◌, ◌≤◌, ◌<◌, length, slice_index};
ghost use Rattle.block_tables.specs.declared.patterns.Pattern.TheVariants as pattern;
ghost use Rattle.block_tables.specs.Tables.{IsJob, IsDue, HasPlace, IsRising};
ghost use Rattle.block_tables.specs.Built.{IsSolved};
ghost use Rattle.g4_patterns.specs.Scan.{first_at, second_at, Reached, CoversY, CoversX2, CoversX1, IsTop};

use block_tables::{Best, Job, Split, Table, look_from, row_of, uniform_of};
use plan_geometry::Inst;

/// The greatest of the first terms so far, and the place of its y cut.
#[derive(Clone, Copy, PartialEq, Eq, Debug)]
pub struct Top {
    pub value: u32,
    pub at: usize,
}

// The better of the greatest first term so far and the k-th.
fn better_top(top: Top, k: usize, value: u32) -> Top
    ensures up { top.value ≤ result.value }
    ensures covers { value ≤ result.value }
    ensures which { (result ≡ top) ⊎ ((result.value ≡ value) × (result.at ≡ k)) }
{
    if value > top.value {
        Top { value, at: k }
    } else {
        top
    }
}

// The better of `best` and one cut: at the j-th first y cut and the k-th second.
fn try_cut(q: Job<'_>, x1: u32, x2: u32, j: usize, k: usize, value: u32, best: Best) -> Best
    requires x1_has { HasPlace q.xs.now x1 }
    requires x2_has { HasPlace q.xs.now x2 }
    requires x_order { x1 ≤ x2 }
    requires y_order { j ≤ k }
    requires k_in { k < length q.ys.now }
    requires rise { IsRising q.ys.now }
    requires value { value ≡ first_at q x1 x2 j + second_at q x1 x2 k }
    requires reached { Reached q best }
    ensures above { best.value ≤ result.value }
    ensures covers { value ≤ result.value }
    ensures reached { Reached q.entry result }
{
    if value > best.value {
        Best {
            value,
            split: Some(Split {
                x1,
                x2,
                y1: q.ys[j],
                y2: q.ys[k],
            }),
        }
    } else {
        best
    }
}

// The better of `best` and the cuts with these x cuts: at each second y cut only the first y cut counts
// whose term is the greatest up to there.
fn scan_y(q: Job<'_>, x1: u32, x2: u32, best: Best) -> Best
    requires job { IsJob q }
    requires x1_has { HasPlace q.xs.now x1 }
    requires x2_has { HasPlace q.xs.now x2 }
    requires x_order { x1 ≤ x2 }
    requires x2_in { x2 ≤ q.a }
    requires reached { Reached q best }
    ensures above { best.value ≤ result.value }
    ensures covers { CoversY q.entry x1 x2 (length q.entry.ys.now) result.value }
    ensures reached { Reached q.entry result }
{
    let mut best = best;
    let low_left = row_of(q.table, x2);
    let low_right = row_of(q.table, q.a - x2);
    let high_left = row_of(q.table, x1);
    let high_right = row_of(q.table, q.a - x1);
    let mut top = Top { value: 0, at: 0 };
    for k in 0..q.ys.len() {
        let y = q.ys[k];
        let rest = q.b - y;
        let first = look_from(q.table, x2, low_left, y) + look_from(q.table, x1, high_left, rest);
        let second = look_from(q.table, q.a - x2, low_right, y)
            + look_from(q.table, q.a - x1, high_right, rest);
        top = better_top(top, k, first);
        best = try_cut(q, x1, x2, top.at, k, top.value + second, best);
    }
    best
}

// The better of `best` and the cuts with the i-th first x cut, or one of at least `bound`.
fn scan_x2(q: Job<'_>, i: usize, bound: u32, best: Best) -> Best
    requires job { IsJob q }
    requires i_in { i < length q.xs.now }
    requires reached { Reached q best }
    ensures above { best.value ≤ result.value }
    ensures covers { (bound ≤ result.value)
        ⊎ CoversX2 q.entry (slice_index q.entry.xs.now i) (length q.entry.xs.now) result.value }
    ensures reached { Reached q.entry result }
{
    let mut best = best;
    let x1 = q.xs[i];
    for m in i..q.xs.len() {
        if best.value < bound {
            best = scan_y(q, x1, q.xs[m], best);
        }
    }
    best
}

// The better of `best` and all cuts of the block, or one of at least `bound`.
fn scan_x1(q: Job<'_>, bound: u32, best: Best) -> Best
    requires job { IsJob q }
    requires reached { Reached q best }
    ensures above { best.value ≤ result.value }
    ensures covers { (bound ≤ result.value) ⊎ CoversX1 q.entry (length q.entry.xs.now) result.value }
    ensures reached { Reached q.entry result }
{
    let mut best = best;
    for i in 0..q.xs.len() {
        if best.value < bound {
            best = scan_x2(q, i, bound, best);
        }
    }
    best
}

/// The greatest number of the block that comes next. The scan stops where a number reaches the cells of the
/// block divided by those of a case, since none is greater.
pub fn solve_block(
    inst: Inst,
    t: &Table,
    xs: &[u32],
    ys: &[u32],
    r: usize,
    c: usize,
    rx: &[u32],
    ry: &[u32],
) -> Best
    requires { IsDue inst pattern.Four xs.now ys.now t.now r c rx.now ry.now }
    ensures { IsSolved inst pattern.Four t.now (slice_index xs.now r) (slice_index ys.now c) result }
{
    let a = xs[r];
    let b = ys[c];
    let q = Job {
        inst,
        table: t,
        a,
        b,
        xs: rx,
        ys: ry,
    };
    let start = Best {
        value: uniform_of(inst, a, b),
        split: None,
    };
    scan_x1(q, a * b / (inst.long * inst.short), start)
}
