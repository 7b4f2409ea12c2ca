ghost use Rattle.std.specs.Prelude.{◌≡◌, ◌+◌, ◌-◌, ◌≤◌, ◌<◌, length, slice_index, IfOk, ℕ};
ghost use Rattle.block_tree.specs.Trees.{uniform, held_count};
ghost use Rattle.block_tables.specs.Numbers.{Greatest};
ghost use Rattle.block_tables.specs.Tables.{HasPlace};
ghost use Rattle.five_block.specs.FirstLevel as spec;
ghost use Rattle.five_block.specs.FirstLevel.{IsFirstBest, IsFirstLevel, IsFirstNumber, rank, rank_of, AreCutLists, IsKnownCut, Improves, Beats};

use crate::first_cuts::first_cuts;
use block_tables::{Split, better_way, five_nodes, uniform_of};
use block_tree::{Block, BlockTree, Node, rectangle};
use plan_geometry::Inst;
use plan_memory::Memory;
use std::alloc::Global;

/// Cuts with their number.
#[derive(Clone, Copy, PartialEq, Eq, Debug)]
pub struct KnownCut {
    pub value: u32,
    pub split: Split,
}

/// The lists of the cuts of the two sides.
#[derive(Clone, Copy)]
pub struct CutLists<'a> {
    pub inst: Inst,
    pub xs: &'a [u32],
    pub ys: &'a [u32],
}

// The better of `best` and one cut, which comes later. `first` is what its two parts at y1 hold.
fn try_cut(
    q: CutLists<'_>,
    x1: u32,
    x2: u32,
    y1: u32,
    y2: u32,
    first: u32,
    best: KnownCut,
) -> KnownCut
    requires sides { AreCutLists q }
    requires x1_has { HasPlace q.xs.now x1 }
    requires x2_has { HasPlace q.xs.now x2 }
    requires y1_has { HasPlace q.ys.now y1 }
    requires y2_has { HasPlace q.ys.now y2 }
    requires x_order { x1 ≤ x2 }
    requires y_order { y1 ≤ y2 }
    requires x_in { x2 ≤ q.inst.l_side }
    requires y_in { y2 ≤ q.inst.w_side }
    requires first { first ≡ uniform q.inst x2 y1 + uniform q.inst x1 (q.inst.w_side - y1) }
    requires first_small { first ≤ 32000000 }
    requires known { IsKnownCut q best }
    requires later { rank_of best.split ≤ rank x1 x2 y1 y2 }
    ensures known { IsKnownCut q.entry result }
    ensures improves { Improves best result }
    ensures beats { Beats q.entry.inst result x1 x2 y1 y2 }
    ensures later { rank_of result.split ≤ rank x1 x2 y1 y2 }
{
    let a = q.inst.l_side;
    let b = q.inst.w_side;
    let value = first
        + uniform_of(q.inst, a - x2, y2)
        + uniform_of(q.inst, a - x1, b - y2)
        + uniform_of(q.inst, x2 - x1, y2 - y1);
    if value > best.value {
        KnownCut {
            value,
            split: Split { x1, x2, y1, y2 },
        }
    } else {
        best
    }
}

// The better of `best` and the cuts with these x cuts and the j-th first y cut.
fn scan_y2(q: CutLists<'_>, x1: u32, x2: u32, j: usize, best: KnownCut) -> KnownCut
    requires sides { AreCutLists q }
    requires x1_has { HasPlace q.xs.now x1 }
    requires x2_has { HasPlace q.xs.now x2 }
    requires j_in { j < length q.ys.now }
    requires x_order { x1 ≤ x2 }
    requires x_in { x2 ≤ q.inst.l_side }
    requires known { IsKnownCut q best }
    requires later { rank_of best.split ≤ rank x1 x2 (slice_index q.ys.now j) 0 }
    ensures known { IsKnownCut q.entry result }
    ensures improves { Improves best result }
    ensures covers { spec.CoversY2 q.entry x1 x2 (slice_index q.entry.ys.now j) (length q.entry.ys.now) result }
    ensures later { rank_of result.split ≤ rank x1 x2 (slice_index q.entry.ys.now j) 4000 }
{
    let mut best = best;
    let y1 = q.ys[j];
    let first = uniform_of(q.inst, x2, y1) + uniform_of(q.inst, x1, q.inst.w_side - y1);
    for k in j..q.ys.len() {
        best = try_cut(q, x1, x2, y1, q.ys[k], first, best);
    }
    best
}

// The better of `best` and the cuts with these x cuts.
fn scan_y1(q: CutLists<'_>, x1: u32, x2: u32, best: KnownCut) -> KnownCut
    requires sides { AreCutLists q }
    requires x1_has { HasPlace q.xs.now x1 }
    requires x2_has { HasPlace q.xs.now x2 }
    requires x_order { x1 ≤ x2 }
    requires x_in { x2 ≤ q.inst.l_side }
    requires known { IsKnownCut q best }
    requires later { rank_of best.split ≤ rank x1 x2 0 0 }
    ensures known { IsKnownCut q.entry result }
    ensures improves { Improves best result }
    ensures covers { spec.CoversY1 q.entry x1 x2 (length q.entry.ys.now) result }
    ensures later { rank_of result.split ≤ rank x1 x2 4000 4000 }
{
    let mut best = best;
    for j in 0..q.ys.len() {
        best = scan_y2(q, x1, x2, j, best);
    }
    best
}

// The better of `best` and the cuts with the i-th first x cut.
fn scan_x2(q: CutLists<'_>, i: usize, best: KnownCut) -> KnownCut
    requires sides { AreCutLists q }
    requires i_in { i < length q.xs.now }
    requires known { IsKnownCut q best }
    requires later { rank_of best.split ≤ rank (slice_index q.xs.now i) 0 0 0 }
    ensures known { IsKnownCut q.entry result }
    ensures improves { Improves best result }
    ensures covers { spec.CoversX2 q.entry (slice_index q.entry.xs.now i) (length q.entry.xs.now) result }
    ensures later { rank_of result.split ≤ rank (slice_index q.entry.xs.now i) 4000 4000 4000 }
{
    let mut best = best;
    let x1 = q.xs[i];
    for m in i..q.xs.len() {
        best = scan_y1(q, x1, q.xs[m], best);
    }
    best
}

// The better of `best` and all cuts.
fn scan_x1(q: CutLists<'_>, best: KnownCut) -> KnownCut
    requires sides { AreCutLists q }
    requires known { IsKnownCut q best }
    requires later { rank_of best.split ≤ 0 }
    ensures known { IsKnownCut q.entry result }
    ensures covers { spec.CoversX1 q.entry (length q.entry.xs.now) result }
{
    let mut best = best;
    for i in 0..q.xs.len() {
        best = scan_x2(q, i, best);
    }
    best
}

// The first of the cuts of the pallet that give the greatest number, with that number.
fn best_cuts(alloc: Global, inst: Inst) -> Result<KnownCut, Memory>
    ensures { IfOk result (λ m. IsFirstBest inst m.split m.value) }
{
    let xs = first_cuts(alloc, inst, inst.l_side)?;
    let ys = first_cuts(alloc, inst, inst.w_side)?;
    let q = CutLists {
        inst,
        xs: xs.as_slice(),
        ys: ys.as_slice(),
    };
    let start = KnownCut {
        value: uniform_of(inst, inst.l_side, inst.w_side),
        split: Split {
            x1: 0,
            x2: 0,
            y1: 0,
            y2: 0,
        },
    };
    Ok(scan_x1(q, start))
}

// The better grid of an a by b block.
fn grid_node(inst: Inst, a: u32, b: u32) -> Node
    requires a_small { a ≤ 4000 }
    requires b_small { b ≤ 4000 }
    ensures { result ≡ spec.grid_node inst a b }
{
    Node {
        region: rectangle(a, b),
        block: Block::Grid {
            way: better_way(inst, a, b),
        },
    }
}

// The tree of these cuts, each part filled by its better grid.
fn first_root(alloc: Global, inst: Inst, s: Split) -> Result<Node, Memory>
    requires x_order { s.x1 ≤ s.x2 }
    requires x_in { s.x2 ≤ inst.l_side }
    requires y_order { s.y1 ≤ s.y2 }
    requires y_in { s.y2 ≤ inst.w_side }
    ensures { IfOk result (λ n. n ≡ spec.first_root inst s) }
{
    let a = inst.l_side;
    let b = inst.w_side;
    let parts = five_nodes(
        alloc,
        grid_node(inst, s.x2, s.y1),
        grid_node(inst, a - s.x2, s.y2),
        grid_node(inst, s.x1, b - s.y1),
        grid_node(inst, a - s.x1, b - s.y2),
        grid_node(inst, s.x2 - s.x1, s.y2 - s.y1),
    )?;
    Ok(Node {
        region: rectangle(a, b),
        block: Block::Five {
            x1: s.x1,
            x2: s.x2,
            y1: s.y1,
            y2: s.y2,
            parts,
        },
    })
}

/// The tree of a cut of the whole pallet into five parts, each filled by its better grid, that holds the
/// greatest number of cases; the first of them in the order of x1, x2, y1, y2. The cuts stand at numbers of
/// long case sides from either end (Bischoff and Dowsland 1982). A grid is Lying where it then has at least as
/// many cases as Standing.
pub fn level_one(alloc: Global, inst: Inst) -> Result<BlockTree, Memory>
    ensures inst { IfOk result (λ t. t.inst ≡ inst) }
    ensures greatest { IfOk result
        (λ t. Greatest (IsFirstNumber inst) (held_count t.inst t.root.region t.root.block)) }
    ensures first { IfOk result (λ t. IsFirstLevel inst t.root) }
{
    let best = best_cuts(alloc, inst)?;
    let root = first_root(alloc, inst, best.split)?;
    match BlockTree::new(inst, root) {
        Some(tree) => Ok(tree),
        None => unreachable!(),
    }
}
