ghost use Rattle.std.specs.Prelude.{◌≡◌, ◌+◌, ◌*◌, ◌<◌, ◌≤◌, length, slice_index, ℕ, IfOk, [], ◌∷◌};
ghost use Rattle.plan_geometry.specs.declared.instances.Inst.{Inst};
ghost use Rattle.plan_geometry.specs.Layout.{IsLawfulWay};
ghost use Rattle.block_tree.specs.Trees as trees;
ghost use Rattle.block_tables.specs.Numbers.{IsGreatestOf};
ghost use Rattle.block_tables.specs.Tables.{look, centre};
ghost use Rattle.block_tables.specs.Built as spec;
ghost use Rattle.block_tables.specs.Built.{IsDone, IsFilling, Makes, Serves};

use crate::filling::Filling;
use crate::patterns::Pattern;
use crate::tables::{Split, Table, look_at};
use block_tree::{Block, BlockTree, Node, Sequence, grid_cases, rectangle};
use plan_geometry::{Inst, Way};
use plan_memory::Memory;
use std::alloc::Global;

/// A finished table, the cuts of each block's number, and the normal places of both sides.
#[derive(Clone, Copy)]
pub struct Done<'a> {
    pub inst: Inst,
    pub pattern: Pattern,
    pub table: &'a Table,
    pub splits: &'a [Option<Split>],
    pub xs: &'a [u32],
    pub ys: &'a [u32],
}

/// The way of the better grid: Lying where it has at least as many cases as Standing.
pub fn better_way(inst: Inst, a: u32, b: u32) -> Way
    requires a_small { a ≤ 4000 }
    requires b_small { b ≤ 4000 }
    ensures way { result ≡ spec.better_way inst a b }
    ensures lawful { IsLawfulWay inst result }
    ensures count { trees.grid_cases inst result a b ≡ trees.uniform inst a b }
{
    if grid_cases(inst, Way::Lying, a, b) < grid_cases(inst, Way::Standing, a, b) {
        Way::Standing
    } else {
        Way::Lying
    }
}

// A node without a cell, which may stand as any part.
fn empty_node() -> Node
    ensures { (I : Inst) (p q : ℕ) → Serves I p q 0 result }
{
    Node {
        region: rectangle(0, 0),
        block: Block::Empty,
    }
}

/// The five parts of a cut, in order.
pub fn five_nodes(
    alloc: Global,
    n1: Node,
    n2: Node,
    n3: Node,
    n4: Node,
    n5: Node,
) -> Result<Sequence<Node>, Memory>
    ensures { IfOk result (λ ns. ns ≡ n1 ∷ n2 ∷ n3 ∷ n4 ∷ n5 ∷ []) }
{
    let mut nodes = Vec::new(alloc);
    nodes.push(n1)?;
    nodes.push(n2)?;
    nodes.push(n3)?;
    nodes.push(n4)?;
    nodes.push(n5)?;
    Ok(Sequence::of(nodes))
}

// The tree of the block at row r and column c.
#[cycle(build)]
fn build(alloc: Global, d: Done<'_>, r: usize, c: usize) -> Result<Node, Memory>
    requires done { IsDone d }
    requires r_in { r < length d.xs.now }
    requires c_in { c < length d.ys.now }
    ensures { IfOk result (λ n. Makes d.entry.inst (slice_index d.entry.xs.now r) (slice_index d.entry.ys.now c) (slice_index d.entry.table.now.values.items (r * d.entry.table.now.y_count + c)) n) }
{
    let a = d.xs[r];
    let b = d.ys[c];
    let region = rectangle(a, b);
    match d.splits[r * d.table.y_count as usize + c] {
        None => Ok(Node {
            region,
            block: Block::Grid {
                way: better_way(d.inst, a, b),
            },
        }),
        Some(s) => {
            let part1 = build_part(alloc, d, s.x2, s.y1)?;
            let part2 = build_part(alloc, d, a - s.x2, s.y2)?;
            let part3 = build_part(alloc, d, s.x1, b - s.y1)?;
            let part4 = build_part(alloc, d, a - s.x1, b - s.y2)?;
            let part5 = build_centre(alloc, d, s.x2 - s.x1, s.y2 - s.y1)?;
            let parts = five_nodes(alloc, part1, part2, part3, part4, part5)?;
            Ok(Node {
                region,
                block: Block::Five {
                    x1: s.x1,
                    x2: s.x2,
                    y1: s.y1,
                    y2: s.y2,
                    parts,
                },
            })
        }
    }
}

// The tree of a part, which is empty where it holds nothing.
#[cycle(build)]
fn build_part(alloc: Global, d: Done<'_>, p: u32, q: u32) -> Result<Node, Memory>
    requires done { IsDone d }
    requires p_in { p < length d.table.now.x_places.items }
    requires q_in { q < length d.table.now.y_places.items }
    ensures { IfOk result (λ n. Serves d.entry.inst p q (look d.entry.table.now p q) n) }
{
    if look_at(d.table, p, q) == 0 {
        Ok(empty_node())
    } else {
        build(
            alloc,
            d,
            d.table.x_places[p as usize] as usize,
            d.table.y_places[q as usize] as usize,
        )
    }
}

// The tree of the centre, which is empty among four blocks.
#[cycle(build)]
fn build_centre(alloc: Global, d: Done<'_>, p: u32, q: u32) -> Result<Node, Memory>
    requires done { IsDone d }
    requires p_in { p < length d.table.now.x_places.items }
    requires q_in { q < length d.table.now.y_places.items }
    ensures { IfOk result (λ n. Serves d.entry.inst p q (centre d.entry.pattern (look d.entry.table.now) p q) n) }
{
    match d.pattern {
        Pattern::Five => build_part(alloc, d, p, q),
        Pattern::Four => Ok(empty_node()),
    }
}

/// The tree of the greatest number of the pallet's block, each side rounded down, from a table that is
/// filled.
pub fn tree_of(
    alloc: Global,
    pattern: Pattern,
    inst: Inst,
    f: &Filling,
    xs: &[u32],
    ys: &[u32],
) -> Result<BlockTree, Memory>
    requires { IsFilling inst pattern xs.now ys.now f.now (length xs.now * length ys.now) }
    ensures inst { IfOk result (λ t. t.inst ≡ inst) }
    ensures best { IfOk result
        (λ t. IsGreatestOf inst pattern (trees.held_count t.inst t.root.region t.root.block)) }
{
    let done = Done {
        inst,
        pattern,
        table: &f.table,
        splits: f.splits.as_slice(),
        xs,
        ys,
    };
    let r = f.table.x_places[inst.l_side as usize] as usize;
    let c = f.table.y_places[inst.w_side as usize] as usize;
    let root = build(alloc, done, r, c)?;
    match BlockTree::new(inst, root) {
        Some(tree) => Ok(tree),
        None => unreachable!(),
    }
}
