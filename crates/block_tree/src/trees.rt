ghost use Rattle.std.specs.Prelude.{◌≡◌, ◌↔◌, length, IsSome, IfSome, IfOk, IsPermutation};
ghost use Rattle.plan_geometry.specs.Layout.{Admits};
ghost use Rattle.plan_geometry.specs.Placed.{IsLayer};
ghost use Rattle.block_tree.specs.Trees.{IsTree, held_count};
ghost use Rattle.block_tree.specs.Drawing.{drawn};

use crate::checking::is_tree;
use crate::counting::held_count;
use crate::drawing::draw_node;
use crate::nodes::Node;
use plan_geometry::{Inst, Layer};
use plan_memory::Memory;
use std::alloc::Global;
use std::marker::Model;

/// A lawful block tree of an instance: the root is a rectangle no larger than the pallet, the cuts meet
/// their conditions, each part is at most as large as the cut makes it, and no grid is Standing where the
/// case's sides are equal.
#[derive(Debug, Drop)]
pub struct BlockTree {
    inst: Inst,
    root: Node,
}

impl Model for BlockTree {
    ghost use Rattle.std.specs.Coded.{codes};
    ghost use Rattle.block_tree.specs.contracts.nodes.Block as block;
    ghost use Rattle.block_tree.specs.Rooted.{Rooted};

    ghost Value = { Rooted };

    ghost coded = { Prim.hlevel (codes, block.the_row.coded) };

    ghost use Rattle.block_tree.specs.Trees.{IsTree};

    ghost view = { λ t. record { inst = t.inst; root = t.root } };

    ghost invariant = { λ t. IsTree t.inst t.root };
}

impl BlockTree {
    /// The tree with this root; None exactly where the root is no lawful tree of the instance.
    pub fn new(inst: Inst, root: Node) -> Option<BlockTree>
        ensures accepted { IsSome result ↔ IsTree inst root }
        ensures inst { IfSome result (λ t. t.inst ≡ inst) }
        ensures root { IfSome result (λ t. t.root ≡ root) }
    {
        if is_tree(inst, &root) {
            Some(BlockTree { inst, root })
        } else {
            None
        }
    }

    /// The sum of the grids' cases.
    pub fn held(&self) -> u32
        ensures value { result ≡ held_count self.now.inst self.now.root.region self.now.root.block }
        ensures admitted { Admits self.now.inst result }
        ensures tree { IsTree self.now.inst self.now.root }
    {
        held_count(self.inst, &self.root)
    }

    /// The layer that the tree stands for, of as many cases as it holds: each grid at the corner of its
    /// part, and the parts moved, turned or mirrored as the cuts have them.
    pub fn draw(&self, alloc: Global) -> Result<Layer, Memory>
        ensures inst { IfOk result (λ a. a.inst ≡ self.now.inst) }
        ensures layer { IfOk result (λ a. IsLayer a.inst a.spots) }
        ensures spots { IfOk result
            (λ a. IsPermutation (drawn self.now.inst self.now.root.region self.now.root.block) a.spots) }
        ensures count { IfOk result
            (λ a. length a.spots ≡ held_count self.now.inst self.now.root.region self.now.root.block) }
    {
        let spots = draw_node(alloc, self.inst, &self.root)?;
        match Layer::new(self.inst, spots) {
            Some(layer) => Ok(layer),
            None => unreachable!(),
        }
    }
}
