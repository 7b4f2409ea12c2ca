ghost use Rattle.std.specs.Prelude.{◌≡◌, ◌∷◌, [], length, IfOk};
ghost use Rattle.l_patterns.specs.Ells.{written};
ghost use Rattle.l_patterns.specs.Keys.{base};
ghost use Rattle.l_patterns.specs.Cuts.{Fits};
ghost use Rattle.l_patterns.specs.States as spec;
ghost use Rattle.l_patterns.specs.States.{AreBuilt, Makes};

use crate::knowledge::{Built, Held};
use crate::sides::Sides;
use block_tables::better_way;
use block_tree::{Block, Node, Region, Sequence, is_rectangle, side_x, side_y};
use plan_memory::Memory;
use std::alloc::Global;

// The node of a region that needs no cut.
fn plain_node(q: Sides<'_>, r: Region) -> Node
    requires { Fits q r }
    ensures { Makes q.entry.inst r (base q.entry.inst (written r)) result }
{
    let block = if is_rectangle(r) {
        Block::Grid {
            way: better_way(q.inst, side_x(r), side_y(r)),
        }
    } else {
        Block::Empty
    };
    Node { region: r, block }
}

// The two parts of a cut, in order.
fn two_nodes(alloc: Global, first: Node, second: Node) -> Result<Sequence<Node>, Memory>
    ensures { IfOk result (λ ns. ns ≡ first ∷ second ∷ []) }
{
    let mut nodes = Vec::new(alloc);
    nodes.push(first)?;
    nodes.push(second)?;
    Ok(Sequence::of(nodes))
}

/// The tree of what a region holds.
pub fn build(alloc: Global, q: Sides<'_>, built: &[Built], held: Held) -> Result<Node, Memory>
    requires built { AreBuilt q built.now }
    requires fits { Fits q held.region }
    requires stands { spec.Stands q.inst built.now (length built.now) (written held.region) held.built held.count }
    ensures { IfOk result (Makes q.entry.inst held.region held.count) }
{
    match held.built {
        None => Ok(plain_node(q, held.region)),
        Some(place) => {
            let b = built[place];
            let first = build(alloc, q, built, b.first)?;
            let second = build(alloc, q, built, b.second)?;
            let parts = two_nodes(alloc, first, second)?;
            Ok(Node {
                region: held.region,
                block: Block::Ell { cut: b.cut, parts },
            })
        }
    }
}
