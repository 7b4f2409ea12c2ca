ghost use Rattle.std.specs.Prelude.{◌≡◌, ◌≤◌, ◌<◌, ◌^◌, All};
ghost use Rattle.block_tree.specs.Trees as spec;
ghost use Rattle.block_tree.specs.Trees.{IsSmallLawful};

use crate::nodes::{Block, Node};
use crate::regions::{side_x, side_y};
use plan_geometry::{Axis, Inst, Way, extent_along};

/// How many cases of one way stand in an a by b block as a grid.
pub fn grid_cases(inst: Inst, way: Way, a: u32, b: u32) -> u32
    requires x_small { a ≤ 4000 }
    requires y_small { b ≤ 4000 }
    ensures { result ≡ spec.grid_cases inst way a b }
{
    a / extent_along(Axis::X, inst, way) * (b / extent_along(Axis::Y, inst, way))
}

/// The sum of the cases of a node's grids.
#[cycle(held)]
pub fn held_count(inst: Inst, node: &Node) -> u32
    requires { IsSmallLawful inst node.now }
    ensures { result ≡ spec.held_count inst node.now.region node.now.block }
{
    match &node.block {
        Block::Empty => 0,
        Block::Grid { way } => grid_cases(inst, *way, side_x(node.region), side_y(node.region)),
        Block::Five { parts, .. } => held_by_parts(inst, parts.as_slice()),
        Block::Ell { parts, .. } => held_by_parts(inst, parts.as_slice()),
    }
}

#[cycle(held)]
fn held_by_parts(inst: Inst, parts: &[Node]) -> u32
    requires lawful { All (IsSmallLawful inst) parts.now }
    requires small { spec.held_count_all inst parts.now < 2 ^ 32 }
    ensures { result ≡ spec.held_count_all inst parts.now }
{
    let mut sum = 0;
    for part in parts {
        sum += held_count(inst, part);
    }
    sum
}
