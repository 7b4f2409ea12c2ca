ghost use Rattle.std.specs.Prelude.{◌≡◌, ◌↔◌, IsTrue};
ghost use Rattle.plan_geometry.specs.Layout.{IsLawfulWay};
ghost use Rattle.block_tree.specs.Trees as spec;

use crate::nodes::{Block, Node};
use crate::parts::{Part, ell_parts, five_parts};
use crate::regions::{are_five_cuts, is_cut, is_ordered, is_rectangle, is_within, side_x, side_y};
use plan_geometry::{Inst, Way};

// Whether the way is one that the case has.
fn is_lawful_way(inst: Inst, way: Way) -> bool
    ensures { IsTrue result ↔ IsLawfulWay inst way }
{
    match way {
        Way::Lying => true,
        Way::Standing => inst.short < inst.long,
    }
}

#[cycle(lawful)]
fn is_lawful(inst: Inst, node: &Node) -> bool
    ensures { IsTrue result ↔ spec.IsLawful inst node.now.region node.now.block }
{
    if !is_ordered(node.region) {
        return false;
    }
    match &node.block {
        Block::Empty => true,
        Block::Grid { way } => is_rectangle(node.region) && is_lawful_way(inst, *way),
        Block::Five {
            x1,
            x2,
            y1,
            y2,
            parts,
        } => {
            if !are_five_cuts(node.region, *x1, *x2, *y1, *y2) {
                return false;
            }
            let places = five_parts(side_x(node.region), side_y(node.region), *x1, *x2, *y1, *y2);
            are_lawful(inst, &places, parts.as_slice())
        }
        Block::Ell { cut, parts } => {
            if !is_cut(node.region, *cut) {
                return false;
            }
            let places = ell_parts(node.region, *cut);
            are_lawful(inst, &places, parts.as_slice())
        }
    }
}

#[cycle(lawful)]
fn are_lawful(inst: Inst, places: &[Part], parts: &[Node]) -> bool
    ensures { IsTrue result ↔ spec.AreLawful inst places.now parts.now }
{
    if places.len() != parts.len() {
        return false;
    }
    for k in 0..parts.len() {
        if !is_within(parts[k].region, places[k].region) {
            return false;
        }
        if !is_lawful(inst, &parts[k]) {
            return false;
        }
    }
    true
}

/// Whether the node is the root of a lawful tree.
pub fn is_tree(inst: Inst, root: &Node) -> bool
    ensures { IsTrue result ↔ spec.IsTree inst root.now }
{
    is_lawful(inst, root)
        && is_rectangle(root.region)
        && side_x(root.region) <= inst.l_side
        && side_y(root.region) <= inst.w_side
}
