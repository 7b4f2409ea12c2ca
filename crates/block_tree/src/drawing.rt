ghost use Rattle.std.specs.Prelude.{◌≡◌, ◌*◌, ◌≤◌, ◌++◌, map, All, IfOk, OnOk};
ghost use Rattle.plan_geometry.specs.Layout.{x_extent, y_extent};
ghost use Rattle.block_tree.specs.Trees.{IsSmallLawful, AreLawful};
ghost use Rattle.block_tree.specs.Drawing as spec;

use crate::nodes::{Block, Node};
use crate::parts::{Part, ell_parts, five_parts, placed};
use crate::regions::{side_x, side_y};
use plan_geometry::{Axis, Inst, Spot, Way, extent_along};
use plan_memory::Memory;
use std::alloc::Global;

// Adds a row of n cases at the height y.
fn draw_row(out: &mut Vec<Spot>, inst: Inst, way: Way, y: u32, n: u32) -> Result<(), Memory>
    requires fits { n * x_extent inst way ≤ 4000 }
    ensures { OnOk result (out.new.items ≡ out.old.items ++ spec.row_spots inst way y n) }
{
    for k in 0..n {
        out.push(Spot {
            x: k * extent_along(Axis::X, inst, way),
            y,
            way,
        })?;
    }
    Ok(())
}

// m rows of n cases each.
fn draw_grid(alloc: Global, inst: Inst, way: Way, n: u32, m: u32) -> Result<Vec<Spot>, Memory>
    requires fits_x { n * x_extent inst way ≤ 4000 }
    requires fits_y { m * y_extent inst way ≤ 4000 }
    ensures { IfOk result (λ v. v.items ≡ spec.grid_spots inst way n m) }
{
    let mut out = Vec::new(alloc);
    for j in 0..m {
        draw_row(&mut out, inst, way, j * extent_along(Axis::Y, inst, way), n)?;
    }
    Ok(out)
}

// Adds the cases of a part, as they stand in the whole.
fn place_all(out: &mut Vec<Spot>, inst: Inst, p: Part, spots: &[Spot]) -> Result<(), Memory>
    requires part { spec.IsPart p }
    requires stand { All (spec.InRegion inst p.region) spots.now }
    ensures { OnOk result (out.new.items ≡ out.old.items ++ map (spec.placed inst p) spots.now) }
{
    for s in spots {
        out.push(placed(inst, p, *s))?;
    }
    Ok(())
}

/// The cases of a node, in the coordinates of its region.
#[cycle(draw)]
pub fn draw_node(alloc: Global, inst: Inst, node: &Node) -> Result<Vec<Spot>, Memory>
    requires { IsSmallLawful inst node.now }
    ensures { IfOk result (λ v. v.items ≡ spec.drawn inst node.now.region node.now.block) }
{
    match &node.block {
        Block::Empty => Ok(Vec::new(alloc)),
        Block::Grid { way } => draw_grid(
            alloc,
            inst,
            *way,
            side_x(node.region) / extent_along(Axis::X, inst, *way),
            side_y(node.region) / extent_along(Axis::Y, inst, *way),
        ),
        Block::Five {
            x1,
            x2,
            y1,
            y2,
            parts,
        } => {
            let places = five_parts(side_x(node.region), side_y(node.region), *x1, *x2, *y1, *y2);
            draw_parts(alloc, inst, &places, parts.as_slice())
        }
        Block::Ell { cut, parts } => {
            let places = ell_parts(node.region, *cut);
            draw_parts(alloc, inst, &places, parts.as_slice())
        }
    }
}

#[cycle(draw)]
fn draw_parts(
    alloc: Global,
    inst: Inst,
    places: &[Part],
    parts: &[Node],
) -> Result<Vec<Spot>, Memory>
    requires lawful { AreLawful inst places.now parts.now }
    requires places { All spec.IsPart places.now }
    ensures { IfOk result (λ v. v.items ≡ spec.drawn_all inst places.now parts.now) }
{
    let mut out = Vec::new(alloc);
    for k in 0..parts.len() {
        let spots = draw_node(alloc, inst, &parts[k])?;
        place_all(&mut out, inst, places[k], spots.as_slice())?;
    }
    Ok(out)
}
