ghost use Rattle.std.specs.Prelude.{◌≡◌, ◌+◌, ◌*◌, ◌<◌, length, slice_index, IfOk, OnOk};
ghost use Rattle.raster_points.specs.Places.{IsRaster, Lists};
ghost use Rattle.raster_points.specs.Points.{ArePointsOf};
ghost use Rattle.block_tree.specs.Trees.{held_count};
ghost use Rattle.block_tables.specs.Built.{IsFilling};
ghost use Rattle.five_block.specs.Five.{IsGreatestFive, IsFiveSize};

use crate::scanning::solve_block;
use block_tables::{Filling, Pattern, empty_filling, tree_of, write_block};
use block_tree::BlockTree;
use plan_geometry::{Axis, Inst};
use plan_memory::Memory;
use raster_points::Points;
use std::alloc::Global;

// Solves and writes the block at row r and column c.
fn fill_block(
    alloc: Global,
    inst: Inst,
    f: &mut Filling,
    px: &Points,
    py: &Points,
    r: usize,
    c: usize,
    rx: &[u32],
) -> Result<(), Memory>
    requires py { ArePointsOf Axis.Y inst py.now }
    requires filling { IsFilling inst Pattern.Five px.now.normal py.now.normal f.now (r * length py.now.normal + c) }
    requires r_in { r < length px.now.normal }
    requires c_in { c < length py.now.normal }
    requires x_cuts { Lists (IsRaster (slice_index px.now.normal r) inst.long inst.short) rx.now }
    ensures { OnOk result
        (IsFilling inst Pattern.Five px.now.normal py.now.normal f.new (r * length py.now.normal + c + 1)) }
{
    let ry = py.raster(alloc, py.normal()[c])?;
    let mut second = Vec::from_slice(alloc, ry.as_slice())?;
    let best = solve_block(
        inst,
        &f.table,
        px.normal(),
        py.normal(),
        r,
        c,
        rx,
        ry.as_slice(),
        second.as_mut_slice(),
    );
    write_block(f, r, c, best);
    Ok(())
}

// Solves and writes the blocks of row r.
fn fill_row(
    alloc: Global,
    inst: Inst,
    f: &mut Filling,
    px: &Points,
    py: &Points,
    r: usize,
) -> Result<(), Memory>
    requires px { ArePointsOf Axis.X inst px.now }
    requires py { ArePointsOf Axis.Y inst py.now }
    requires filling { IsFilling inst Pattern.Five px.now.normal py.now.normal f.now (r * length py.now.normal) }
    requires r_in { r < length px.now.normal }
    ensures { OnOk result
        (IsFilling inst Pattern.Five px.now.normal py.now.normal f.new ((r + 1) * length py.now.normal)) }
{
    let rx = px.raster(alloc, px.normal()[r])?;
    for c in 0..py.normal().len() {
        fill_block(alloc, inst, f, px, py, r, c, rx.as_slice())?;
    }
    Ok(())
}

// The table of all blocks, row by row.
fn fill(alloc: Global, inst: Inst, px: &Points, py: &Points) -> Result<Filling, Memory>
    requires px { ArePointsOf Axis.X inst px.now }
    requires py { ArePointsOf Axis.Y inst py.now }
    requires size { IsFiveSize px.now.normal py.now.normal }
    ensures { IfOk result
        (λ f. IsFilling inst Pattern.Five px.now.normal py.now.normal f (length px.now.normal * length py.now.normal)) }
{
    let mut f = empty_filling(alloc, Pattern::Five, inst, px, py)?;
    for r in 0..px.normal().len() {
        fill_row(alloc, inst, &mut f, px, py, r)?;
    }
    Ok(f)
}

/// The tree of the greatest number of the recursive five-block pattern of the pallet, its sides rounded down
/// to normal places (after Morabito and Morales 1998). `px` and `py` are the points of the two sides, which
/// have at most 2,500 pairs of normal places, and at most 200 places each.
pub fn five_closure(
    alloc: Global,
    inst: Inst,
    px: &Points,
    py: &Points,
) -> Result<BlockTree, Memory>
    requires px { ArePointsOf Axis.X inst px.now }
    requires py { ArePointsOf Axis.Y inst py.now }
    requires size { IsFiveSize px.now.normal py.now.normal }
    ensures inst { IfOk result (λ t. t.inst ≡ inst) }
    ensures best { IfOk result (λ t. IsGreatestFive inst (held_count t.inst t.root.region t.root.block)) }
{
    let f = fill(alloc, inst, px, py)?;
    tree_of(alloc, Pattern::Five, inst, &f, px.normal(), py.normal())
}
