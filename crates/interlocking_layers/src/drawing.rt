ghost use Rattle.std.specs.Prelude.{◌≤◌};

use crate::centring::{Shift, centring};
use crate::grids::Grid;
use plan_geometry::{Axis, Inst, Spot, extent_along};
use plan_memory::Memory;
use std::alloc::Global;

// Adds the cases of one row of a grid.
fn add_row(spots: &mut Vec<Spot>, inst: Inst, grid: Grid, x: u32, y: u32) -> Result<(), Memory>
    requires { x ≤ 10000 }
{
    let extent = extent_along(Axis::X, inst, grid.way);
    for column in 0..grid.columns {
        spots.push(Spot {
            x: x + column * extent,
            y,
            way: grid.way,
        })?;
    }
    Ok(())
}

// Adds the cases of a grid, moved.
fn add_grid(
    spots: &mut Vec<Spot>,
    inst: Inst,
    grid: Grid,
    along_x: Shift,
    along_y: Shift,
) -> Result<(), Memory> {
    let extent = extent_along(Axis::Y, inst, grid.way);
    let x = along_x.moved(grid.x);
    let y = along_y.moved(grid.y);
    for row in 0..grid.rows {
        add_row(spots, inst, grid, x, y + row * extent)?;
    }
    Ok(())
}

/// The cases of the grids, with equal margins on opposite sides of the pallet, rounded down.
pub fn drawn(alloc: Global, inst: Inst, grids: &[Grid]) -> Result<Vec<Spot>, Memory> {
    let along_x = centring(Axis::X, inst, grids);
    let along_y = centring(Axis::Y, inst, grids);
    let mut spots = Vec::new(alloc);
    for grid in grids {
        add_grid(&mut spots, inst, *grid, along_x, along_y)?;
    }
    Ok(spots)
}
