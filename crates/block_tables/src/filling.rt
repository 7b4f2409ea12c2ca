ghost use Rattle.std.specs.Prelude.{◌≡◌, ◌+◌, ◌*◌, ◌≤◌, ◌<◌, length, slice_index, IfOk};
ghost use Rattle.plan_geometry.specs.Layout.{side};
ghost use Rattle.raster_points.specs.Places.{IsDown};
ghost use Rattle.raster_points.specs.Points.{ArePoints, ArePointsOf};
ghost use Rattle.block_tables.specs.Tables.{ArePlaced};
ghost use Rattle.block_tables.specs.Built.{IsFilling, Wrote};

use crate::patterns::Pattern;
use crate::tables::{Best, Split, Table};
use plan_geometry::{Axis, Inst, side_along};
use plan_memory::Memory;
use raster_points::Points;
use std::alloc::Global;

/// A table that is filled block by block, and the cuts of each block's number.
#[derive(Debug, Drop)]
pub struct Filling {
    pub table: Table,
    pub splits: Vec<Option<Split>>,
}

// Where the greatest normal place up to a length stands among the normal places.
fn place_of(points: &Points, s: u32) -> u32
    requires within { s ≤ points.now.side }
    requires few { length points.now.normal ≤ 200 }
    ensures place { result < length points.now.normal }
    ensures down { IsDown s points.now.long points.now.short (slice_index points.now.normal result) }
{
    let down = points.down(s);
    for (k, place) in points.normal().iter().enumerate() {
        if *place == down {
            return k as u32;
        }
    }
    unreachable!()
}

/// For each length up to the pallet's side, where the greatest normal place up to it stands.
pub fn places_of(alloc: Global, axis: Axis, inst: Inst, points: &Points) -> Result<Vec<u32>, Memory>
    requires points { ArePoints points.now }
    requires side { ArePointsOf axis inst points.now }
    requires few { length points.now.normal ≤ 200 }
    ensures placed { IfOk result (λ v. ArePlaced inst points.now.normal v.items) }
    ensures long { IfOk result (λ v. length v.items ≡ side axis inst + 1) }
{
    let mut places = Vec::new(alloc);
    for s in 0..side_along(axis, inst) + 1 {
        places.push(place_of(points, s))?;
    }
    Ok(places)
}

/// The table of which nothing is known yet.
pub fn empty_filling(
    alloc: Global,
    pattern: Pattern,
    inst: Inst,
    px: &Points,
    py: &Points,
) -> Result<Filling, Memory>
    requires px { ArePointsOf Axis.X inst px.now }
    requires py { ArePointsOf Axis.Y inst py.now }
    requires few_x { length px.now.normal ≤ 200 }
    requires few_y { length py.now.normal ≤ 200 }
    ensures { IfOk result (λ f. IsFilling inst pattern px.now.normal py.now.normal f 0) }
{
    let _pattern = pattern;
    let x_count = px.normal().len();
    let y_count = py.normal().len();
    let table = Table {
        x_places: places_of(alloc, Axis::X, inst, px)?,
        y_places: places_of(alloc, Axis::Y, inst, py)?,
        x_count: x_count as u32,
        y_count: y_count as u32,
        values: vec![in alloc; 0; x_count * y_count]?,
    };
    let splits = vec![in alloc; None; x_count * y_count]?;
    Ok(Filling { table, splits })
}

/// Writes the number of the block at row r and column c, and its cuts.
pub fn write_block(f: &mut Filling, r: usize, c: usize, best: Best)
    requires value_in { r * f.now.table.y_count + c < length f.now.table.values.items }
    requires split_in { r * f.now.table.y_count + c < length f.now.splits.items }
    ensures { Wrote f.old f.new (r * f.old.table.y_count + c) best }
{
    let k = r * f.table.y_count as usize + c;
    f.table.values[k] = best.value;
    f.splits[k] = best.split;
}
