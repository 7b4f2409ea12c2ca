ghost use Rattle.std.specs.Prelude.{◌≡◌, ℕ, ◌+◌, ◌*◌, ◌≤◌, ◌<◌, ◌&&◌, nat_le, nat_lt, length, if◌then◌else◌, slice_index, IfOk};
ghost use Rattle.plan_geometry.specs.Layout.{IsInside};
ghost use Rattle.layer_drawing.specs.Drawing.{letter as letter_of};
ghost use Rattle.layer_drawing.specs.Cells.{HasAllCells, IsPainted, IsDrawn};

use plan_geometry::{Axis, Inst, Layer, Spot, extent_along};
use plan_memory::Memory;
use std::alloc::Global;

/// The letters of the cases, in order.
static LETTERS: [u8; 52] = *b"abcdefghijklmnopqrstuvwxyzABCDEFGHIJKLMNOPQRSTUVWXYZ";

/// The character of a cell that no case covers.
const UNCOVERED: u8 = b'.';

// The letter of the case of a number, from 0.
fn letter(number: u32) -> u8
    ensures { result ≡ letter_of number }
{
    LETTERS[(number % 52) as usize]
}

// Gives cells that stand one after the other a character.
fn paint_run(cells: &mut [u8], from: usize, to: usize, character: u8)
    requires in_order { from ≤ to }
    requires within { to ≤ length cells.old }
    ensures { (i : ℕ) → slice_index cells.new i ≡ (if nat_le from i && nat_lt i to then character else slice_index cells.old i) }
{
    for i in from..to {
        cells[i] = character;
    }
}

// Gives the cells that a case covers a character.
fn paint_case(cells: &mut [u8], inst: Inst, spot: Spot, character: u8)
    requires inside { IsInside inst spot }
    requires all { HasAllCells inst cells.old }
    ensures { IsPainted inst spot character cells.old cells.new }
{
    let across = extent_along(Axis::X, inst, spot.way) as usize;
    let along = extent_along(Axis::Y, inst, spot.way);
    for y in spot.y..spot.y + along {
        let from = y as usize * inst.l_side as usize + spot.x as usize;
        paint_run(cells, from, from + across, character);
    }
}

// Gives each cell that a case covers its letter. No two cases share a cell, so their order does not matter.
fn paint_cases(cells: &mut [u8], layer: &Layer)
    requires all { HasAllCells layer.now.inst cells.old }
    requires uncovered { (i : ℕ) → i < length cells.old → slice_index cells.old i ≡ 46 }
    ensures { IsDrawn layer.now.inst layer.now.spots cells.new }
{
    let inst = layer.inst();
    for number in (0..layer.count()).rev() {
        paint_case(cells, inst, layer.spot(number), letter(number));
    }
}

// The characters of all cells, row by row, by rising y.
pub(crate) fn drawn(alloc: Global, layer: &Layer) -> Result<Vec<u8>, Memory>
    ensures { IfOk result (λ v. IsDrawn layer.now.inst layer.now.spots v.items) }
{
    let inst = layer.inst();
    let mut cells = vec![in alloc; UNCOVERED; inst.w_side as usize * inst.l_side as usize]?;
    paint_cases(cells.as_mut_slice(), layer);
    Ok(cells)
}
