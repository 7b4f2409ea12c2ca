ghost use Rattle.std.specs.Prelude.{◌≡◌, ◌++◌, ◌<◌, OnOk, OnErr};
ghost use Rattle.texts.specs.Lines.{ended, spaced, text_of};
ghost use Rattle.texts.specs.Puts.{Puts};
ghost use Rattle.layer_drawing.specs.Drawing.{head_words, row_of, rows_below, drawing_text};
ghost use Rattle.layer_drawing.specs.Cells.{IsDrawn};

use crate::cells::drawn;
use plan_geometry::{Inst, Layer};
use plan_memory::Memory;
use std::alloc::Global;
use texts::{put_named, put_text};

/// The most cells of a pallet that is drawn.
const MOST_CELLS: u64 = 40_000;

// Appends the line of the pallet's sides.
#[tactic(auto, using(texts::proofs::Growth::grows_after))]
fn put_head(out: &mut Vec<u8>, inst: Inst) -> Result<(), Memory>
    ensures { Puts out.old.items out.new.items (ended (spaced (head_words inst))) result }
{
    put_named(out, b"drawing ", u64::from(inst.l_side))?;
    put_named(out, b" ", u64::from(inst.w_side))?;
    put_text(out, b"\n")
}

// Appends the row of cells at y.
#[tactic(auto, using(texts::proofs::Growth::grows_after))]
fn put_row(out: &mut Vec<u8>, layer: &Layer, cells: &[u8], y: u32) -> Result<(), Memory>
    requires drawn { IsDrawn layer.now.inst layer.now.spots cells.now }
    requires within { y < layer.now.inst.w_side }
    ensures { Puts out.old.items out.new.items (ended (row_of layer.now.inst layer.now.spots y)) result }
{
    let across = layer.inst().l_side as usize;
    let from = y as usize * across;
    put_text(out, &cells[from..from + across])?;
    put_text(out, b"\n")
}

// Appends the rows of cells, the greatest y first.
#[tactic(auto, using(texts::proofs::Growth::grows_after))]
fn put_rows(out: &mut Vec<u8>, layer: &Layer, cells: &[u8]) -> Result<(), Memory>
    requires { IsDrawn layer.now.inst layer.now.spots cells.now }
    ensures { Puts out.old.items out.new.items (text_of (rows_below layer.now.inst layer.now.spots layer.now.inst.w_side)) result }
{
    for y in (0..layer.inst().w_side).rev() {
        put_row(out, layer, cells, y)?;
    }
    Ok(())
}

// Appends the drawing of a layer, or a part of it.
#[tactic(auto, using(texts::proofs::Growth::grows_after), unfolding(crate::specs::Drawing::drawing_lines))]
fn put_all(alloc: Global, out: &mut Vec<u8>, layer: &Layer) -> Result<(), Memory>
    ensures { Puts out.old.items out.new.items (drawing_text layer.now.inst layer.now.spots) result }
{
    let inst = layer.inst();
    if MOST_CELLS < u64::from(inst.l_side) * u64::from(inst.w_side) {
        return put_text(out, b"drawing none\n");
    }
    let cells = drawn(alloc, layer)?;
    put_head(out, inst)?;
    put_rows(out, layer, cells.as_slice())
}

/// Appends the drawing of a layer: the pallet's sides, and a row of characters for each y, the greatest first. A cell
/// shows the letter of the case that covers it, a full stop where none does; the letters a to z and A to Z go round.
/// A pallet of more than 40,000 cells is not drawn, and the text says so. After `Memory` `out` is as before.
#[tactic(auto, using(texts::proofs::Growth::cut_back))]
pub fn put_drawing(alloc: Global, out: &mut Vec<u8>, layer: &Layer) -> Result<(), Memory>
    ensures ok { OnOk result (out.new.items ≡ out.old.items ++ drawing_text layer.now.inst layer.now.spots) }
    ensures err { OnErr result (out.new.items ≡ out.old.items) }
{
    let len = out.len();
    match put_all(alloc, out, layer) {
        Ok(()) => Ok(()),
        Err(memory) => {
            out.truncate(len);
            Err(memory)
        }
    }
}
