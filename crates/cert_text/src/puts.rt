ghost use Rattle.std.specs.Prelude.{◌≡◌, ◌≤◌, ◌<◌, ◌*◌, ◌++◌, ◌∷◌, [], length, map, take, drop, decimal, codes, OnOk, OnErr, true};
ghost use Rattle.std.specs.List.{list_all};
ghost use Rattle.line_tables.specs.Lines.{half};
ghost use Rattle.texts.specs.Lines.{ended, spaced, text_of};
ghost use Rattle.texts.specs.Puts.{Puts};
ghost use Rattle.cert_text.specs.Forms.{most_cuts};
ghost use Rattle.cert_text.specs.Ranges.{InRange, is_cut};
ghost use Rattle.cert_text.specs.Text.{weighting_words, weighting_lines, row_words, lines_words, rows_of, row_lines, mark_byte as byte_of, tree_line, cut_words, cut_lines, cert_text};

use crate::forms::Form;
use crate::marks::mark_byte;
use line_tables::LineTable;
use plan_memory::Memory;
use texts::{put_named, put_text};
use weightings::{Cert, Mark, StripCut, WeightTable, Weighting};

// Appends the line of a cut at a place.
#[tactic(auto, using(texts::proofs::Growth::grows_after))]
fn put_cut(out: &mut Vec<u8>, place: u32, cut: StripCut) -> Result<(), Memory>
    requires { is_cut cut ≡ true }
    ensures { Puts out.old.items out.new.items (ended (spaced (cut_words place cut))) result }
{
    put_named(out, b"cut ", u64::from(place))?;
    match cut {
        StripCut::Area => put_text(out, b" area\n"),
        StripCut::X { a, b, q } => {
            put_named(out, b" x ", u64::from(a))?;
            put_named(out, b" ", u64::from(b))?;
            put_named(out, b" ", q)?;
            put_text(out, b"\n")
        }
        StripCut::Y { a, b, q } => {
            put_named(out, b" y ", u64::from(a))?;
            put_named(out, b" ", u64::from(b))?;
            put_named(out, b" ", q)?;
            put_text(out, b"\n")
        }
    }
}

// Appends the lines of cuts, from place 0 on.
#[tactic(auto, using(texts::proofs::Growth::grows_after))]
fn put_cuts(out: &mut Vec<u8>, cuts: &[StripCut]) -> Result<(), Memory>
    requires good { list_all is_cut cuts.now ≡ true }
    requires few { length cuts.now ≤ 1002 }
    ensures { Puts out.old.items out.new.items (text_of (cut_lines 0 cuts.now)) result }
{
    for (place, cut) in cuts.iter().enumerate() {
        put_cut(out, place as u32, *cut)?;
    }
    Ok(())
}

// Appends the numbers of a colour's line.
#[tactic(auto, using(texts::proofs::Growth::grows_after))]
fn put_colour(out: &mut Vec<u8>, k: u32, c: u32) -> Result<(), Memory>
    ensures { Puts out.old.items out.new.items (ended (spaced (weighting_words (Weighting.Colour k c)))) result }
{
    put_named(out, b"weighting colour ", u64::from(k))?;
    put_named(out, b" ", u64::from(c))?;
    put_text(out, b"\n")
}

// Appends the numbers of a comb's line.
#[tactic(auto, using(texts::proofs::Growth::grows_after))]
fn put_comb(out: &mut Vec<u8>, p: u32, a: u32, r: u32, b: u32) -> Result<(), Memory>
    ensures { Puts out.old.items out.new.items (ended (spaced (weighting_words (Weighting.Comb p a r b)))) result }
{
    put_named(out, b"weighting comb ", u64::from(p))?;
    put_named(out, b" ", u64::from(a))?;
    put_named(out, b" ", u64::from(r))?;
    put_named(out, b" ", u64::from(b))?;
    put_text(out, b"\n")
}

// Appends the weights of a row, each behind a space.
#[tactic(auto, using(texts::proofs::Growth::grows_after))]
fn put_cells(out: &mut Vec<u8>, table: &WeightTable, y: u32) -> Result<(), Memory>
    requires { y < table.now.y_side }
    ensures { Puts out.old.items out.new.items (spaced ([] ∷ map decimal (take table.now.x_side (drop (y * table.now.x_side) table.now.cells)))) result }
{
    for x in 0..table.x_side() {
        put_named(out, b" ", u64::from(table.cell(x, y)))?;
    }
    Ok(())
}

// Appends the line of a row.
#[tactic(auto, using(texts::proofs::Growth::grows_after))]
fn put_row(out: &mut Vec<u8>, table: &WeightTable, y: u32) -> Result<(), Memory>
    requires { y < table.now.y_side }
    ensures { Puts out.old.items out.new.items (ended (spaced (row_words (take table.now.x_side (drop (y * table.now.x_side) table.now.cells))))) result }
{
    put_text(out, b"row")?;
    put_cells(out, table, y)?;
    put_text(out, b"\n")
}

// Appends the rows of a table.
#[tactic(auto, using(texts::proofs::Growth::grows_after))]
fn put_rows(out: &mut Vec<u8>, table: &WeightTable) -> Result<(), Memory>
    ensures { Puts out.old.items out.new.items (text_of (row_lines table.now.x_side table.now.y_side table.now.cells)) result }
{
    for y in 0..table.y_side() {
        put_row(out, table, y)?;
    }
    Ok(())
}

// Appends the lines of a table.
#[tactic(auto, using(texts::proofs::Growth::grows_after))]
fn put_table(out: &mut Vec<u8>, table: &WeightTable) -> Result<(), Memory>
    ensures { Puts out.old.items out.new.items (ended (spaced (weighting_words (Weighting.Table table.now))) ++ text_of (row_lines table.now.x_side table.now.y_side table.now.cells)) result }
{
    put_named(out, b"weighting table ", u64::from(table.x_side()))?;
    put_named(out, b" ", u64::from(table.y_side()))?;
    put_text(out, b"\n")?;
    put_rows(out, table)
}

// Appends numbers, each behind a space.
#[tactic(auto, using(texts::proofs::Growth::grows_after))]
fn put_numbers(out: &mut Vec<u8>, numbers: &[u32]) -> Result<(), Memory>
    ensures { Puts out.old.items out.new.items (spaced ([] ∷ map decimal numbers.now)) result }
{
    for number in numbers {
        put_named(out, b" ", u64::from(*number))?;
    }
    Ok(())
}

// Appends a line of a word and numbers.
#[tactic(auto, using(texts::proofs::Growth::grows_after))]
fn put_number_line(out: &mut Vec<u8>, name: &[u8], numbers: &[u32]) -> Result<(), Memory>
    ensures { Puts out.old.items out.new.items (ended (spaced (lines_words name.now numbers.now))) result }
{
    put_text(out, name)?;
    put_numbers(out, numbers)?;
    put_text(out, b"\n")
}

// Appends so many rows of so many weights.
#[tactic(auto, using(texts::proofs::Growth::grows_after))]
fn put_weight_rows(
    out: &mut Vec<u8>,
    width: usize,
    count: usize,
    weights: &[u32],
) -> Result<(), Memory>
    requires { length weights.now ≡ count * width }
    ensures { Puts out.old.items out.new.items (text_of (row_lines width count weights.now)) result }
{
    let mut rest = weights;
    for _row in 0..count {
        let (row, after) = rest.split_at(width);
        put_number_line(out, b"row", row)?;
        rest = after;
    }
    Ok(())
}

// Appends the lines of a table's columns, rows and weights.
#[tactic(auto, using(texts::proofs::Growth::grows_after))]
fn put_crossings(out: &mut Vec<u8>, table: &LineTable) -> Result<(), Memory>
    ensures { Puts out.old.items out.new.items (text_of (rows_of (Weighting.Lines table.now))) result }
{
    let (columns, rows) = (table.columns(), table.rows());
    put_number_line(out, b"columns", columns)?;
    put_number_line(out, b"rows", rows)?;
    put_weight_rows(
        out,
        columns.len().div_ceil(2),
        rows.len().div_ceil(2),
        table.quarter(),
    )
}

// Appends the lines of a table on few columns and rows.
#[tactic(auto, using(texts::proofs::Growth::grows_after))]
fn put_line_table(out: &mut Vec<u8>, table: &LineTable) -> Result<(), Memory>
    ensures { Puts out.old.items out.new.items (text_of (weighting_lines (Weighting.Lines table.now))) result }
{
    put_named(out, b"weighting lines ", table.columns().len() as u64)?;
    put_named(out, b" ", table.rows().len() as u64)?;
    put_text(out, b"\n")?;
    put_crossings(out, table)
}

// Appends the lines of a weighting.
fn put_weighting(out: &mut Vec<u8>, weighting: &Weighting) -> Result<(), Memory>
    ensures { Puts out.old.items out.new.items (text_of (weighting_lines weighting.now)) result }
{
    match *weighting {
        Weighting::Area => put_text(out, b"weighting area\n"),
        Weighting::Colour { k, c } => put_colour(out, k, c),
        Weighting::Comb { p, a, r, b } => put_comb(out, p, a, r, b),
        Weighting::Table(ref table) => put_table(out, table),
        Weighting::Lines(ref table) => put_line_table(out, table),
    }
}

// Appends the bytes of marks.
#[tactic(auto, using(texts::proofs::Growth::grows_after))]
fn put_marks(out: &mut Vec<u8>, marks: &[Mark]) -> Result<(), Memory>
    ensures { Puts out.old.items out.new.items (map byte_of marks.now) result }
{
    for mark in marks {
        out.push(mark_byte(*mark))?;
    }
    Ok(())
}

// Appends the line of a tree.
#[tactic(auto, using(texts::proofs::Growth::grows_after))]
fn put_tree(out: &mut Vec<u8>, marks: &[Mark]) -> Result<(), Memory>
    ensures { Puts out.old.items out.new.items (ended (tree_line marks.now)) result }
{
    put_text(out, b"tree ")?;
    put_marks(out, marks)?;
    put_text(out, b"\n")
}

// Appends the lines of a weighting and a tree.
#[tactic(auto, using(texts::proofs::Growth::grows_after))]
fn put_weighted(out: &mut Vec<u8>, weighting: &Weighting, marks: &[Mark]) -> Result<(), Memory>
    ensures { Puts out.old.items out.new.items (codes "cert weighted\n" ++ (text_of (weighting_lines weighting.now) ++ ended (tree_line marks.now))) result }
{
    put_text(out, b"cert weighted\n")?;
    put_weighting(out, weighting)?;
    put_tree(out, marks)
}

// Appends the lines of cuts and the line before them.
#[tactic(auto, using(texts::proofs::Growth::grows_after))]
fn put_strip(out: &mut Vec<u8>, cuts: &[StripCut]) -> Result<(), Memory>
    requires good { list_all is_cut cuts.now ≡ true }
    requires few { length cuts.now ≤ 1002 }
    ensures { Puts out.old.items out.new.items ((codes "cert strip " ++ decimal (length cuts.now)) ++ (codes "\n" ++ text_of (cut_lines 0 cuts.now))) result }
{
    put_named(out, b"cert strip ", cuts.len() as u64)?;
    put_text(out, b"\n")?;
    put_cuts(out, cuts)
}

// Appends the text of a certificate, or a part of it.
fn put_all(out: &mut Vec<u8>, cert: &Cert) -> Result<(), Memory>
    requires { InRange Form.Two cert.now }
    ensures { Puts out.old.items out.new.items (cert_text cert.now) result }
{
    match cert {
        Cert::Weighted { weighting, tree } => put_weighted(out, weighting, tree.as_slice()),
        Cert::Strip(strip) => put_strip(out, strip.cuts()),
        Cert::GivenArea => put_text(out, b"cert given-area\n"),
    }
}

/// Appends the text of a certificate, in today's form. After `Memory` `out` is as before.
#[tactic(auto, using(texts::proofs::Growth::cut_back))]
pub fn put_cert(out: &mut Vec<u8>, cert: &Cert) -> Result<(), Memory>
    requires { InRange Form.Two cert.now }
    ensures ok { OnOk result (out.new.items ≡ out.old.items ++ cert_text cert.now) }
    ensures err { OnErr result (out.new.items ≡ out.old.items) }
{
    let len = out.len();
    match put_all(out, cert) {
        Ok(()) => Ok(()),
        Err(memory) => {
            out.truncate(len);
            Err(memory)
        }
    }
}
