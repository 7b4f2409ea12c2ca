// The text of a design.
ghost use Rattle.std.specs.Prelude.{◌≡◌, ◌++◌, ◌∷◌, [], OnOk, OnErr, map, codes, decimal};
ghost use Rattle.texts.specs.Lines.{ended, spaced, text_of};
ghost use Rattle.texts.specs.Puts.{Puts};
ghost use Rattle.case_design.specs.Columns.{IsNumberColumn, column_name as name_in_header};
ghost use Rattle.case_design.specs.Designs.{NamesColumn, NamesColumns};
ghost use Rattle.case_design.specs.Text.{refused_line, id_line, row_lines, head_text, best_words, rival_line as line_of_rival, best_text};

use crate::best::{Best, Cover};
use crate::columns::column_name;
use crate::designs::Design;
use crate::faults::DesignFault;
use plan_memory::Memory;
use texts::{put_named, put_text};

// Appends the name of a fault, and the column of the number at fault.
#[tactic(auto, using(texts::proofs::Growth::grows_after))]
fn put_column(out: &mut Vec<u8>, name: &[u8], column: u32) -> Result<(), Memory>
    requires { IsNumberColumn column }
    ensures { Puts out.old.items out.new.items (name.now ++ name_in_header column ++ 10 ∷ []) result }
{
    put_text(out, name)?;
    put_text(out, column_name(column).as_bytes())?;
    put_text(out, b"\n")
}

// Appends the line of a refused row.
fn put_refused(out: &mut Vec<u8>, fault: DesignFault) -> Result<(), Memory>
    requires { NamesColumn fault }
    ensures { Puts out.old.items out.new.items (ended (refused_line fault)) result }
{
    match fault {
        DesignFault::FieldCount => put_text(out, b"refused FieldCount\n"),
        DesignFault::BadId => put_text(out, b"refused BadId\n"),
        DesignFault::BadNumber { column } => put_column(out, b"refused BadNumber ", column),
        DesignFault::OutOfRange { column } => put_column(out, b"refused OutOfRange ", column),
        DesignFault::NoSize => put_text(out, b"refused NoSize\n"),
        DesignFault::TooManySizes => put_text(out, b"refused TooManySizes\n"),
    }
}

// Appends the line of a row's id.
#[tactic(auto, using(texts::proofs::Growth::grows_after))]
fn put_id(out: &mut Vec<u8>, id: &[u8]) -> Result<(), Memory>
    ensures { Puts out.old.items out.new.items (ended (id_line id.now)) result }
{
    put_text(out, b"id ")?;
    put_text(out, id)?;
    put_text(out, b"\n")
}

// Appends the line of the row, where there is one.
fn put_row_line(out: &mut Vec<u8>, design: &Design) -> Result<(), Memory>
    requires { NamesColumns design.now }
    ensures { Puts out.old.items out.new.items (text_of (row_lines design.now)) result }
{
    match design {
        Design::Nothing => Ok(()),
        Design::Refused(fault) => put_refused(out, *fault),
        Design::Rows { id, .. } => put_id(out, id),
    }
}

// Appends the head of a design, or a part of it.
#[tactic(auto, using(texts::proofs::Growth::grows_after))]
fn put_head(out: &mut Vec<u8>, design: &Design) -> Result<(), Memory>
    requires { NamesColumns design.now }
    ensures { Puts out.old.items out.new.items (head_text design.now) result }
{
    put_text(out, b"pallet-design 1\n")?;
    put_row_line(out, design)
}

/// Appends the head of a design: the line `pallet-design 1`, and behind it the line of the row, where there is one: why it is
/// refused, as `refused BadNumber long_to`, or its id, as `id D`. After `Memory` `out` is as before.
#[tactic(auto, using(texts::proofs::Growth::cut_back))]
pub fn put_design_head(out: &mut Vec<u8>, design: &Design) -> Result<(), Memory>
    requires { NamesColumns design.now }
    ensures ok { OnOk result (out.new.items ≡ out.old.items ++ head_text design.now) }
    ensures err { OnErr result (out.new.items ≡ out.old.items) }
{
    let len = out.len();
    match put_head(out, design) {
        Ok(()) => Ok(()),
        Err(memory) => {
            out.truncate(len);
            Err(memory)
        }
    }
}

// Appends the two numbers of an entry's line.
#[tactic(auto, using(texts::proofs::Growth::grows_after))]
fn put_entry(out: &mut Vec<u8>, name: &[u8], number: u32, cells: u32) -> Result<(), Memory>
    ensures { Puts out.old.items out.new.items (name.now ++ decimal number ++ codes " covers " ++ decimal cells ++ 10 ∷ []) result }
{
    put_named(out, name, u64::from(number))?;
    put_named(out, b" covers ", u64::from(cells))?;
    put_text(out, b"\n")
}

// Appends the line of the best size, or of none.
fn put_best_line(out: &mut Vec<u8>, best: Option<Cover>) -> Result<(), Memory>
    ensures { Puts out.old.items out.new.items (ended (spaced (best_words best))) result }
{
    match best {
        Some(best) => put_entry(out, b"best ", best.number, best.covers),
        None => put_text(out, b"best none\n"),
    }
}

// Appends the line of a rival.
fn put_rival(out: &mut Vec<u8>, rival: Cover) -> Result<(), Memory>
    ensures { Puts out.old.items out.new.items (ended (line_of_rival rival)) result }
{
    put_entry(out, b"rival ", rival.number, rival.may)
}

// Appends a line for each rival.
#[tactic(auto, using(texts::proofs::Growth::grows_after))]
fn put_rivals(out: &mut Vec<u8>, rivals: &[Cover]) -> Result<(), Memory>
    ensures { Puts out.old.items out.new.items (text_of (map line_of_rival rivals.now)) result }
{
    for rival in rivals {
        put_rival(out, *rival)?;
    }
    Ok(())
}

// Appends the lines of the best size and its rivals, or a part of them.
#[tactic(auto, using(texts::proofs::Growth::grows_after))]
fn put_lines(out: &mut Vec<u8>, best: &Best) -> Result<(), Memory>
    ensures { Puts out.old.items out.new.items (best_text best.now.best best.now.rivals.items) result }
{
    put_best_line(out, best.best)?;
    put_rivals(out, &best.rivals)
}

/// Appends the best size with the cells that it covers, as `best 2 covers 35`, or `best none`, and a line for each rival with
/// the cells that it may cover, as `rival 2 covers 36`. After `Memory` `out` is as before.
#[tactic(auto, using(texts::proofs::Growth::cut_back))]
pub fn put_best(out: &mut Vec<u8>, best: &Best) -> Result<(), Memory>
    ensures ok { OnOk result (out.new.items ≡ out.old.items ++ best_text best.now.best best.now.rivals.items) }
    ensures err { OnErr result (out.new.items ≡ out.old.items) }
{
    let len = out.len();
    match put_lines(out, best) {
        Ok(()) => Ok(()),
        Err(memory) => {
            out.truncate(len);
            Err(memory)
        }
    }
}
