ghost use Rattle.std.specs.Prelude.{◌≡◌, ◌++◌, ◌∷◌, [], OnOk, OnErr};
ghost use Rattle.texts.specs.Lines.{ended, spaced};
ghost use Rattle.texts.specs.Puts.{Puts};
ghost use Rattle.truck_floor.specs.Text.{numbers_words, total_line, total_text};

use crate::totals::{Total, TotalLine};
use plan_memory::Memory;
use texts::{put_named, put_text};

// Appends the line of a total's numbers.
#[tactic(auto, using(texts::proofs::Growth::grows_after))]
fn put_numbers(out: &mut Vec<u8>, total: Total) -> Result<(), Memory>
    ensures { Puts out.old.items out.new.items (ended (spaced (numbers_words total))) result }
{
    put_named(out, b"total ", u64::from(total.pallets))?;
    put_named(out, b" x ", u64::from(total.cases))?;
    put_named(out, b" of ", u64::from(total.pallet_bound))?;
    put_named(out, b" x ", u64::from(total.case_bound))?;
    if total.optimal {
        put_text(out, b" optimal\n")
    } else {
        put_text(out, b" open\n")
    }
}

// Appends the line, or a part of it.
fn put_line(out: &mut Vec<u8>, line: &TotalLine) -> Result<(), Memory>
    ensures { Puts out.old.items out.new.items (ended (total_line line.now)) result }
{
    match line {
        TotalLine::Numbers(total) => put_numbers(out, *total),
        TotalLine::Nothing => put_text(out, b"total none\n"),
    }
}

/// Appends the line of a total, as `total 34 x 56 of 34 x 56 optimal`, with `open` in place of the last word where the
/// products differ, or `total none`. After `Memory` `out` is as before. `get_total` gets the line back where both numbers
/// of pallets are from 1 to 1,000 and both of cases at most 10,000,000.
#[tactic(auto, using(texts::proofs::Growth::cut_back))]
pub fn put_total(out: &mut Vec<u8>, line: &TotalLine) -> Result<(), Memory>
    ensures ok { OnOk result (out.new.items ≡ out.old.items ++ total_text line.now) }
    ensures err { OnErr result (out.new.items ≡ out.old.items) }
{
    let len = out.len();
    match put_line(out, line) {
        Ok(()) => Ok(()),
        Err(memory) => {
            out.truncate(len);
            Err(memory)
        }
    }
}
