// Reading a row, and all rows.
ghost use Rattle.std.specs.Prelude.{◌≡◌, ◌≤◌, length, IfOk};
ghost use Rattle.texts.specs.Grammar.{first_by};
ghost use Rattle.texts.specs.Gives.{Gives, GivesOrLeaves};
ghost use Rattle.texts.specs.Lines.{whole_lines, unfinished};
ghost use Rattle.truck_floor.specs.Words.{total_of as total_told};
ghost use Rattle.floor_text.specs.Lines.{numbered_entry_at, row_at, rows_counted, all_rows_at};

use crate::cursors::Rows;
use crate::rows::FloorRow;
use cert_text::Form;
use choice_text::entry_follows;
use plan_entries::Entry;
use report_text::entry_from;
use std::alloc::Global;
use texts::{LinesLeft, Stop, count_lines, next_line};
use truck_floor::{TotalLine, total_of};

/// The most rows of a floor's text.
const MOST_ROWS: u32 = 128;

// The entry of this number, which is in front, and the bytes after it.
#[tactic(auto, unfolding(crate::specs::Lines::numbered_entry_at))]
fn numbered_entry(alloc: Global, bytes: &[u8], number: u32) -> Result<(Entry, &[u8]), Stop>
    ensures read { Gives (λ x. (x.0, whole_lines x.1.now)) result (numbered_entry_at number (whole_lines bytes.now)) }
    ensures rest { IfOk result (λ x. unfinished x.1.now ≡ unfinished bytes.now) }
{
    if entry_follows(bytes, number) {
        entry_from(alloc, bytes, Form::Two)
    } else {
        Err(Stop::Left(count_lines(bytes)))
    }
}

// The total whose line is in front, and the bytes after it.
fn total_from(bytes: &[u8]) -> Result<(TotalLine, &[u8]), LinesLeft>
    ensures read { GivesOrLeaves (λ x. (x.0, whole_lines x.1.now)) result (first_by total_told (whole_lines bytes.now)) }
    ensures rest { IfOk result (λ x. unfinished x.1.now ≡ unfinished bytes.now) }
{
    let Some((line, rest)) = next_line(bytes) else {
        return Err(LinesLeft { count: 0 });
    };
    match total_of(line) {
        Some(total) => Ok((total, rest)),
        None => Err(LinesLeft {
            count: count_lines(bytes),
        }),
    }
}

// The row that is in front, behind so many rows, and the bytes after it.
#[tactic(auto, unfolding(crate::specs::Lines::row_at))]
pub(crate) fn row_from(alloc: Global, bytes: &[u8], before: u32) -> Result<(FloorRow, &[u8]), Stop>
    requires { before ≤ 128 }
    ensures read { Gives (λ x. (x.0, whole_lines x.1.now)) result (row_at before (whole_lines bytes.now)) }
    ensures rest { IfOk result (λ x. unfinished x.1.now ≡ unfinished bytes.now) }
{
    let (floor, rest) = numbered_entry(alloc, bytes, 2 * before + 1)?;
    let (load, rest) = numbered_entry(alloc, rest, 2 * before + 2)?;
    let (total, rest) = total_from(rest)?;
    Ok((FloorRow { floor, load, total }, rest))
}

// How many rows follow one after another, and the bytes after them.
fn count_rows(alloc: Global, bytes: &[u8]) -> Result<(u32, &[u8]), Stop>
    ensures read { Gives (λ x. (x.0, whole_lines x.1.now)) result (rows_counted (whole_lines bytes.now)) }
    ensures rest { IfOk result (λ x. unfinished x.1.now ≡ unfinished bytes.now) }
{
    let mut rest = bytes;
    for before in 0..MOST_ROWS {
        if !entry_follows(rest, 2 * before + 1) {
            return Ok((before, rest));
        }
        let (_row, after) = row_from(alloc, rest, before)?;
        rest = after;
    }
    Ok((MOST_ROWS, rest))
}

// The rows that follow one after another, and the bytes after them.
pub(crate) fn rows_at(alloc: Global, bytes: &[u8]) -> Result<(Rows<'_>, &[u8]), Stop>
    ensures read { Gives (λ x. (x.0, whole_lines x.1.now)) result (all_rows_at (whole_lines bytes.now)) }
    ensures few { IfOk result (λ x. length x.0 ≤ 128) }
    ensures rest { IfOk result (λ x. unfinished x.1.now ≡ unfinished bytes.now) }
{
    let (count, rest) = count_rows(alloc, bytes)?;
    Ok((Rows::new(count, bytes), rest))
}
