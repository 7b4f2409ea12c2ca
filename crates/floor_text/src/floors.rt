ghost use Rattle.std.specs.Prelude.{◌≡◌, ◌+◌, ◌≤◌, List, length, IfOk};
ghost use Rattle.texts.specs.Gives.{Gives};
ghost use Rattle.texts.specs.Lines.{whole_lines, unfinished};
ghost use Rattle.texts.specs.Spelling.{FaultsAt};
ghost use Rattle.report_text.specs.ReportAnswers.{IfReportLine};
ghost use Rattle.floor_text.specs.declared.rows.FloorRow.{FloorRow};
ghost use Rattle.floor_text.specs.Text.{floor_lines, floor_text, IsFloor, IsFloorIn};
ghost use Rattle.floor_text.specs.Lines.{floor_at};
ghost use Rattle.floor_text.specs.Answers.{GivesRows};

use crate::cursors::Rows;
use crate::heads::after_head;
use crate::readers::rows_at;
use choice_text::done_at;
use report_text::ReportFault;
use std::alloc::Global;
use texts::{Stop, count_lines};

// The rows of the floor whose text is in front, and the bytes after it.
#[tactic(auto, unfolding(crate::specs::Lines::floor_at))]
fn floor_from(alloc: Global, bytes: &[u8]) -> Result<(Rows<'_>, &[u8]), Stop>
    ensures read { Gives (λ x. (x.0, whole_lines x.1.now)) result (floor_at (whole_lines bytes.now)) }
    ensures rest { IfOk result (λ x. unfinished x.1.now ≡ unfinished bytes.now) }
{
    let rest = after_head(bytes)?;
    let (rows, rest) = rows_at(alloc, rest)?;
    let (_, rest) = done_at(rest, 2 * rows.left())?;
    Ok((rows, rest))
}

// The number of the line before which all but so many lines stand.
fn line_before(bytes: &[u8], left: usize) -> u32
    requires within { left ≤ length (whole_lines bytes.now) }
    requires few { length (whole_lines bytes.now) ≤ left + 31000000 }
    ensures { result + left ≡ length (whole_lines bytes.now) + 1 }
{
    let line = count_lines(bytes) - left + 1;
    line as u32
}

/// Reads the text of a floor once, and keeps no entry. The rows can then be read one after another.
/// `ReportFault::Line` exactly where the bytes are no floor's text, with the first line, from 1, with which none goes on:
/// after a whole text this is the line after the last, and where the bytes end too early, also inside a line, the one
/// after the last whole line.
pub fn check_floor_text(alloc: Global, bytes: &[u8]) -> Result<Rows<'_>, ReportFault>
    // The bytes are the text of these rows.
    ensures found { IfOk result (λ rows. IsFloorIn bytes.now rows) }
    // Of a floor's text the rows are got, unless memory is refused.
    ensures only { (rows : List FloorRow) → IsFloor rows → bytes.now ≡ floor_text rows → GivesRows rows result }
    // A fault names the first line with which no text goes on.
    ensures fault { IfReportLine result (FaultsAt floor_lines IsFloor bytes.now) }
{
    match floor_from(alloc, bytes) {
        Ok((rows, rest)) => {
            if rest.is_empty() {
                Ok(rows)
            } else {
                Err(ReportFault::Line(line_before(bytes, count_lines(rest))))
            }
        }
        Err(Stop::Memory) => Err(ReportFault::Memory),
        Err(Stop::Left(left)) => Err(ReportFault::Line(line_before(bytes, left))),
    }
}
