ghost use Rattle.std.specs.Prelude.{◌≡◌, ◌+◌, ◌≤◌, length, IfOk};
ghost use Rattle.texts.specs.Gives.{Gives};
ghost use Rattle.texts.specs.Lines.{whole_lines, unfinished};
ghost use Rattle.texts.specs.Spelling.{FaultsAt};
ghost use Rattle.pallet_choice.specs.Text.{tail_value};
ghost use Rattle.report_text.specs.ReportAnswers.{IfReportLine};
ghost use Rattle.choice_text.specs.Text.{ChoiceFile, file_lines, file_text, IsChoiceFile, IsChoiceIn};
ghost use Rattle.choice_text.specs.Lines.{end_at, file_at};
ghost use Rattle.choice_text.specs.Answers.{file_in, GivesChoice};

use crate::cursors::Entries;
use crate::entries::entries_at;
use crate::heads::after_head;
use crate::lines::done_at;
use pallet_choice::{Tail, tail_from};
use report_text::ReportFault;
use std::alloc::Global;
use texts::{Stop, count_lines};

/// What was read of a choice's text.
#[derive(Drop)]
pub struct ChoiceText<'a> {
    /// The entries, which are still in the text.
    pub entries: Entries<'a>,
    /// What the text tells of the chosen entry and its rivals.
    pub tail: Tail,
}

// The chosen entry and its rivals, and the bytes after the line of the number of entries.
#[tactic(auto, unfolding(crate::specs::Lines::end_at))]
fn end_from(alloc: Global, bytes: &[u8], count: u32) -> Result<(Tail, &[u8]), Stop>
    ensures read { Gives (λ x. (tail_value x.0, whole_lines x.1.now)) result (end_at count (whole_lines bytes.now)) }
    ensures rest { IfOk result (λ x. unfinished x.1.now ≡ unfinished bytes.now) }
{
    let (tail, rest) = tail_from(alloc, bytes)?;
    let (_, rest) = done_at(rest, count)?;
    Ok((tail, rest))
}

// The choice whose text is in front, and the bytes after it.
#[tactic(auto, unfolding(crate::specs::Lines::file_at))]
fn choice_from(alloc: Global, bytes: &[u8]) -> Result<(ChoiceText<'_>, &[u8]), Stop>
    ensures read { Gives (λ x. (file_in x.0, whole_lines x.1.now)) result (file_at (whole_lines bytes.now)) }
    ensures rest { IfOk result (λ x. unfinished x.1.now ≡ unfinished bytes.now) }
{
    let rest = after_head(bytes)?;
    let (entries, rest) = entries_at(alloc, rest)?;
    let (tail, rest) = end_from(alloc, rest, entries.left())?;
    Ok((ChoiceText { entries, tail }, rest))
}

// The number of the line before which all but so many lines stand.
fn line_before(bytes: &[u8], left: usize) -> u32
    requires within { left ≤ length (whole_lines bytes.now) }
    requires few { length (whole_lines bytes.now) ≤ left + 31000000 }
    ensures { result + left ≡ length (whole_lines bytes.now) + 1 }
{
    let line = count_lines(bytes) - left + 1;
    line as u32
}

/// Reads the text of a choice once, and keeps no entry. The entries can then be read one after another.
/// `ReportFault::Line` exactly where the bytes are no choice's text, with the first line, from 1, with which none goes
/// on: after a whole text this is the line after the last, and where the bytes end too early, also inside a line, the
/// one after the last whole line.
pub fn check_choice_text(alloc: Global, bytes: &[u8]) -> Result<ChoiceText<'_>, ReportFault>
    // The bytes are the text of this choice.
    ensures found { IfOk result (λ r. IsChoiceIn bytes.now (file_in r)) }
    // Of a choice's text the choice is got, unless memory is refused.
    ensures only { (f : ChoiceFile) → IsChoiceFile f → bytes.now ≡ file_text f → GivesChoice f result }
    // A fault names the first line with which no text goes on.
    ensures fault { IfReportLine result (FaultsAt file_lines IsChoiceFile bytes.now) }
{
    match choice_from(alloc, bytes) {
        Ok((choice, rest)) => {
            if rest.is_empty() {
                Ok(choice)
            } else {
                Err(ReportFault::Line(line_before(bytes, count_lines(rest))))
            }
        }
        Err(Stop::Memory) => Err(ReportFault::Memory),
        Err(Stop::Left(left)) => Err(ReportFault::Line(line_before(bytes, left))),
    }
}
