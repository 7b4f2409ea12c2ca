ghost use Rattle.std.specs.Prelude.{◌≡◌, ◌++◌, ℕ, List, length, IfOk};
ghost use Rattle.texts.specs.Grammar.{first_by};
ghost use Rattle.texts.specs.Gives.{Gives, GivesOrLeaves};
ghost use Rattle.texts.specs.Lines.{whole_lines, unfinished};
ghost use Rattle.texts.specs.Spelling.{FaultsAt, IsInFront};
ghost use Rattle.plan_entries.specs.Ranges.{IsInRange};
ghost use Rattle.plan_entries.specs.declared.entries.Entry.{Entry};
ghost use Rattle.report_text.specs.LineTexts.{end_line};
ghost use Rattle.report_text.specs.Text.{entry_lines, entry_text};
ghost use Rattle.report_text.specs.Words.{number_of_line, second_of};
ghost use Rattle.report_text.specs.Lines.{behind_line, plan_from as plan_read, entry_of_second as entry_of_second_read, entry_behind as entry_behind_read, entry_at};
ghost use Rattle.report_text.specs.Answers.{GivesEntry, IfLine};

use crate::heads::head_from;
use crate::numbers::number_line;
use crate::seconds::{Second, second_line};
use cert_text::{Form, cert_from};
use listing_text::{answer_from, layers_from};
use plan_entries::{Entry, Plan};
use std::alloc::Global;
use texts::{LineStop, LinesLeft, Stop, count_lines, next_line};

/// Why no entry was got.
#[derive(Clone, Copy, PartialEq, Eq, Debug)]
pub enum EntryFault {
    /// Memory was refused.
    Memory,
    /// The first line, from 1, with which no entry's text goes on.
    Line(u32),
}

fn number_at(form: Form, bytes: &[u8]) -> Result<(u32, &[u8]), LinesLeft>
    ensures read { GivesOrLeaves (λ x. (x.0, whole_lines x.1.now)) result (first_by (number_of_line form) (whole_lines bytes.now)) }
    ensures rest { IfOk result (λ x. unfinished x.1.now ≡ unfinished bytes.now) }
{
    let Some((line, rest)) = next_line(bytes) else {
        return Err(LinesLeft { count: 0 });
    };
    match number_line(form, line) {
        Some(number) => Ok((number, rest)),
        None => Err(LinesLeft {
            count: count_lines(bytes),
        }),
    }
}

fn second_at(alloc: Global, form: Form, bytes: &[u8]) -> Result<(Second, &[u8]), Stop>
    ensures read { Gives (λ x. (x.0, whole_lines x.1.now)) result (first_by (second_of form) (whole_lines bytes.now)) }
    ensures rest { IfOk result (λ x. unfinished x.1.now ≡ unfinished bytes.now) }
{
    let Some((line, rest)) = next_line(bytes) else {
        return Err(Stop::Left(0));
    };
    match second_line(alloc, form, line) {
        Ok(second) => Ok((second, rest)),
        Err(LineStop::Memory) => Err(Stop::Memory),
        Err(LineStop::Fault) => Err(Stop::Left(count_lines(bytes))),
    }
}

// The bytes behind the last line of an entry.
fn end_at(bytes: &[u8]) -> Result<&[u8], LinesLeft>
    ensures read { GivesOrLeaves (λ x. whole_lines x.now) result (behind_line end_line (whole_lines bytes.now)) }
    ensures rest { IfOk result (λ x. unfinished x.now ≡ unfinished bytes.now) }
{
    let Some((line, rest)) = next_line(bytes) else {
        return Err(LinesLeft { count: 0 });
    };
    if line == b"end".as_slice() {
        Ok(rest)
    } else {
        Err(LinesLeft {
            count: count_lines(bytes),
        })
    }
}

// A plan whose number and id were read.
#[tactic(auto, unfolding(crate::specs::Lines::plan_from))]
fn plan_from<'a>(
    alloc: Global,
    form: Form,
    number: u32,
    id: &[u8],
    bytes: &'a [u8],
) -> Result<(Plan, &'a [u8]), Stop>
    ensures read { Gives (λ x. (x.0, whole_lines x.1.now)) result (plan_read form number id.now (whole_lines bytes.now)) }
    ensures rest { IfOk result (λ x. unfinished x.1.now ≡ unfinished bytes.now) }
{
    let (head, rest) = head_from(alloc, form, id, bytes)?;
    let (cert, rest) = cert_from(alloc, rest, form)?;
    let (layers, rest) = layers_from(alloc, rest, head.count)?;
    let variants = layers.as_slice().len();
    let ((allowed, stack), rest) = answer_from(alloc, rest, &head.order, variants)?;
    let rest = end_at(rest)?;
    let plan = Plan {
        number,
        order: head.order,
        reduced: head.reduced,
        count: head.count,
        bound: head.bound,
        status: head.status,
        cert,
        layers,
        allowed,
        stack,
    };
    Ok((plan, rest))
}

// An entry whose number and second line were read.
#[tactic(auto, unfolding(crate::specs::Lines::entry_of_second))]
fn entry_of_second(
    alloc: Global,
    form: Form,
    number: u32,
    second: Second,
    bytes: &[u8],
) -> Result<(Entry, &[u8]), Stop>
    ensures read { Gives (λ x. (x.0, whole_lines x.1.now)) result (entry_of_second_read form number second (whole_lines bytes.now)) }
    ensures rest { IfOk result (λ x. unfinished x.1.now ≡ unfinished bytes.now) }
{
    match second {
        Second::Id(id) => {
            let (plan, rest) = plan_from(alloc, form, number, id.as_slice(), bytes)?;
            Ok((Entry::Planned(plan), rest))
        }
        Second::Fault(fault) => {
            let rest = end_at(bytes)?;
            Ok((Entry::Refused { number, fault }, rest))
        }
    }
}

// An entry whose number was read.
#[tactic(auto, unfolding(crate::specs::Lines::entry_behind))]
pub(crate) fn entry_behind(
    alloc: Global,
    form: Form,
    number: u32,
    bytes: &[u8],
) -> Result<(Entry, &[u8]), Stop>
    ensures read { Gives (λ x. (x.0, whole_lines x.1.now)) result (entry_behind_read form number (whole_lines bytes.now)) }
    ensures rest { IfOk result (λ x. unfinished x.1.now ≡ unfinished bytes.now) }
{
    let (second, rest) = second_at(alloc, form, bytes)?;
    entry_of_second(alloc, form, number, second, rest)
}

/// The entry whose text of the form is at the front, and the bytes behind it; or how many lines were left at the
/// first fault.
#[tactic(auto, unfolding(crate::specs::Lines::entry_at))]
pub fn entry_from(alloc: Global, bytes: &[u8], form: Form) -> Result<(Entry, &[u8]), Stop>
    ensures read { Gives (λ x. (x.0, whole_lines x.1.now)) result (entry_at form (whole_lines bytes.now)) }
    ensures rest { IfOk result (λ x. unfinished x.1.now ≡ unfinished bytes.now) }
{
    let (number, rest) = number_at(form, bytes)?;
    entry_behind(alloc, form, number, rest)
}

/// The entry whose text of the form is at the front, and the text's length. `EntryFault::Line` exactly where no text
/// is at the front, with the first line, from 1, with which none goes on.
pub fn get_entry(alloc: Global, bytes: &[u8], form: Form) -> Result<(Entry, usize), EntryFault>
    // What is got is in range, and its text is at the front.
    ensures found { IfOk result (λ x. IsInFront (entry_lines form) (IsInRange form) bytes.now x.0 x.1) }
    // Where some text is at the front, its entry is got, unless memory is refused.
    ensures only { (e : Entry) (behind : List ℕ) → IsInRange form e → bytes.now ≡ entry_text form e ++ behind → GivesEntry e (length (entry_text form e)) result }
    // A fault names the first line with which no text goes on.
    ensures fault { IfLine result (FaultsAt (entry_lines form) (IsInRange form) bytes.now) }
{
    match entry_from(alloc, bytes, form) {
        Ok((entry, rest)) => {
            let len = bytes.len() - rest.len();
            Ok((entry, len))
        }
        Err(Stop::Memory) => Err(EntryFault::Memory),
        Err(Stop::Left(left)) => {
            let line = count_lines(bytes) - left + 1;
            Err(EntryFault::Line(line as u32))
        }
    }
}
