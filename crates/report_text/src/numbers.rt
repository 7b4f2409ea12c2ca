ghost use Rattle.std.specs.Prelude.{◌≡◌, ◌≤◌, IfSome};
ghost use Rattle.texts.specs.Gives.{GivesOption};
ghost use Rattle.plan_entries.specs.Ranges.{most_entries as most_entries_of, most_cases as most_cases_of};
ghost use Rattle.report_text.specs.Words.{named_of, number_of_line, count_of_line, bound_of_line, status_of_line, reduced_of_line};
ghost use Rattle.report_text.specs.Sides.{inst_of as inst_with};

use cert_text::Form;
use plan_entries::Status;
use plan_geometry::Inst;
use texts::{is_end, number_word, skip_word};

/// The greatest side of an instance.
const MOST_SIDE: u64 = 4_000;

// The most entries of a report of the form.
pub(crate) fn most_entries(form: Form) -> u32
    ensures value { result ≡ most_entries_of form }
    ensures few { result ≤ 256 }
{
    match form {
        Form::One => 64,
        Form::Two => 256,
    }
}

// The greatest count and bound of the form.
fn most_cases(form: Form) -> u32
    ensures value { result ≡ most_cases_of form }
    ensures few { result ≤ 1000 }
{
    match form {
        Form::One => 400,
        Form::Two => 1_000,
    }
}

// The number behind a name, if it is from 1 to the most.
#[tactic(auto, unfolding(crate::specs::Words::named_at, crate::specs::Words::named_of))]
fn named_line(name: &[u8], most: u32, line: &[u8]) -> Option<u32>
    ensures { result ≡ named_of name.now most line.now }
{
    let rest = skip_word(Some(line), name)?;
    let (number, rest) = number_word(rest, u64::from(most))?;
    if 1 <= number && is_end(rest) {
        Some(number as u32)
    } else {
        None
    }
}

// The number of an entry.
pub(crate) fn number_line(form: Form, line: &[u8]) -> Option<u32>
    ensures { result ≡ number_of_line form line.now }
{
    named_line(b"entry", most_entries(form), line)
}

// How many cases a layer has.
pub(crate) fn count_line(form: Form, line: &[u8]) -> Option<u32>
    ensures { result ≡ count_of_line form line.now }
{
    named_line(b"count", most_cases(form), line)
}

// How many cases no layer exceeds.
pub(crate) fn bound_line(form: Form, line: &[u8]) -> Option<u32>
    ensures { result ≡ bound_of_line form line.now }
{
    named_line(b"bound", most_cases(form), line)
}

pub(crate) fn status_line(line: &[u8]) -> Option<Status>
    ensures { result ≡ status_of_line line.now }
{
    if line == b"status optimal".as_slice() {
        Some(Status::Optimal)
    } else if line == b"status open".as_slice() {
        Some(Status::StillOpen)
    } else {
        None
    }
}

// The instance that was planned.
#[tactic(auto, unfolding(crate::specs::Words::reduced_at, crate::specs::Words::reduced_of_line))]
pub(crate) fn reduced_line(line: &[u8]) -> Option<Inst>
    ensures { result ≡ reduced_of_line line.now }
{
    let rest = skip_word(Some(line), b"reduced")?;
    let (l_side, rest) = number_word(rest, MOST_SIDE)?;
    let (w_side, rest) = number_word(rest, MOST_SIDE)?;
    let (long, rest) = number_word(rest, MOST_SIDE)?;
    let (short, rest) = number_word(rest, MOST_SIDE)?;
    let inst = inst_of(l_side as u32, w_side as u32, long as u32, short as u32)?;
    if is_end(rest) { Some(inst) } else { None }
}

// The instance of these numbers.
fn inst_of(l_side: u32, w_side: u32, long: u32, short: u32) -> Option<Inst>
    ensures { result ≡ inst_with l_side w_side long short }
{
    Inst::new(l_side, w_side, long, short)
}
