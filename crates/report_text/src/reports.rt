ghost use Rattle.std.specs.Prelude.{◌≡◌, ℕ, ◌+◌, ◌≤◌, List, length, IfOk, Ok};
ghost use Rattle.texts.specs.Grammar.{first_by};
ghost use Rattle.texts.specs.Gives.{Gives};
ghost use Rattle.texts.specs.Lines.{whole_lines, unfinished};
ghost use Rattle.texts.specs.Spelling.{FaultsAt};
ghost use Rattle.plan_entries.specs.declared.entries.Entry.{Entry};
ghost use Rattle.cert_text.specs.declared.forms.Form.{Form};
ghost use Rattle.report_text.specs.ReportLines.{form_of, entries_counted};
ghost use Rattle.report_text.specs.Reports.{report_lines, report_text, AreReported, IsReport};
ghost use Rattle.report_text.specs.ReportAnswers.{IsReportIn, GivesReport, IfReportLine};

use crate::cursors::Entries;
use crate::entries::entry_behind;
use crate::nexts::{Next, done_at, form_at, next_at};
use crate::numbers::most_entries;
use cert_text::Form;
use std::alloc::Global;
use texts::{Stop, count_lines};

/// Why bytes are no report.
#[derive(Clone, Copy, PartialEq, Eq, Debug)]
pub enum ReportFault {
    /// Memory was refused.
    Memory,
    /// The first line, from 1, with which no report's text of either form goes on.
    Line(u32),
}

// How many entries there are, and the bytes behind the line of their number.
fn count_entries(alloc: Global, form: Form, bytes: &[u8]) -> Result<(u32, &[u8]), Stop>
    ensures read { Gives (λ x. (x.0, whole_lines x.1.now)) result (entries_counted form (whole_lines bytes.now)) }
    ensures rest { IfOk result (λ x. unfinished x.1.now ≡ unfinished bytes.now) }
{
    let mut rest = bytes;
    let most = most_entries(form);
    for before in 0..most {
        let (next, after) = next_at(before, rest)?;
        match next {
            Next::Done => return Ok((before, after)),
            Next::More => {
                let (_entry, behind) = entry_behind(alloc, form, before + 1, after)?;
                rest = behind;
            }
        }
    }
    let (_, rest) = done_at(most, rest)?;
    Ok((most, rest))
}

// The number of the line before which all but so many lines stand.
fn line_before(bytes: &[u8], left: usize) -> u32
    requires within { left ≤ length (whole_lines bytes.now) }
    requires few { length (whole_lines bytes.now) ≤ left + 30800000 }
    ensures { result + left ≡ length (whole_lines bytes.now) + 1 }
{
    let line = count_lines(bytes) - left + 1;
    line as u32
}

// Reads the entries of a report whose first line was read.
fn check_entries<'a>(
    alloc: Global,
    form: Form,
    bytes: &[u8],
    entries: &'a [u8],
) -> Result<Entries<'a>, ReportFault>
    requires form { first_by form_of (whole_lines bytes.now) ≡ Ok (form, whole_lines entries.now) }
    requires rest { unfinished entries.now ≡ unfinished bytes.now }
    ensures found { IfOk result (λ r. IsReportIn bytes.now r) }
    ensures only { (form : Form) (entries : List Entry) → AreReported form entries → bytes.now ≡ report_text form entries → GivesReport form entries result }
    ensures fault { IfReportLine result (FaultsAt report_lines IsReport bytes.now) }
{
    match count_entries(alloc, form, entries) {
        Ok((left, rest)) => {
            if rest.is_empty() {
                Ok(Entries::new(form, left, entries))
            } else {
                Err(ReportFault::Line(line_before(bytes, count_lines(rest))))
            }
        }
        Err(Stop::Memory) => Err(ReportFault::Memory),
        Err(Stop::Left(left)) => Err(ReportFault::Line(line_before(bytes, left))),
    }
}

/// Reads the text of a report once, and keeps no entry. The entries can then be read one after another.
/// `ReportFault::Line` exactly where the bytes are no report's text of either form, with the first line, from 1, with
/// which none goes on: behind a whole text this is the line after the last, and where the bytes end too early, also
/// inside a line, the one after the last whole line.
pub fn check_text(alloc: Global, bytes: &[u8]) -> Result<Entries<'_>, ReportFault>
    // The bytes are the text of this report.
    ensures found { IfOk result (λ r. IsReportIn bytes.now r) }
    // Of a report's text the report is got, unless memory is refused.
    ensures only { (form : Form) (entries : List Entry) → AreReported form entries → bytes.now ≡ report_text form entries → GivesReport form entries result }
    // A fault names the first line with which no text goes on.
    ensures fault { IfReportLine result (FaultsAt report_lines IsReport bytes.now) }
{
    match form_at(bytes) {
        Ok((form, entries)) => check_entries(alloc, form, bytes, entries),
        Err(left) => Err(ReportFault::Line(line_before(bytes, left.count))),
    }
}
