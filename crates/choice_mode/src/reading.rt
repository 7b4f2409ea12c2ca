// Reading the text of a choice, and the answer of a run that gets none.
ghost use Rattle.std.specs.Prelude.{◌≡◌, ◌≤◌, length, IfOk, IfErr};
ghost use Rattle.plan_io.specs.Streams.{Intake, at_end};
ghost use Rattle.report_reading.specs.Reading.{most_bytes};
ghost use Rattle.choice_text.specs.Answers.{file_in};
ghost use Rattle.choice_mode.specs.Reading.{HasChoice, GotNoChoice};

use choice_text::{ChoiceText, ReportFault, check_choice_text};
use plan_io::Source;
use report_reading::{bad_report, plain};
use run_parts::{Answer, Code, read_input};
use std::alloc::Global;

/// How many bytes the text of a choice may have.
const MOST_BYTES: usize = 268435456;

// All bytes of the source, which may be the text of a choice; or the answer of a run that has none.
pub(crate) fn read_bytes<S: Source>(alloc: Global, source: &mut S) -> Result<Vec<u8>, Answer>
    ensures read { IfOk result (λ bytes. S.past source.new ≡ at_end (S.past source.old) bytes.items) }
    ensures few { IfOk result (λ bytes. length bytes.items ≤ most_bytes) }
    ensures none { IfErr result (λ a. GotNoChoice (S.past source.old) a.code a.line (S.past source.new)) }
{
    match read_input(alloc, source, MOST_BYTES) {
        Ok(bytes) => Ok(bytes),
        Err(code) => Err(plain(code)),
    }
}

// The choice whose text these bytes are, all of its source; or the answer of a run that has none.
pub(crate) fn choice_of(alloc: Global, bytes: &[u8]) -> Result<ChoiceText<'_>, Answer>
    requires { length bytes.now ≤ most_bytes }
    ensures found { IfOk result (λ r. HasChoice bytes.now (file_in r)) }
    ensures none { IfErr result (λ a. (from : Intake) → GotNoChoice from a.code a.line (at_end from bytes.now)) }
{
    match check_choice_text(alloc, bytes) {
        Ok(choice) => Ok(choice),
        Err(ReportFault::Memory) => Err(plain(Code::Memory)),
        Err(ReportFault::Line(line)) => Err(bad_report(line)),
    }
}
