// Reading a report, and the answer of a run that gets none.
ghost use Rattle.std.specs.Prelude.{◌≡◌, ◌≤◌, ◌∷◌, [], length, IfOk, IfErr, IsErrOf, MatchOption};
ghost use Rattle.plan_io.specs.Streams.{Intake, at_end};
ghost use Rattle.report_reading.specs.Reading.{most_bytes, HasReport, GotNoReport};

use plan_entries::Entry;
use plan_io::Source;
use plan_memory::Memory;
use report_text::{Entries, ReportFault, check_text};
use run_parts::{Answer, Code, WriteStop, read_input};
use std::alloc::Global;

/// How many bytes a report may have.
const MOST_BYTES: usize = 268435456;

/// All bytes of the source, which may be those of a report; or the answer of a run that has none.
pub fn read_bytes<S: Source>(alloc: Global, source: &mut S) -> Result<Vec<u8>, Answer>
    ensures read { IfOk result (λ bytes. S.past source.new ≡ at_end (S.past source.old) bytes.items) }
    ensures few { IfOk result (λ bytes. length bytes.items ≤ most_bytes) }
    ensures none { IfErr result (λ a. GotNoReport (S.past source.old) a.code a.line (S.past source.new)) }
{
    match read_input(alloc, source, MOST_BYTES) {
        Ok(bytes) => Ok(bytes),
        Err(code) => Err(plain(code)),
    }
}

/// The entries of the report whose text these bytes are, all of its source; or the answer of a run that has none.
pub fn entries_of(alloc: Global, bytes: &[u8]) -> Result<Entries<'_>, Answer>
    requires { length bytes.now ≤ most_bytes }
    ensures found { IfOk result (λ r. HasReport bytes.now r) }
    ensures none { IfErr result (λ a. (from : Intake) → GotNoReport from a.code a.line (at_end from bytes.now)) }
{
    match check_text(alloc, bytes) {
        Ok(entries) => Ok(entries),
        Err(ReportFault::Memory) => Err(plain(Code::Memory)),
        Err(ReportFault::Line(line)) => Err(bad_report(line)),
    }
}

/// The next entry, if one is left.
pub fn next_entry(alloc: Global, entries: &mut Entries<'_>) -> Result<Option<Entry>, WriteStop>
    ensures next { IfOk result (λ next. MatchOption next (entries.old.entries ≡ []) (λ e. entries.old.entries ≡ e ∷ entries.new.entries)) }
    ensures only { IsErrOf result WriteStop.Fault → ⊥ }
{
    match entries.next(alloc) {
        Ok(next) => Ok(next),
        Err(Memory) => Err(WriteStop::Memory),
    }
}

/// The answer of a run that found no line at fault.
pub fn plain(code: Code) -> Answer
    ensures code { result.code ≡ code }
    ensures line { result.line ≡ 0 }
{
    Answer { code, line: 0 }
}

/// The answer of a run whose input is no report, or no other text that it reads, from this line on.
pub fn bad_report(line: u32) -> Answer
    ensures code { result.code ≡ Code.BadReport }
    ensures line { result.line ≡ line }
{
    Answer {
        code: Code::BadReport,
        line,
    }
}
