// Reading a floors file or the text of a floor, and the answer of a run that gets none.
ghost use Rattle.std.specs.Prelude.{◌≡◌, ◌≤◌, List, ℕ, length, IfOk, IfErr};
ghost use Rattle.plan_io.specs.Streams.{Intake, at_end};
ghost use Rattle.report_reading.specs.Reading.{most_bytes};
ghost use Rattle.floor_text.specs.Text.{IsFloorIn};
ghost use Rattle.floor_mode.specs.FloorsFiles.{HasFloors, FoundNoFloors};
ghost use Rattle.floor_mode.specs.Reading.{HasFloorText, GotNoFloor};

use floor_text::{ReportFault, Rows, check_floor_text};
use order_reader::{ReadStop, Row};
use plan_io::Source;
use report_reading::{bad_report, plain};
use run_parts::{Answer, Code, read_input};
use std::alloc::Global;
use truck_floor::read_floor;

/// How many bytes a floors file may have.
const MOST_FILE_BYTES: usize = 262144;

/// How many bytes the text of a floor may have.
const MOST_BYTES: usize = 268435456;

// The rows of a floors file that is read to its end, two for each of its own; or the code of the run where it has none.
pub(crate) fn read_rows<S: Source>(alloc: Global, source: &mut S) -> Result<Vec<Row>, Code>
    ensures rows { IfOk result (λ rows. (read : List ℕ) × (S.past source.new ≡ at_end (S.past source.old) read)
        × HasFloors read rows.items) }
    ensures no_rows { IfErr result (λ code. FoundNoFloors (S.past source.old) code (S.past source.new)) }
{
    let bytes = read_input(alloc, source, MOST_FILE_BYTES)?;
    match read_floor(alloc, &bytes) {
        Ok(rows) => Ok(rows),
        Err(ReadStop::NoHeader) => Err(Code::NoHeader),
        Err(ReadStop::TooManyRows) => Err(Code::TooManyRows),
        Err(ReadStop::Memory) => Err(Code::Memory),
    }
}

// All bytes of the source, which may be the text of a floor; or the answer of a run that has none.
pub(crate) fn read_bytes<S: Source>(alloc: Global, source: &mut S) -> Result<Vec<u8>, Answer>
    ensures read { IfOk result (λ bytes. S.past source.new ≡ at_end (S.past source.old) bytes.items) }
    ensures few { IfOk result (λ bytes. length bytes.items ≤ most_bytes) }
    ensures none { IfErr result (λ a. GotNoFloor (S.past source.old) a.code a.line (S.past source.new)) }
{
    match read_input(alloc, source, MOST_BYTES) {
        Ok(bytes) => Ok(bytes),
        Err(code) => Err(plain(code)),
    }
}

// The rows of the floor whose text these bytes are, all of its source; or the answer of a run that has none.
pub(crate) fn rows_of(alloc: Global, bytes: &[u8]) -> Result<Rows<'_>, Answer>
    requires { length bytes.now ≤ most_bytes }
    ensures found { IfOk result (λ rows. HasFloorText bytes.now rows) }
    ensures none { IfErr result (λ a. (from : Intake) → GotNoFloor from a.code a.line (at_end from bytes.now)) }
{
    match check_floor_text(alloc, bytes) {
        Ok(rows) => Ok(rows),
        Err(ReportFault::Memory) => Err(plain(Code::Memory)),
        Err(ReportFault::Line(line)) => Err(bad_report(line)),
    }
}
