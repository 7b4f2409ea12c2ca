// Writing the entries of floors and of loads, and their totals.
ghost use Rattle.std.specs.Prelude.{◌≡◌, ◌≢◌, ◌≤◌, ◌⊎◌, ◌++◌, ◌||◌, ◌*◌, ◌+◌, ◌/◌, ◌∷◌, [], List, length, IfOk, IsErrOf};
ghost use Rattle.plan_io.specs.Causes.{Rose};
ghost use Rattle.run_parts.specs.Codes.{WritesNothing};
ghost use Rattle.run_parts.specs.Written.{Wrote, WrotePart};
ghost use Rattle.plan_entries.specs.Entries.{is_refused, any_refused};
ghost use Rattle.report_text.specs.Reports.{done_text};
ghost use Rattle.plan_mode.specs.Accepted.{AreAccepted};
ghost use Rattle.floor_text.specs.declared.rows.FloorRow.{FloorRow};
ghost use Rattle.floor_text.specs.Text.{both_entries, entries_in, head_text, row_text as text_of_row, rows_text, floor_text};
ghost use Rattle.floor_mode.specs.Planning.{IsPlannedRow, ArePlanned, AreFirstPlanned, begun_text};
ghost use Rattle.floor_mode.specs.FloorRuns.{FloorRan};

use crate::reading::read_rows;
use crate::totals::total_line;
use floor_text::{FloorRow, put_floor_head, row_text};
use order_reader::Row;
use plan_io::{Sink, Source};
use plan_memory::Memory;
use plan_mode::plan_row;
use report_text::put_done;
use run_parts::{Code, WriteStop, send};
use std::alloc::Global;

/// Reads a floors file, and writes how many cases go on each of its floors: the first line, then for each row the whole
/// text of the floor's entry, of the load's entry and of their total at once, then the number of entries.
pub fn floor<S: Source, K: Sink>(alloc: Global, source: &mut S, sink: &mut K) -> Code
    ensures ran { FloorRan (S.past source.old) (K.past sink.old) result (S.past source.new) (K.past sink.new) }
    ensures nothing { WritesNothing result → sink.new ≡ sink.old }
    // A sink that took nothing was not called, unless a write failed.
    ensures untouched { result ≢ Code.WriteFault → K.past sink.new ≡ K.past sink.old → sink.new ≡ sink.old }
{
    let rows = match read_rows(alloc, source) {
        Ok(rows) => rows,
        Err(code) => return code,
    };
    match write_floor(alloc, &rows, sink) {
        Ok(true) => Code::Findings,
        Ok(false) => Code::Done,
        Err(WriteStop::Fault) => Code::WriteFault,
        Err(WriteStop::Memory) => Code::Memory,
    }
}

// Writes the text of rows, two for each floor, and answers whether one was refused.
fn write_floor<K: Sink>(alloc: Global, rows: &[Row], sink: &mut K) -> Result<bool, WriteStop>
    requires few { length rows.now ≤ 256 }
    requires pairs { length rows.now ≡ 2 * (length rows.now / 2) }
    ensures ok { IfOk result (λ found. (floors : List FloorRow) × ArePlanned rows.now floors × AreAccepted (entries_in floors)
        × (any_refused (entries_in floors) ≡ found) × Wrote (K.past sink.old) (K.past sink.new) (floor_text floors)) }
    ensures part { IsErrOf result WriteStop.Fault → (floors : List FloorRow) × AreFirstPlanned rows.now floors
        × WrotePart (K.past sink.old) (K.past sink.new) (begun_text (length rows.now) floors) }
    ensures rose { IsErrOf result WriteStop.Fault → Rose (K.past sink.old).faults (K.past sink.new).faults }
    ensures memory { IsErrOf result WriteStop.Memory → (sink.new ≡ sink.old)
        ⊎ ((floors : List FloorRow) × AreFirstPlanned rows.now floors
        × Wrote (K.past sink.old) (K.past sink.new) (head_text ++ rows_text floors)) }
    ensures later { (K.past sink.old).faults ≤ (K.past sink.new).faults }
{
    let Ok(first) = head(alloc) else {
        return Err(WriteStop::Memory);
    };
    send(sink, &first)?;
    let found = write_rows(alloc, rows, sink)?;
    let Ok(last) = ending(alloc, rows.len() as u32) else {
        return Err(WriteStop::Memory);
    };
    send(sink, &last)?;
    Ok(found)
}

// The first line.
fn head(alloc: Global) -> Result<Vec<u8>, Memory>
    ensures { IfOk result (λ text. text.items ≡ head_text) }
{
    let mut text = Vec::new(alloc);
    put_floor_head(&mut text)?;
    Ok(text)
}

// The last line.
pub(crate) fn ending(alloc: Global, count: u32) -> Result<Vec<u8>, Memory>
    ensures { IfOk result (λ text. text.items ≡ done_text count) }
{
    let mut text = Vec::new(alloc);
    put_done(&mut text, count)?;
    Ok(text)
}

// Writes the texts of floors, each as soon as it stands whole, and answers whether a row was refused.
fn write_rows<K: Sink>(alloc: Global, rows: &[Row], sink: &mut K) -> Result<bool, WriteStop>
    requires few { length rows.now ≤ 256 }
    requires pairs { length rows.now ≡ 2 * (length rows.now / 2) }
    ensures ok { IfOk result (λ found. (floors : List FloorRow) × ArePlanned rows.now floors × (any_refused (entries_in floors) ≡ found)
        × Wrote (K.past sink.old) (K.past sink.new) (rows_text floors)) }
    ensures part { IsErrOf result WriteStop.Fault → (floors : List FloorRow) × AreFirstPlanned rows.now floors
        × WrotePart (K.past sink.old) (K.past sink.new) (rows_text floors) }
    ensures rose { IsErrOf result WriteStop.Fault → Rose (K.past sink.old).faults (K.past sink.new).faults }
    ensures memory { IsErrOf result WriteStop.Memory → (floors : List FloorRow) × AreFirstPlanned rows.now floors
        × Wrote (K.past sink.old) (K.past sink.new) (rows_text floors) }
    ensures later { (K.past sink.old).faults ≤ (K.past sink.new).faults }
{
    let mut found = false;
    for before in 0..rows.len() / 2 {
        let (floor, load) = (&rows[2 * before], &rows[2 * before + 1]);
        let refused = write_row(alloc, before as u32, floor, load, sink)?;
        found = either(found, refused);
    }
    Ok(found)
}

pub(crate) fn either(a: bool, b: bool) -> bool
    ensures { result ≡ (a || b) }
{
    a || b
}

// Writes the text of a floor behind so many, and answers whether a row was refused.
fn write_row<K: Sink>(
    alloc: Global,
    before: u32,
    floor: &Row,
    load: &Row,
    sink: &mut K,
) -> Result<bool, WriteStop>
    requires { before ≤ 127 }
    ensures ok { IfOk result (λ refused. (r : FloorRow) × IsPlannedRow before floor.now load.now r
        × (any_refused (both_entries r) ≡ refused) × Wrote (K.past sink.old) (K.past sink.new) (text_of_row r)) }
    ensures part { IsErrOf result WriteStop.Fault → (r : FloorRow) × IsPlannedRow before floor.now load.now r
        × WrotePart (K.past sink.old) (K.past sink.new) (text_of_row r) }
    ensures rose { IsErrOf result WriteStop.Fault → Rose (K.past sink.old).faults (K.past sink.new).faults }
    ensures memory { IsErrOf result WriteStop.Memory → sink.new ≡ sink.old }
    ensures later { (K.past sink.old).faults ≤ (K.past sink.new).faults }
{
    let Ok(row) = plan_floor(alloc, before, floor, load) else {
        return Err(WriteStop::Memory);
    };
    let Ok(text) = row_text(alloc, &row) else {
        return Err(WriteStop::Memory);
    };
    send(sink, &text)?;
    Ok(either(row.floor.is_refused(), row.load.is_refused()))
}

// The entries of a floor behind so many, and their total.
fn plan_floor(alloc: Global, before: u32, floor: &Row, load: &Row) -> Result<FloorRow, Memory>
    requires { before ≤ 127 }
    ensures { IfOk result (λ r. IsPlannedRow before floor.now load.now r) }
{
    let floor = plan_row(alloc, 2 * before + 1, floor)?;
    let load = plan_row(alloc, 2 * before + 2, load)?;
    let total = total_line(&floor, &load);
    Ok(FloorRow { floor, load, total })
}
