// Reading the rows, and writing a report piece by piece.
ghost use Rattle.std.specs.Prelude.{◌≡◌, ◌≢◌, ◌≤◌, ◌⊎◌, ◌||◌, List, ℕ, length, IfOk, IfErr, IsErrOf};
ghost use Rattle.plan_io.specs.Causes.{Rose};
ghost use Rattle.plan_io.specs.Streams.{at_end};
ghost use Rattle.run_parts.specs.Codes.{WritesNothing};
ghost use Rattle.run_parts.specs.Written.{Wrote, WrotePart};
ghost use Rattle.plan_entries.specs.Entries.{is_refused, any_refused};
ghost use Rattle.plan_entries.specs.declared.entries.Entry.{Entry};
ghost use Rattle.plan_mode.specs.OrdersFiles.{HasRows, FoundNoRows};
ghost use Rattle.cert_text.specs.declared.forms.Form.TheVariants.{Two};
ghost use Rattle.plan_entries.specs.Ranges.{IsInRange};
ghost use Rattle.plan_mode.specs.Entries.{AreEntriesOf, AreFirstEntriesOf};
ghost use Rattle.plan_mode.specs.Accepted.{AreAccepted};
ghost use Rattle.plan_mode.specs.Pieces.{IsSoundEntry, IsPieceOf, ArePieces, joined, IsTextOf, IsPlainReport, IsBegunText, IsBrokenText};
ghost use Rattle.plan_mode.specs.Runs.{PlanRan};

use crate::groups::next_entry;
use crate::pieces::{done, head, piece};
use order_reader::{ReadStop, Row, read_orders};
use par_judge::Gate;
use plan_entries::Entry;
use plan_io::{Sink, Source};
use run_parts::{Code, WriteStop, read_input, send};
use std::alloc::Global;
use std::collections::VecDeque;
use std::thread::Threads;

// How many bytes an orders file may have.
const MOST_BYTES: usize = 262144;

/// Reads an orders file, and writes the report of its rows: the first line, then one whole piece after another, then the
/// last line. Where `draw` is set each planned entry is followed by its drawing. So many workers, from 1 to 16, plan side by
/// side, each order once the gate has been told of it; what is written is that of one worker.
pub fn plan<R: Threads + Sync, G: Gate + Sync, S: Source, K: Sink>(
    rt: &R,
    alloc: Global,
    gate: &G,
    workers: u32,
    draw: bool,
    source: &mut S,
    sink: &mut K,
) -> Code
    requires some { 1 ≤ workers }
    requires limited { workers ≤ 16 }
    ensures ran { PlanRan draw (S.past source.old) (K.past sink.old) result (S.past source.new) (K.past sink.new) }
    ensures nothing { WritesNothing result → sink.new ≡ sink.old }
    // A sink that took nothing was not called, unless a write failed.
    ensures untouched { result ≢ Code.WriteFault → K.past sink.new ≡ K.past sink.old → sink.new ≡ sink.old }
{
    let rows = match read_rows(alloc, source) {
        Ok(rows) => rows,
        Err(code) => return code,
    };
    match write_report(rt, alloc, gate, workers, draw, &rows, sink) {
        Ok(true) => Code::Findings,
        Ok(false) => Code::Done,
        Err(WriteStop::Fault) => Code::WriteFault,
        Err(WriteStop::Memory) => Code::Memory,
    }
}

/// The rows of an orders file that is read to its end, at most 256; or the code of the run where it has none.
pub fn read_rows<S: Source>(alloc: Global, source: &mut S) -> Result<Vec<Row>, Code>
    ensures rows { IfOk result (λ rows. (read : List ℕ) × (S.past source.new ≡ at_end (S.past source.old) read)
        × HasRows read rows.items) }
    ensures no_rows { IfErr result (λ code. FoundNoRows (S.past source.old) code (S.past source.new)) }
{
    let bytes = read_input(alloc, source, MOST_BYTES)?;
    match read_orders(alloc, &bytes) {
        Ok(rows) => Ok(rows),
        Err(ReadStop::NoHeader) => Err(Code::NoHeader),
        Err(ReadStop::TooManyRows) => Err(Code::TooManyRows),
        Err(ReadStop::Memory) => Err(Code::Memory),
    }
}

// Writes the report of rows, and answers whether one was refused.
fn write_report<R: Threads + Sync, G: Gate + Sync, K: Sink>(
    rt: &R,
    alloc: Global,
    gate: &G,
    workers: u32,
    draw: bool,
    rows: &[Row],
    sink: &mut K,
) -> Result<bool, WriteStop>
    requires some { 1 ≤ workers }
    requires limited { workers ≤ 16 }
    requires few { length rows.now ≤ 256 }
    ensures ok { IfOk result (λ found. (es : List Entry) × (text : List ℕ) × AreEntriesOf rows.now es × AreAccepted es × (any_refused es ≡ found)
        × IsTextOf draw es text × IsPlainReport draw es text × Wrote (K.past sink.old) (K.past sink.new) text) }
    ensures part { IsErrOf result WriteStop.Fault → (es : List Entry) × (text : List ℕ) × AreFirstEntriesOf rows.now es
        × IsBegunText draw (length rows.now) es text × WrotePart (K.past sink.old) (K.past sink.new) text }
    ensures rose { IsErrOf result WriteStop.Fault → Rose (K.past sink.old).faults (K.past sink.new).faults }
    ensures memory { IsErrOf result WriteStop.Memory → (sink.new ≡ sink.old)
        ⊎ ((es : List Entry) × (text : List ℕ) × AreFirstEntriesOf rows.now es
        × IsBrokenText draw es text × Wrote (K.past sink.old) (K.past sink.new) text) }
    ensures later { (K.past sink.old).faults ≤ (K.past sink.new).faults }
{
    let Ok(first) = head(alloc, draw) else {
        return Err(WriteStop::Memory);
    };
    send(sink, &first)?;
    let found = write_entries(rt, alloc, gate, workers, draw, rows, sink)?;
    let Ok(last) = done(alloc, rows.len() as u32) else {
        return Err(WriteStop::Memory);
    };
    send(sink, &last)?;
    Ok(found)
}

// Writes the pieces of rows, each as soon as it stands whole, and answers whether a row was refused.
fn write_entries<R: Threads + Sync, G: Gate + Sync, K: Sink>(
    rt: &R,
    alloc: Global,
    gate: &G,
    workers: u32,
    draw: bool,
    rows: &[Row],
    sink: &mut K,
) -> Result<bool, WriteStop>
    requires some { 1 ≤ workers }
    requires limited { workers ≤ 16 }
    requires few { length rows.now ≤ 256 }
    ensures ok { IfOk result (λ found. (es : List Entry) × (ts : List (List ℕ)) × AreEntriesOf rows.now es × (any_refused es ≡ found)
        × (length es ≡ length rows.now) × ArePieces draw es ts × Wrote (K.past sink.old) (K.past sink.new) (joined ts)) }
    ensures part { IsErrOf result WriteStop.Fault → (es : List Entry) × (ts : List (List ℕ)) × AreFirstEntriesOf rows.now es
        × ArePieces draw es ts × WrotePart (K.past sink.old) (K.past sink.new) (joined ts) }
    ensures rose { IsErrOf result WriteStop.Fault → Rose (K.past sink.old).faults (K.past sink.new).faults }
    ensures memory { IsErrOf result WriteStop.Memory → (es : List Entry) × (ts : List (List ℕ)) × AreFirstEntriesOf rows.now es
        × ArePieces draw es ts × Wrote (K.past sink.old) (K.past sink.new) (joined ts) }
    ensures later { (K.past sink.old).faults ≤ (K.past sink.new).faults }
{
    let mut found = false;
    let mut ahead = VecDeque::new(alloc);
    for index in 0..rows.len() {
        let number = index as u32 + 1;
        let Ok(entry) = next_entry(rt, alloc, gate, workers, rows, number, &mut ahead) else {
            return Err(WriteStop::Memory);
        };
        let refused = write_entry(alloc, draw, &entry, sink)?;
        found = either(found, refused);
    }
    Ok(found)
}

fn either(a: bool, b: bool) -> bool
    ensures { result ≡ (a || b) }
{
    a || b
}

// Writes the piece of an entry, and answers whether its row was refused.
fn write_entry<K: Sink>(
    alloc: Global,
    draw: bool,
    entry: &Entry,
    sink: &mut K,
) -> Result<bool, WriteStop>
    requires in_range { IsInRange Two entry.now }
    requires sound { IsSoundEntry entry.now }
    ensures ok { IfOk result (λ refused. (t : List ℕ) × (is_refused entry.now ≡ refused)
        × IsPieceOf draw entry.now t × Wrote (K.past sink.old) (K.past sink.new) t) }
    ensures part { IsErrOf result WriteStop.Fault → (t : List ℕ) × IsPieceOf draw entry.now t
        × WrotePart (K.past sink.old) (K.past sink.new) t }
    ensures rose { IsErrOf result WriteStop.Fault → Rose (K.past sink.old).faults (K.past sink.new).faults }
    ensures memory { IsErrOf result WriteStop.Memory → sink.new ≡ sink.old }
    ensures later { (K.past sink.old).faults ≤ (K.past sink.new).faults }
{
    let Ok(text) = piece(alloc, draw, entry) else {
        return Err(WriteStop::Memory);
    };
    send(sink, &text)?;
    Ok(entry.is_refused())
}
