// Writing the page of a report.
ghost use Rattle.std.specs.Prelude.{◌≡◌, ◌≢◌, ◌≤◌, ◌<◌, ◌⊎◌, ◌++◌, ◌∷◌, [], ℕ, suc, List, length, take, All, IfOk, OnOk, IsErrOf};
ghost use Rattle.std.specs.List.{concat};
ghost use Rattle.plan_io.specs.Causes.{Rose};
ghost use Rattle.run_parts.specs.Codes.{WritesNothing};
ghost use Rattle.run_parts.specs.Written.{Wrote, WrotePart};
ghost use Rattle.cert_text.specs.declared.forms.Form.TheVariants.{Two};
ghost use Rattle.plan_entries.specs.Ranges.{IsInRange};
ghost use Rattle.plan_entries.specs.declared.entries.Entry.{Entry};
ghost use Rattle.page_text.specs.Page.{top_text, sheet_text, closing_text, sheets_from, pieces_of, page_of, IsSummaryOf};
ghost use Rattle.page_mode.specs.Pages.{PageRan};

use page_text::{Summary, put_closing, put_sheet, put_top};
use plan_entries::Entry;
use plan_io::{Sink, Source};
use plan_memory::Memory;
use report_reading::{entries_of, next_entry, plain, read_bytes};
use report_text::Entries;
use run_parts::{Answer, Code, WriteStop, send};
use std::alloc::Global;

/// Reads a report of either form, and writes the page of its entries. The whole text is read once before anything is
/// written; then one piece after another is written, each of which stands whole in memory before. Nothing is judged.
pub fn page<S: Source, K: Sink>(alloc: Global, source: &mut S, sink: &mut K) -> Answer
    ensures ran { PageRan (S.past source.old) (K.past sink.old) result.code result.line (S.past source.new) (K.past sink.new) }
    ensures nothing { WritesNothing result.code → sink.new ≡ sink.old }
    // A sink that took nothing was not called, unless a write failed.
    ensures untouched { result.code ≢ Code.WriteFault → K.past sink.new ≡ K.past sink.old → sink.new ≡ sink.old }
{
    let bytes = match read_bytes(alloc, source) {
        Ok(bytes) => bytes,
        Err(answer) => return answer,
    };
    let mut entries = match entries_of(alloc, &bytes) {
        Ok(entries) => entries,
        Err(answer) => return answer,
    };
    match write_page(alloc, &mut entries, sink) {
        Ok(()) => plain(Code::Done),
        Err(WriteStop::Fault) => plain(Code::WriteFault),
        Err(WriteStop::Memory) => plain(Code::Memory),
    }
}

// Writes the page of the entries.
fn write_page<K: Sink>(
    alloc: Global,
    entries: &mut Entries<'_>,
    sink: &mut K,
) -> Result<(), WriteStop>
    requires ranges { All (IsInRange Two) entries.old.entries }
    requires few { length entries.old.entries ≤ 256 }
    ensures ok { OnOk result (Wrote (K.past sink.old) (K.past sink.new) (page_of entries.old.entries)) }
    ensures part { IsErrOf result WriteStop.Fault
        → WrotePart (K.past sink.old) (K.past sink.new) (page_of entries.old.entries) }
    ensures rose { IsErrOf result WriteStop.Fault → Rose (K.past sink.old).faults (K.past sink.new).faults }
    ensures memory { IsErrOf result WriteStop.Memory → (sink.new ≡ sink.old)
        ⊎ ((more : ℕ) × Wrote (K.past sink.old) (K.past sink.new) (concat (take (suc more) (pieces_of entries.old.entries)))) }
    ensures later { (K.past sink.old).faults ≤ (K.past sink.new).faults }
{
    write_top(alloc, sink)?;
    let mut summary = Summary::new(alloc);
    write_sheets(alloc, entries, &mut summary, sink)?;
    write_closing(alloc, &summary, sink)
}

// Writes what stands before the sheets.
fn write_top<K: Sink>(alloc: Global, sink: &mut K) -> Result<(), WriteStop>
    ensures ok { OnOk result (Wrote (K.past sink.old) (K.past sink.new) top_text) }
    ensures part { IsErrOf result WriteStop.Fault → WrotePart (K.past sink.old) (K.past sink.new) top_text }
    ensures rose { IsErrOf result WriteStop.Fault → Rose (K.past sink.old).faults (K.past sink.new).faults }
    ensures memory { IsErrOf result WriteStop.Memory → sink.new ≡ sink.old }
    ensures later { (K.past sink.old).faults ≤ (K.past sink.new).faults }
{
    let mut text = Vec::new(alloc);
    if put_top(&mut text).is_err() {
        return Err(WriteStop::Memory);
    }
    send(sink, &text)
}

// Writes the sheet of each entry, and adds each to the summary.
fn write_sheets<K: Sink>(
    alloc: Global,
    entries: &mut Entries<'_>,
    summary: &mut Summary,
    sink: &mut K,
) -> Result<(), WriteStop>
    requires ranges { All (IsInRange Two) entries.old.entries }
    requires few { length entries.old.entries ≤ 256 }
    requires empty { IsSummaryOf summary.old [] }
    ensures ok { OnOk result (Wrote (K.past sink.old) (K.past sink.new) (concat (sheets_from 1 entries.old.entries))) }
    ensures summed { OnOk result (IsSummaryOf summary.new entries.old.entries) }
    ensures part { IsErrOf result WriteStop.Fault
        → WrotePart (K.past sink.old) (K.past sink.new) (concat (sheets_from 1 entries.old.entries)) }
    ensures rose { IsErrOf result WriteStop.Fault → Rose (K.past sink.old).faults (K.past sink.new).faults }
    ensures memory { IsErrOf result WriteStop.Memory
        → (first : List Entry) × (rest : List Entry) × (entries.old.entries ≡ first ++ rest)
        × Wrote (K.past sink.old) (K.past sink.new) (concat (sheets_from 1 first)) }
    ensures later { (K.past sink.old).faults ≤ (K.past sink.new).faults }
{
    let mut number = 1;
    while entries.left() > 0 {
        write_next(alloc, number, entries, summary, sink)?;
        number += 1;
    }
    Ok(())
}

// Writes the sheet of the next entry, and adds the entry to the summary.
fn write_next<K: Sink>(
    alloc: Global,
    number: u32,
    entries: &mut Entries<'_>,
    summary: &mut Summary,
    sink: &mut K,
) -> Result<(), WriteStop>
    requires some { 0 < length entries.old.entries }
    requires ranges { All (IsInRange Two) entries.old.entries }
    requires few { (es : List Entry) × IsSummaryOf summary.old es × (length es < 256) }
    ensures ok { OnOk result ((e : Entry) × (entries.old.entries ≡ e ∷ entries.new.entries)
        × Wrote (K.past sink.old) (K.past sink.new) (sheet_text number e)
        × ((es : List Entry) → IsSummaryOf summary.old es → IsSummaryOf summary.new (es ++ e ∷ []))) }
    ensures part { IsErrOf result WriteStop.Fault → WrotePart (K.past sink.old) (K.past sink.new)
        (concat (sheets_from number entries.old.entries)) }
    ensures rose { IsErrOf result WriteStop.Fault → Rose (K.past sink.old).faults (K.past sink.new).faults }
    ensures memory { IsErrOf result WriteStop.Memory → sink.new ≡ sink.old }
    ensures later { (K.past sink.old).faults ≤ (K.past sink.new).faults }
{
    let Some(entry) = next_entry(alloc, entries)? else {
        unreachable!();
    };
    if summary.add(&entry).is_err() {
        return Err(WriteStop::Memory);
    }
    write_sheet(alloc, number, &entry, sink)
}

// Writes the sheet of an entry.
fn write_sheet<K: Sink>(
    alloc: Global,
    number: u32,
    entry: &Entry,
    sink: &mut K,
) -> Result<(), WriteStop>
    requires { IsInRange Two entry.now }
    ensures ok { OnOk result (Wrote (K.past sink.old) (K.past sink.new) (sheet_text number entry.now)) }
    ensures part { IsErrOf result WriteStop.Fault
        → WrotePart (K.past sink.old) (K.past sink.new) (sheet_text number entry.now) }
    ensures rose { IsErrOf result WriteStop.Fault → Rose (K.past sink.old).faults (K.past sink.new).faults }
    ensures memory { IsErrOf result WriteStop.Memory → sink.new ≡ sink.old }
    ensures later { (K.past sink.old).faults ≤ (K.past sink.new).faults }
{
    let mut text = Vec::new(alloc);
    if put_sheet(&mut text, number, entry).is_err() {
        return Err(WriteStop::Memory);
    }
    send(sink, &text)
}

// Writes the summary, and what stands at the page's end.
fn write_closing<K: Sink>(alloc: Global, summary: &Summary, sink: &mut K) -> Result<(), WriteStop>
    ensures ok { OnOk result ((es : List Entry) → IsSummaryOf summary.now es
        → Wrote (K.past sink.old) (K.past sink.new) (closing_text es)) }
    ensures part { IsErrOf result WriteStop.Fault → (es : List Entry) → IsSummaryOf summary.now es
        → WrotePart (K.past sink.old) (K.past sink.new) (closing_text es) }
    ensures rose { IsErrOf result WriteStop.Fault → Rose (K.past sink.old).faults (K.past sink.new).faults }
    ensures memory { IsErrOf result WriteStop.Memory → sink.new ≡ sink.old }
    ensures later { (K.past sink.old).faults ≤ (K.past sink.new).faults }
{
    let mut text = Vec::new(alloc);
    if put_closing(&mut text, summary).is_err() {
        return Err(WriteStop::Memory);
    }
    send(sink, &text)
}
