// Writing the entries of a report in the form of today.
ghost use Rattle.std.specs.Prelude.{◌≡◌, ◌≢◌, ◌≤◌, ◌⊎◌, ◌++◌, ◌∷◌, ◌<◌, [], List, length, All, IfOk, OnOk, IsErrOf, MatchOption};
ghost use Rattle.plan_io.specs.Causes.{Rose};
ghost use Rattle.run_parts.specs.Codes.{WritesNothing};
ghost use Rattle.run_parts.specs.Written.{Wrote, WrotePart};
ghost use Rattle.cert_text.specs.declared.forms.Form.TheVariants.{Two};
ghost use Rattle.plan_entries.specs.Ranges.{IsInRange};
ghost use Rattle.plan_entries.specs.declared.entries.Entry.{Entry};
ghost use Rattle.report_text.specs.Text.{entry_text};
ghost use Rattle.report_text.specs.Reports.{head_text, entries_text, report_text};
ghost use Rattle.check_mode.specs.Upgrades.{UpgradeRan};

use crate::writing::write_done;
use plan_entries::Entry;
use plan_io::{Sink, Source};
use plan_memory::Memory;
use report_reading::{entries_of, next_entry, plain, read_bytes};
use report_text::{Entries, put_entry, put_head};
use run_parts::{Answer, Code, WriteStop, send};
use std::alloc::Global;

/// Reads a report of either form, and writes the report of its very entries in the form of today. The whole text is read
/// once before anything is written. Nothing is judged.
pub fn upgrade<S: Source, K: Sink>(alloc: Global, source: &mut S, sink: &mut K) -> Answer
    ensures ran { UpgradeRan (S.past source.old) (K.past sink.old) result.code result.line (S.past source.new) (K.past sink.new) }
    ensures nothing { WritesNothing result.code → sink.new ≡ sink.old }
    // A sink that took nothing was not called, unless a write failed.
    ensures untouched { result.code ≢ Code.WriteFault → K.past sink.new ≡ K.past sink.old → sink.new ≡ sink.old }
{
    let bytes = match read_bytes(alloc, source) {
        Ok(bytes) => bytes,
        Err(answer) => return answer,
    };
    let mut entries = match entries_of(alloc, &bytes) {
        Ok(entries) => entries,
        Err(answer) => return answer,
    };
    match write_report(alloc, &mut entries, sink) {
        Ok(()) => plain(Code::Done),
        Err(WriteStop::Fault) => plain(Code::WriteFault),
        Err(WriteStop::Memory) => plain(Code::Memory),
    }
}

// Writes the report of the entries.
fn write_report<K: Sink>(
    alloc: Global,
    entries: &mut Entries<'_>,
    sink: &mut K,
) -> Result<(), WriteStop>
    requires { All (IsInRange Two) entries.old.entries }
    ensures ok { OnOk result (Wrote (K.past sink.old) (K.past sink.new) (report_text Two entries.old.entries)) }
    ensures part { IsErrOf result WriteStop.Fault
        → WrotePart (K.past sink.old) (K.past sink.new) (report_text Two entries.old.entries) }
    ensures rose { IsErrOf result WriteStop.Fault → Rose (K.past sink.old).faults (K.past sink.new).faults }
    ensures memory { IsErrOf result WriteStop.Memory → (sink.new ≡ sink.old)
        ⊎ ((first : List Entry) × (rest : List Entry) × (entries.old.entries ≡ first ++ rest)
        × Wrote (K.past sink.old) (K.past sink.new) (head_text Two ++ entries_text Two first)) }
    ensures later { (K.past sink.old).faults ≤ (K.past sink.new).faults }
{
    let count = entries.left();
    let Ok(first) = first_line(alloc) else {
        return Err(WriteStop::Memory);
    };
    send(sink, &first)?;
    write_entries(alloc, entries, sink)?;
    write_done(alloc, count, sink)
}

// The first line.
fn first_line(alloc: Global) -> Result<Vec<u8>, Memory>
    ensures { IfOk result (λ text. text.items ≡ head_text Two) }
{
    let mut text = Vec::new(alloc);
    put_head(&mut text)?;
    Ok(text)
}

// Writes the text of each entry.
fn write_entries<K: Sink>(
    alloc: Global,
    entries: &mut Entries<'_>,
    sink: &mut K,
) -> Result<(), WriteStop>
    requires { All (IsInRange Two) entries.old.entries }
    ensures ok { OnOk result (Wrote (K.past sink.old) (K.past sink.new) (entries_text Two entries.old.entries)) }
    ensures part { IsErrOf result WriteStop.Fault
        → WrotePart (K.past sink.old) (K.past sink.new) (entries_text Two entries.old.entries) }
    ensures rose { IsErrOf result WriteStop.Fault → Rose (K.past sink.old).faults (K.past sink.new).faults }
    ensures memory { IsErrOf result WriteStop.Memory
        → (first : List Entry) × (rest : List Entry) × (entries.old.entries ≡ first ++ rest)
        × Wrote (K.past sink.old) (K.past sink.new) (entries_text Two first) }
    ensures later { (K.past sink.old).faults ≤ (K.past sink.new).faults }
{
    while entries.left() > 0 {
        write_next(alloc, entries, sink)?;
    }
    Ok(())
}

// Writes the text of the next entry.
fn write_next<K: Sink>(
    alloc: Global,
    entries: &mut Entries<'_>,
    sink: &mut K,
) -> Result<(), WriteStop>
    requires some { 0 < length entries.old.entries }
    requires ranges { All (IsInRange Two) entries.old.entries }
    ensures ok { OnOk result ((e : Entry) × (entries.old.entries ≡ e ∷ entries.new.entries)
        × Wrote (K.past sink.old) (K.past sink.new) (entry_text Two e)) }
    ensures part { IsErrOf result WriteStop.Fault
        → WrotePart (K.past sink.old) (K.past sink.new) (entries_text Two entries.old.entries) }
    ensures rose { IsErrOf result WriteStop.Fault → Rose (K.past sink.old).faults (K.past sink.new).faults }
    ensures memory { IsErrOf result WriteStop.Memory → sink.new ≡ sink.old }
    ensures later { (K.past sink.old).faults ≤ (K.past sink.new).faults }
{
    let Some(entry) = next_entry(alloc, entries)? else {
        unreachable!();
    };
    write_entry(alloc, &entry, sink)
}

/// Writes the text of an entry in the form of today, which stands whole in memory before it is written.
pub fn write_entry<K: Sink>(alloc: Global, entry: &Entry, sink: &mut K) -> Result<(), WriteStop>
    requires { IsInRange Two entry.now }
    ensures ok { OnOk result (Wrote (K.past sink.old) (K.past sink.new) (entry_text Two entry.now)) }
    ensures part { IsErrOf result WriteStop.Fault
        → WrotePart (K.past sink.old) (K.past sink.new) (entry_text Two entry.now) }
    ensures rose { IsErrOf result WriteStop.Fault → Rose (K.past sink.old).faults (K.past sink.new).faults }
    ensures memory { IsErrOf result WriteStop.Memory → sink.new ≡ sink.old }
    ensures later { (K.past sink.old).faults ≤ (K.past sink.new).faults }
{
    let mut text = Vec::new(alloc);
    if put_entry(&mut text, entry).is_err() {
        return Err(WriteStop::Memory);
    }
    send(sink, &text)
}
