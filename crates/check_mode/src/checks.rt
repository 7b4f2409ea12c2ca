// Judging the entries of a report, and writing their verdicts line by line.
ghost use Rattle.std.specs.Prelude.{◌≡◌, ◌≢◌, ◌≤◌, ◌⊎◌, ◌++◌, ◌||◌, false, true, min, ℕ, List, length, take, All, IfOk, OnOk, IsErrOf};
ghost use Rattle.report_text.specs.Reports.{done_text};
ghost use Rattle.plan_io.specs.Causes.{Rose};
ghost use Rattle.run_parts.specs.Codes.{WritesNothing};
ghost use Rattle.run_parts.specs.Written.{Wrote, WrotePart};
ghost use Rattle.cert_text.specs.declared.forms.Form.TheVariants.{Two};
ghost use Rattle.plan_entries.specs.Ranges.{IsInRange};
ghost use Rattle.plan_entries.specs.declared.entries.Entry.{Entry};
ghost use Rattle.report_checker.specs.declared.verdicts.Verdict.{Verdict};
ghost use Rattle.par_judge.specs.Judged.{AreVerdicts};
ghost use Rattle.check_mode.specs.Verdicts.{AreFirstVerdicts, is_no as is_no_verdict, any_no, line_of, verdict_lines, verdicts_text};
ghost use Rattle.check_mode.specs.Checks.{CheckRan, begun_text};

use crate::writing::write_done;
use par_judge::{Gate, judge_through};
use plan_entries::Entry;
use plan_io::{Sink, Source};
use plan_memory::Memory;
use report_checker::{Verdict, put_verdict};
use report_reading::{entries_of, plain, read_bytes};
use report_text::Entries;
use run_parts::{Answer, Code, WriteStop, send};
use std::alloc::Global;
use std::thread::Threads;

/// Reads a report, and writes the verdict of each of its entries as a line, then the number of entries. The whole text is
/// read once before anything is written. The entries are judged in groups of so many workers, from 1 to 16, of which no
/// answer tells anything.
pub fn check<R: Threads + Sync, G: Gate + Sync, S: Source, K: Sink>(
    rt: &R,
    alloc: Global,
    gate: &G,
    workers: u32,
    source: &mut S,
    sink: &mut K,
) -> Answer
    requires some { 1 ≤ workers }
    requires few { workers ≤ 16 }
    ensures ran { CheckRan (S.past source.old) (K.past sink.old) result.code result.line (S.past source.new) (K.past sink.new) }
    ensures nothing { WritesNothing result.code → sink.new ≡ sink.old }
    // A sink that took nothing was not called, unless a write failed.
    ensures untouched { result.code ≢ Code.WriteFault → K.past sink.new ≡ K.past sink.old → sink.new ≡ sink.old }
{
    let bytes = match read_bytes(alloc, source) {
        Ok(bytes) => bytes,
        Err(answer) => return answer,
    };
    let mut entries = match entries_of(alloc, &bytes) {
        Ok(entries) => entries,
        Err(answer) => return answer,
    };
    match write_verdicts(rt, alloc, gate, workers, &mut entries, sink) {
        Ok(true) => plain(Code::Findings),
        Ok(false) => plain(Code::Done),
        Err(WriteStop::Fault) => plain(Code::WriteFault),
        Err(WriteStop::Memory) => plain(Code::Memory),
    }
}

// Writes the verdicts of all entries and then their number, and answers whether a verdict is no.
fn write_verdicts<R: Threads + Sync, G: Gate + Sync, K: Sink>(
    rt: &R,
    alloc: Global,
    gate: &G,
    workers: u32,
    entries: &mut Entries<'_>,
    sink: &mut K,
) -> Result<bool, WriteStop>
    requires some { 1 ≤ workers }
    requires few { workers ≤ 16 }
    requires ranges { All (IsInRange Two) entries.old.entries }
    ensures ok { IfOk result (λ found. (vs : List Verdict) × AreVerdicts entries.old.entries vs × (any_no vs ≡ found)
        × Wrote (K.past sink.old) (K.past sink.new) (verdicts_text entries.old.entries vs)) }
    ensures part { IsErrOf result WriteStop.Fault → (vs : List Verdict) × AreFirstVerdicts entries.old.entries vs
        × WrotePart (K.past sink.old) (K.past sink.new) (begun_text entries.old.entries vs) }
    ensures rose { IsErrOf result WriteStop.Fault → Rose (K.past sink.old).faults (K.past sink.new).faults }
    ensures memory { IsErrOf result WriteStop.Memory → (vs : List Verdict) × AreFirstVerdicts entries.old.entries vs
        × Wrote (K.past sink.old) (K.past sink.new) (verdict_lines entries.old.entries vs) }
    ensures unsent { IsErrOf result WriteStop.Memory → K.past sink.new ≡ K.past sink.old → sink.new ≡ sink.old }
    ensures later { (K.past sink.old).faults ≤ (K.past sink.new).faults }
{
    let count = entries.left();
    let found = judge_entries(rt, alloc, gate, workers, entries, sink)?;
    write_done(alloc, count, sink)?;
    Ok(found)
}

// Writes the verdicts of all entries, group by group, and answers whether one is no.
fn judge_entries<R: Threads + Sync, G: Gate + Sync, K: Sink>(
    rt: &R,
    alloc: Global,
    gate: &G,
    workers: u32,
    entries: &mut Entries<'_>,
    sink: &mut K,
) -> Result<bool, WriteStop>
    requires some { 1 ≤ workers }
    requires few { workers ≤ 16 }
    requires ranges { All (IsInRange Two) entries.old.entries }
    ensures ok { IfOk result (λ found. (vs : List Verdict) × AreVerdicts entries.old.entries vs × (any_no vs ≡ found)
        × Wrote (K.past sink.old) (K.past sink.new) (verdict_lines entries.old.entries vs)) }
    ensures part { IsErrOf result WriteStop.Fault → (vs : List Verdict) × AreFirstVerdicts entries.old.entries vs
        × WrotePart (K.past sink.old) (K.past sink.new) (verdict_lines entries.old.entries vs) }
    ensures rose { IsErrOf result WriteStop.Fault → Rose (K.past sink.old).faults (K.past sink.new).faults }
    ensures memory { IsErrOf result WriteStop.Memory → (vs : List Verdict) × AreFirstVerdicts entries.old.entries vs
        × Wrote (K.past sink.old) (K.past sink.new) (verdict_lines entries.old.entries vs) }
    ensures untouched { OnOk result (K.past sink.new ≡ K.past sink.old → sink.new ≡ sink.old) }
    ensures unsent { IsErrOf result WriteStop.Memory → K.past sink.new ≡ K.past sink.old → sink.new ≡ sink.old }
    ensures later { (K.past sink.old).faults ≤ (K.past sink.new).faults }
{
    let mut found = false;
    while entries.left() > 0 {
        let no = judge_group(rt, alloc, gate, workers, entries, sink)?;
        found = either(found, no);
    }
    Ok(found)
}

fn either(a: bool, b: bool) -> bool
    ensures { result ≡ (a || b) }
{
    a || b
}

// Takes the next group of entries, and writes their verdicts, each as a line; answers whether one is no.
fn judge_group<R: Threads + Sync, G: Gate + Sync, K: Sink>(
    rt: &R,
    alloc: Global,
    gate: &G,
    workers: u32,
    entries: &mut Entries<'_>,
    sink: &mut K,
) -> Result<bool, WriteStop>
    requires some { 1 ≤ workers }
    requires few { workers ≤ 16 }
    requires ranges { All (IsInRange Two) entries.old.entries }
    ensures ok { IfOk result (λ found. (group : List Entry) × (vs : List Verdict)
        × (entries.old.entries ≡ group ++ entries.new.entries) × (length group ≡ min workers (length entries.old.entries))
        × AreVerdicts group vs × (any_no vs ≡ found)
        × Wrote (K.past sink.old) (K.past sink.new) (verdict_lines group vs)) }
    ensures part { IsErrOf result WriteStop.Fault → (vs : List Verdict) × AreFirstVerdicts entries.old.entries vs
        × WrotePart (K.past sink.old) (K.past sink.new) (verdict_lines entries.old.entries vs) }
    ensures rose { IsErrOf result WriteStop.Fault → Rose (K.past sink.old).faults (K.past sink.new).faults }
    ensures memory { IsErrOf result WriteStop.Memory → (vs : List Verdict) × AreFirstVerdicts entries.old.entries vs
        × Wrote (K.past sink.old) (K.past sink.new) (verdict_lines entries.old.entries vs) }
    ensures untouched { OnOk result (K.past sink.new ≡ K.past sink.old → sink.new ≡ sink.old) }
    ensures unsent { IsErrOf result WriteStop.Memory → K.past sink.new ≡ K.past sink.old → sink.new ≡ sink.old }
    ensures later { (K.past sink.old).faults ≤ (K.past sink.new).faults }
{
    let Ok(group) = take_group(alloc, workers, entries) else {
        return Err(WriteStop::Memory);
    };
    let Ok(verdicts) = judge_through(rt, alloc, gate, &group, workers) else {
        return Err(WriteStop::Memory);
    };
    write_lines(alloc, &group, &verdicts, sink)
}

// The next so many entries, or those that are left.
fn take_group(alloc: Global, workers: u32, entries: &mut Entries<'_>) -> Result<Vec<Entry>, Memory>
    ensures parts { IfOk result (λ group. entries.old.entries ≡ group.items ++ entries.new.entries) }
    ensures count { IfOk result (λ group. length group.items ≡ min workers (length entries.old.entries)) }
{
    let mut group = Vec::new(alloc);
    for _ in 0..workers {
        let Some(entry) = entries.next(alloc)? else {
            return Ok(group);
        };
        group.push(entry)?;
    }
    Ok(group)
}

// Writes the verdicts of a group, each as a line, and answers whether one is no.
fn write_lines<K: Sink>(
    alloc: Global,
    group: &[Entry],
    verdicts: &[Verdict],
    sink: &mut K,
) -> Result<bool, WriteStop>
    requires { length verdicts.now ≡ length group.now }
    ensures ok { IfOk result (λ found. (any_no verdicts.now ≡ found)
        × Wrote (K.past sink.old) (K.past sink.new) (verdict_lines group.now verdicts.now)) }
    ensures part { IsErrOf result WriteStop.Fault
        → WrotePart (K.past sink.old) (K.past sink.new) (verdict_lines group.now verdicts.now) }
    ensures rose { IsErrOf result WriteStop.Fault → Rose (K.past sink.old).faults (K.past sink.new).faults }
    ensures memory { IsErrOf result WriteStop.Memory
        → (j : ℕ) × (j ≤ length verdicts.now)
        × Wrote (K.past sink.old) (K.past sink.new) (verdict_lines group.now (take j verdicts.now)) }
    ensures untouched { OnOk result (K.past sink.new ≡ K.past sink.old → sink.new ≡ sink.old) }
    ensures unsent { IsErrOf result WriteStop.Memory → K.past sink.new ≡ K.past sink.old → sink.new ≡ sink.old }
    ensures later { (K.past sink.old).faults ≤ (K.past sink.new).faults }
{
    let mut found = false;
    for (place, verdict) in verdicts.iter().enumerate() {
        write_line(alloc, &group[place], *verdict, sink)?;
        found = either(found, is_no(*verdict));
    }
    Ok(found)
}

/// Whether the verdict is no.
pub fn is_no(verdict: Verdict) -> bool
    ensures { result ≡ is_no_verdict verdict }
{
    matches!(verdict, Verdict::No { .. })
}

/// Writes the line of an entry's verdict, which stands whole in memory before it is written.
pub fn write_line<K: Sink>(
    alloc: Global,
    entry: &Entry,
    verdict: Verdict,
    sink: &mut K,
) -> Result<(), WriteStop>
    ensures ok { OnOk result (Wrote (K.past sink.old) (K.past sink.new) (line_of entry.now verdict)) }
    ensures part { IsErrOf result WriteStop.Fault
        → WrotePart (K.past sink.old) (K.past sink.new) (line_of entry.now verdict) }
    ensures rose { IsErrOf result WriteStop.Fault → Rose (K.past sink.old).faults (K.past sink.new).faults }
    ensures memory { IsErrOf result WriteStop.Memory → sink.new ≡ sink.old }
    ensures later { (K.past sink.old).faults ≤ (K.past sink.new).faults }
{
    let Ok(text) = verdict_line(alloc, entry, verdict) else {
        return Err(WriteStop::Memory);
    };
    send(sink, &text)
}

// The line of an entry's verdict.
#[tactic(auto, unfolding(crate::specs::Verdicts::line_of))]
fn verdict_line(alloc: Global, entry: &Entry, verdict: Verdict) -> Result<Vec<u8>, Memory>
    ensures { IfOk result (λ text. text.items ≡ line_of entry.now verdict) }
{
    let mut text = Vec::new(alloc);
    put_verdict(&mut text, entry.number(), verdict)?;
    Ok(text)
}
