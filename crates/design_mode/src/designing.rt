// Writing the entries of sizes, and the best of them.
ghost use Rattle.std.specs.Prelude.{◌≡◌, ◌≢◌, ◌≤◌, ◌⊎◌, ◌++◌, ◌∷◌, ◌||◌, [], List, Option, ℕ, length, slice_index_or, IfOk, OnOk, IsErrOf};
ghost use Rattle.plan_io.specs.Causes.{Rose};
ghost use Rattle.run_parts.specs.Codes.{WritesNothing};
ghost use Rattle.run_parts.specs.Written.{Wrote, WrotePart};
ghost use Rattle.cert_text.specs.declared.forms.Form.TheVariants.{Two};
ghost use Rattle.order_reader.specs.declared.rows.Row.{Row};
ghost use Rattle.plan_entries.specs.Entries.{any_refused};
ghost use Rattle.plan_entries.specs.Ranges.{IsInRange};
ghost use Rattle.plan_entries.specs.declared.entries.Entry.{Entry};
ghost use Rattle.report_text.specs.Text.{entry_text};
ghost use Rattle.report_text.specs.Reports.{entries_text};
ghost use Rattle.case_design.specs.declared.best.Cover.{Cover};
ghost use Rattle.case_design.specs.Designs.{NamesColumns, rows_in};
ghost use Rattle.case_design.specs.Bests.{IsBest};
ghost use Rattle.case_design.specs.Text.{head_text};
ghost use Rattle.plan_mode.specs.Entries.{IsEntryOf, AreEntriesOf, AreFirstEntriesOf};
ghost use Rattle.plan_mode.specs.Accepted.{AreAccepted};
ghost use Rattle.design_mode.specs.Covers.{covers_of};
ghost use Rattle.design_mode.specs.Designing.{is_row_refused, best_part, end_text, design_text, MayEnd};
ghost use Rattle.design_mode.specs.DesignRuns.{DesignRan};

use crate::covers::keep_cover;
use crate::reading::read_file;
use case_design::{Cover, Design, best_cover, put_best, put_design_head};
use check_mode::write_entry;
use order_reader::Row;
use par_judge::Gate;
use plan_entries::Entry;
use plan_io::{Sink, Source};
use plan_memory::Memory;
use plan_mode::next_entry;
use report_text::put_done;
use run_parts::{Code, WriteStop, send};
use std::alloc::Global;
use std::collections::VecDeque;
use std::thread::Threads;

/// Reads a designs file, and writes which of the sizes that its row allows covers most of the pallet: the first line and that
/// of the row at once, then the whole text of one size's entry after another, then at once which is the best, its rivals and
/// the number of entries. So many workers, from 1 to 16, plan side by side, each size once the gate has been told of it; what
/// is written is that of one worker.
pub fn design<R: Threads + Sync, G: Gate + Sync, S: Source, K: Sink>(
    rt: &R,
    alloc: Global,
    gate: &G,
    workers: u32,
    source: &mut S,
    sink: &mut K,
) -> Code
    requires some { 1 ≤ workers }
    requires limited { workers ≤ 16 }
    ensures ran { DesignRan (S.past source.old) (K.past sink.old) result (S.past source.new) (K.past sink.new) }
    ensures nothing { WritesNothing result → sink.new ≡ sink.old }
    // A sink that took nothing was not called, unless a write failed.
    ensures untouched { result ≢ Code.WriteFault → K.past sink.new ≡ K.past sink.old → sink.new ≡ sink.old }
{
    let asked = match read_file(alloc, source) {
        Ok(asked) => asked,
        Err(code) => return code,
    };
    match write_design(rt, alloc, gate, workers, &asked, sink) {
        Ok(true) => Code::Findings,
        Ok(false) => Code::Done,
        Err(WriteStop::Fault) => Code::WriteFault,
        Err(WriteStop::Memory) => Code::Memory,
    }
}

// The rows of the sizes, where there are some.
fn rows_of(design: &Design) -> &[Row]
    ensures { result.now ≡ rows_in design.now }
{
    match design {
        Design::Rows { rows, .. } => rows,
        _ => &[],
    }
}

// Writes the text of a design, and answers whether its row or a size was refused.
fn write_design<R: Threads + Sync, G: Gate + Sync, K: Sink>(
    rt: &R,
    alloc: Global,
    gate: &G,
    workers: u32,
    design: &Design,
    sink: &mut K,
) -> Result<bool, WriteStop>
    requires some { 1 ≤ workers }
    requires limited { workers ≤ 16 }
    requires few { length (rows_in design.now) ≤ 256 }
    requires columns { NamesColumns design.now }
    ensures ok { IfOk result (λ found. (es : List Entry) × (best : Option Cover) × (rivals : List Cover) × AreEntriesOf (rows_in design.now) es
        × AreAccepted es × IsBest (covers_of es) best rivals × ((is_row_refused design.now || any_refused es) ≡ found)
        × Wrote (K.past sink.old) (K.past sink.new) (design_text design.now es best rivals)) }
    ensures part { IsErrOf result WriteStop.Fault → (es : List Entry) × (end : List ℕ) × AreFirstEntriesOf (rows_in design.now) es
        × MayEnd design.now es end × WrotePart (K.past sink.old) (K.past sink.new) (head_text design.now ++ (entries_text Two es ++ end)) }
    ensures rose { IsErrOf result WriteStop.Fault → Rose (K.past sink.old).faults (K.past sink.new).faults }
    ensures memory { IsErrOf result WriteStop.Memory → (sink.new ≡ sink.old)
        ⊎ ((es : List Entry) × AreFirstEntriesOf (rows_in design.now) es
        × Wrote (K.past sink.old) (K.past sink.new) (head_text design.now ++ entries_text Two es)) }
    ensures later { (K.past sink.old).faults ≤ (K.past sink.new).faults }
{
    let rows = rows_of(design);
    let Ok(first) = head(alloc, design) else {
        return Err(WriteStop::Memory);
    };
    send(sink, &first)?;
    let covers = write_entries(rt, alloc, gate, workers, rows, sink)?;
    let Ok(last) = ending(alloc, design, &covers, rows.len() as u32) else {
        return Err(WriteStop::Memory);
    };
    send(sink, &last)?;
    let some_refused = covers.len() < rows.len();
    Ok(is_refused(design) || some_refused)
}

// Whether the file's one row is refused.
fn is_refused(design: &Design) -> bool
    ensures { result ≡ is_row_refused design.now }
{
    matches!(design, Design::Refused(_))
}

// The first line, and that of the row.
fn head(alloc: Global, design: &Design) -> Result<Vec<u8>, Memory>
    requires { NamesColumns design.now }
    ensures { IfOk result (λ text. text.items ≡ head_text design.now) }
{
    let mut text = Vec::new(alloc);
    put_design_head(&mut text, design)?;
    Ok(text)
}

// What stands after so many entries, of which those that are planned cover this.
fn ending(alloc: Global, design: &Design, covers: &[Cover], count: u32) -> Result<Vec<u8>, Memory>
    ensures { IfOk result (λ text. (best : Option Cover) × (rivals : List Cover) × IsBest covers.now best rivals
        × (text.items ≡ end_text design.now best rivals count)) }
{
    let best = best_cover(alloc, covers)?;
    let mut text = Vec::new(alloc);
    if let Design::Rows { .. } = design {
        put_best(&mut text, &best)?;
    }
    put_done(&mut text, count)?;
    Ok(text)
}

// Writes the entries of sizes, each as soon as its text stands whole, and answers what those that are planned cover.
fn write_entries<R: Threads + Sync, G: Gate + Sync, K: Sink>(
    rt: &R,
    alloc: Global,
    gate: &G,
    workers: u32,
    rows: &[Row],
    sink: &mut K,
) -> Result<Vec<Cover>, WriteStop>
    requires some { 1 ≤ workers }
    requires limited { workers ≤ 16 }
    requires few { length rows.now ≤ 256 }
    ensures ok { IfOk result (λ covers. (es : List Entry) × AreEntriesOf rows.now es × (covers.items ≡ covers_of es)
        × Wrote (K.past sink.old) (K.past sink.new) (entries_text Two es)) }
    ensures part { IsErrOf result WriteStop.Fault → (es : List Entry) × AreFirstEntriesOf rows.now es
        × WrotePart (K.past sink.old) (K.past sink.new) (entries_text Two es) }
    ensures rose { IsErrOf result WriteStop.Fault → Rose (K.past sink.old).faults (K.past sink.new).faults }
    ensures memory { IsErrOf result WriteStop.Memory → (es : List Entry) × AreFirstEntriesOf rows.now es
        × Wrote (K.past sink.old) (K.past sink.new) (entries_text Two es) }
    ensures later { (K.past sink.old).faults ≤ (K.past sink.new).faults }
{
    let mut covers = Vec::new(alloc);
    let mut ahead = VecDeque::new(alloc);
    for index in 0..rows.len() {
        let number = index as u32 + 1;
        let Ok(entry) = next_entry(rt, alloc, gate, workers, rows, number, &mut ahead) else {
            return Err(WriteStop::Memory);
        };
        keep_cover(&mut covers, &entry)?;
        write_entry(alloc, &entry, sink)?;
    }
    Ok(covers)
}
