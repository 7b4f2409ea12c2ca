// Writing the entries of rows, and the choice among them.
ghost use Rattle.std.specs.Prelude.{◌≡◌, ◌≢◌, ◌≤◌, ◌⊎◌, ◌++◌, ◌∷◌, [], List, Option, ℕ, length, IfOk, OnOk, IsErrOf};
ghost use Rattle.plan_io.specs.Causes.{Rose};
ghost use Rattle.run_parts.specs.Codes.{WritesNothing};
ghost use Rattle.run_parts.specs.Written.{Wrote, WrotePart};
ghost use Rattle.cert_text.specs.declared.forms.Form.TheVariants.{Two};
ghost use Rattle.plan_entries.specs.Entries.{any_refused};
ghost use Rattle.plan_entries.specs.declared.entries.Entry.{Entry};
ghost use Rattle.report_text.specs.Text.{entry_text};
ghost use Rattle.report_text.specs.Reports.{entries_text, done_text};
ghost use Rattle.pallet_choice.specs.declared.choices.Score.{Score};
ghost use Rattle.pallet_choice.specs.Choices.{IsChoice};
ghost use Rattle.pallet_choice.specs.Text.{told_of_both, tail_text};
ghost use Rattle.choice_text.specs.Text.{head_text, file_text};
ghost use Rattle.plan_mode.specs.Entries.{IsEntryOf, AreEntriesOf, AreFirstEntriesOf};
ghost use Rattle.plan_mode.specs.Accepted.{AreAccepted};
ghost use Rattle.choice_mode.specs.Scores.{scores_of};
ghost use Rattle.choice_mode.specs.Choosing.{file_of, MayEnd};
ghost use Rattle.choice_mode.specs.ChooseRuns.{ChooseRan};

use crate::scores::keep_score;
use check_mode::write_entry;
use choice_text::put_choice_head;
use order_reader::Row;
use pallet_choice::{Score, choose as choice_among, put_choice};
use plan_io::{Sink, Source};
use plan_memory::Memory;
use plan_mode::{plan_row, read_rows};
use report_text::put_done;
use run_parts::{Code, WriteStop, send};
use std::alloc::Global;

/// Reads an orders file, and writes which of its rows has the pallet that holds the most cases in a layer: the first line,
/// then the whole text of one row's entry after another, then at once which entry is chosen, its rivals and the number of
/// entries.
pub fn choose<S: Source, K: Sink>(alloc: Global, source: &mut S, sink: &mut K) -> Code
    ensures ran { ChooseRan (S.past source.old) (K.past sink.old) result (S.past source.new) (K.past sink.new) }
    ensures nothing { WritesNothing result → sink.new ≡ sink.old }
    // A sink that took nothing was not called, unless a write failed.
    ensures untouched { result ≢ Code.WriteFault → K.past sink.new ≡ K.past sink.old → sink.new ≡ sink.old }
{
    let rows = match read_rows(alloc, source) {
        Ok(rows) => rows,
        Err(code) => return code,
    };
    match write_choice(alloc, &rows, sink) {
        Ok(true) => Code::Findings,
        Ok(false) => Code::Done,
        Err(WriteStop::Fault) => Code::WriteFault,
        Err(WriteStop::Memory) => Code::Memory,
    }
}

// Writes the text of the choice among rows, and answers whether one was refused.
fn write_choice<K: Sink>(alloc: Global, rows: &[Row], sink: &mut K) -> Result<bool, WriteStop>
    requires { length rows.now ≤ 256 }
    ensures ok { IfOk result (λ found. (es : List Entry) × (chosen : Option Score) × (rivals : List Score) × AreEntriesOf rows.now es
        × AreAccepted es × IsChoice (scores_of es) chosen rivals × (any_refused es ≡ found)
        × Wrote (K.past sink.old) (K.past sink.new) (file_text (file_of es chosen rivals))) }
    ensures part { IsErrOf result WriteStop.Fault → (es : List Entry) × (end : List ℕ) × AreFirstEntriesOf rows.now es
        × MayEnd rows.now es end × WrotePart (K.past sink.old) (K.past sink.new) (head_text ++ (entries_text Two es ++ end)) }
    ensures rose { IsErrOf result WriteStop.Fault → Rose (K.past sink.old).faults (K.past sink.new).faults }
    ensures memory { IsErrOf result WriteStop.Memory → (sink.new ≡ sink.old)
        ⊎ ((es : List Entry) × AreFirstEntriesOf rows.now es
        × Wrote (K.past sink.old) (K.past sink.new) (head_text ++ entries_text Two es)) }
    ensures later { (K.past sink.old).faults ≤ (K.past sink.new).faults }
{
    let Ok(first) = head(alloc) else {
        return Err(WriteStop::Memory);
    };
    send(sink, &first)?;
    let scores = write_entries(alloc, rows, sink)?;
    let Ok(last) = ending(alloc, &scores, rows.len() as u32) else {
        return Err(WriteStop::Memory);
    };
    send(sink, &last)?;
    Ok(scores.len() < rows.len())
}

// The first line.
fn head(alloc: Global) -> Result<Vec<u8>, Memory>
    ensures { IfOk result (λ text. text.items ≡ head_text) }
{
    let mut text = Vec::new(alloc);
    put_choice_head(&mut text)?;
    Ok(text)
}

// What stands behind so many entries, of which those that are planned have these scores.
fn ending(alloc: Global, scores: &[Score], count: u32) -> Result<Vec<u8>, Memory>
    ensures { IfOk result (λ text. (chosen : Option Score) × (rivals : List Score) × IsChoice scores.now chosen rivals
        × (text.items ≡ tail_text (told_of_both chosen rivals) ++ done_text count)) }
{
    let choice = choice_among(alloc, scores)?;
    let mut text = Vec::new(alloc);
    put_choice(&mut text, &choice)?;
    put_done(&mut text, count)?;
    Ok(text)
}

// Writes the entries of rows, each as soon as its text stands whole, and answers the scores of those that are planned.
fn write_entries<K: Sink>(
    alloc: Global,
    rows: &[Row],
    sink: &mut K,
) -> Result<Vec<Score>, WriteStop>
    requires { length rows.now ≤ 256 }
    ensures ok { IfOk result (λ scores. (es : List Entry) × AreEntriesOf rows.now es × (scores.items ≡ scores_of es)
        × Wrote (K.past sink.old) (K.past sink.new) (entries_text Two es)) }
    ensures part { IsErrOf result WriteStop.Fault → (es : List Entry) × AreFirstEntriesOf rows.now es
        × WrotePart (K.past sink.old) (K.past sink.new) (entries_text Two es) }
    ensures rose { IsErrOf result WriteStop.Fault → Rose (K.past sink.old).faults (K.past sink.new).faults }
    ensures memory { IsErrOf result WriteStop.Memory → (es : List Entry) × AreFirstEntriesOf rows.now es
        × Wrote (K.past sink.old) (K.past sink.new) (entries_text Two es) }
    ensures later { (K.past sink.old).faults ≤ (K.past sink.new).faults }
{
    let mut scores = Vec::new(alloc);
    let mut number = 1;
    for row in rows {
        write_row(alloc, number, row, &mut scores, sink)?;
        number += 1;
    }
    Ok(scores)
}

// Writes the entry of a row, and keeps its score, if it is planned.
fn write_row<K: Sink>(
    alloc: Global,
    number: u32,
    row: &Row,
    scores: &mut Vec<Score>,
    sink: &mut K,
) -> Result<(), WriteStop>
    requires first { 1 ≤ number }
    requires last { number ≤ 256 }
    ensures ok { OnOk result ((e : Entry) × IsEntryOf number row.now e × (scores.new.items ≡ scores.old.items ++ scores_of (e ∷ []))
        × Wrote (K.past sink.old) (K.past sink.new) (entry_text Two e)) }
    ensures part { IsErrOf result WriteStop.Fault → (e : Entry) × IsEntryOf number row.now e
        × WrotePart (K.past sink.old) (K.past sink.new) (entry_text Two e) }
    ensures rose { IsErrOf result WriteStop.Fault → Rose (K.past sink.old).faults (K.past sink.new).faults }
    ensures memory { IsErrOf result WriteStop.Memory → sink.new ≡ sink.old }
    ensures later { (K.past sink.old).faults ≤ (K.past sink.new).faults }
{
    let Ok(entry) = plan_row(alloc, number, row) else {
        return Err(WriteStop::Memory);
    };
    keep_score(scores, &entry)?;
    write_entry(alloc, &entry, sink)
}
