// Judging the entries of a floor's text, and their totals.
ghost use Rattle.std.specs.Prelude.{◌≡◌, ◌≢◌, ◌≤◌, ◌<◌, ◌↔◌, ◌++◌, ◌∷◌, ◌||◌, ◌*◌, [], true, List, length, All, IfOk, OnOk, IsErrOf, MatchOption};
ghost use Rattle.plan_io.specs.Causes.{Rose};
ghost use Rattle.run_parts.specs.Codes.{WritesNothing};
ghost use Rattle.run_parts.specs.Written.{Wrote, WrotePart};
ghost use Rattle.cert_text.specs.declared.forms.Form.TheVariants.{Two};
ghost use Rattle.plan_entries.specs.Ranges.{IsInRange};
ghost use Rattle.floor_text.specs.declared.rows.FloorRow.{FloorRow};
ghost use Rattle.floor_text.specs.Text.{entries_in};
ghost use Rattle.floor_mode.specs.Judging.{HasRightTotal, IsJudgement, AreJudgements, AreFirstJudgements, is_wrong as is_wrong_row, any_wrong, row_judged, rows_judged, begun_text, judged_text};
ghost use Rattle.floor_mode.specs.CheckRuns.{CheckFloorRan};

use crate::planning::{either, ending};
use crate::reading::{read_bytes, rows_of};
use crate::totals::{go_together, is_total_line};
use check_mode::is_no;
use floor_text::{FloorRow, Rows};
use plan_io::{Sink, Source};
use plan_memory::Memory;
use report_checker::{Verdict, judge, put_verdict};
use report_reading::plain;
use run_parts::{Answer, Code, WriteStop, send};
use std::alloc::Global;

/// What `check-floor` tells of a row: the verdicts of its two entries, and whether its total is right.
#[derive(Clone, Copy, Debug)]
pub struct RowJudgement {
    pub floor: Verdict,
    pub load: Verdict,
    pub right: bool,
}

/// Reads the text of a floor, and writes for each of its rows the verdicts of its entries and whether their total is right,
/// a line each and the three at once, then the number of entries. The whole text is read once before anything is written.
pub fn check_floor<S: Source, K: Sink>(alloc: Global, source: &mut S, sink: &mut K) -> Answer
    ensures ran { CheckFloorRan (S.past source.old) (K.past sink.old) result.code result.line (S.past source.new) (K.past sink.new) }
    ensures nothing { WritesNothing result.code → sink.new ≡ sink.old }
    // A sink that took nothing was not called, unless a write failed.
    ensures untouched { result.code ≢ Code.WriteFault → K.past sink.new ≡ K.past sink.old → sink.new ≡ sink.old }
{
    let bytes = match read_bytes(alloc, source) {
        Ok(bytes) => bytes,
        Err(answer) => return answer,
    };
    let mut rows = match rows_of(alloc, &bytes) {
        Ok(rows) => rows,
        Err(answer) => return answer,
    };
    match write_judgements(alloc, &mut rows, sink) {
        Ok(true) => plain(Code::Findings),
        Ok(false) => plain(Code::Done),
        Err(WriteStop::Fault) => plain(Code::WriteFault),
        Err(WriteStop::Memory) => plain(Code::Memory),
    }
}

// Writes what is told of all rows, and then the number of entries; answers whether something is wrong.
fn write_judgements<K: Sink>(
    alloc: Global,
    rows: &mut Rows<'_>,
    sink: &mut K,
) -> Result<bool, WriteStop>
    requires few { length rows.old ≤ 128 }
    requires ranges { All (IsInRange Two) (entries_in rows.old) }
    ensures ok { IfOk result (λ found. (js : List RowJudgement) × AreJudgements rows.old js × (any_wrong js ≡ found)
        × Wrote (K.past sink.old) (K.past sink.new) (judged_text rows.old js)) }
    ensures part { IsErrOf result WriteStop.Fault → (js : List RowJudgement) × AreFirstJudgements rows.old js
        × WrotePart (K.past sink.old) (K.past sink.new) (begun_text rows.old js) }
    ensures rose { IsErrOf result WriteStop.Fault → Rose (K.past sink.old).faults (K.past sink.new).faults }
    ensures memory { IsErrOf result WriteStop.Memory → (js : List RowJudgement) × AreFirstJudgements rows.old js
        × Wrote (K.past sink.old) (K.past sink.new) (rows_judged rows.old js) }
    ensures unsent { IsErrOf result WriteStop.Memory → K.past sink.new ≡ K.past sink.old → sink.new ≡ sink.old }
    ensures later { (K.past sink.old).faults ≤ (K.past sink.new).faults }
{
    let count = rows.left();
    let found = judge_rows(alloc, rows, sink)?;
    let Ok(last) = ending(alloc, 2 * count) else {
        return Err(WriteStop::Memory);
    };
    send(sink, &last)?;
    Ok(found)
}

// Writes what is told of all rows, one by one, and answers whether something is wrong.
fn judge_rows<K: Sink>(alloc: Global, rows: &mut Rows<'_>, sink: &mut K) -> Result<bool, WriteStop>
    requires { All (IsInRange Two) (entries_in rows.old) }
    ensures ok { IfOk result (λ found. (js : List RowJudgement) × AreJudgements rows.old js × (any_wrong js ≡ found)
        × Wrote (K.past sink.old) (K.past sink.new) (rows_judged rows.old js)) }
    ensures part { IsErrOf result WriteStop.Fault → (js : List RowJudgement) × AreFirstJudgements rows.old js
        × WrotePart (K.past sink.old) (K.past sink.new) (rows_judged rows.old js) }
    ensures rose { IsErrOf result WriteStop.Fault → Rose (K.past sink.old).faults (K.past sink.new).faults }
    ensures memory { IsErrOf result WriteStop.Memory → (js : List RowJudgement) × AreFirstJudgements rows.old js
        × Wrote (K.past sink.old) (K.past sink.new) (rows_judged rows.old js) }
    ensures untouched { OnOk result (K.past sink.new ≡ K.past sink.old → sink.new ≡ sink.old) }
    ensures unsent { IsErrOf result WriteStop.Memory → K.past sink.new ≡ K.past sink.old → sink.new ≡ sink.old }
    ensures later { (K.past sink.old).faults ≤ (K.past sink.new).faults }
{
    let mut found = false;
    while rows.left() > 0 {
        let wrong = judge_next(alloc, rows, sink)?;
        found = either(found, wrong);
    }
    Ok(found)
}

// Takes the next row, writes what is told of it, and answers whether something is wrong.
fn judge_next<K: Sink>(alloc: Global, rows: &mut Rows<'_>, sink: &mut K) -> Result<bool, WriteStop>
    requires some { 0 < length rows.old }
    requires ranges { All (IsInRange Two) (entries_in rows.old) }
    ensures ok { IfOk result (λ wrong. (r : FloorRow) × (j : RowJudgement) × (rows.old ≡ r ∷ rows.new) × IsJudgement r j
        × (is_wrong_row j ≡ wrong) × Wrote (K.past sink.old) (K.past sink.new) (row_judged r j)) }
    ensures part { IsErrOf result WriteStop.Fault → (r : FloorRow) × (j : RowJudgement) × (rows.old ≡ r ∷ rows.new) × IsJudgement r j
        × WrotePart (K.past sink.old) (K.past sink.new) (row_judged r j) }
    ensures rose { IsErrOf result WriteStop.Fault → Rose (K.past sink.old).faults (K.past sink.new).faults }
    ensures memory { IsErrOf result WriteStop.Memory → sink.new ≡ sink.old }
    ensures later { (K.past sink.old).faults ≤ (K.past sink.new).faults }
{
    let Some(row) = next_row(alloc, rows)? else {
        unreachable!();
    };
    judge_row(alloc, &row, sink)
}

// The next row, if one is left.
fn next_row(alloc: Global, rows: &mut Rows<'_>) -> Result<Option<FloorRow>, WriteStop>
    ensures next { IfOk result (λ next. MatchOption next (rows.old ≡ []) (λ r. rows.old ≡ r ∷ rows.new)) }
    ensures only { IsErrOf result WriteStop.Fault → ⊥ }
{
    match rows.next(alloc) {
        Ok(next) => Ok(next),
        Err(Memory) => Err(WriteStop::Memory),
    }
}

// Writes what is told of a row, and answers whether something is wrong.
fn judge_row<K: Sink>(alloc: Global, row: &FloorRow, sink: &mut K) -> Result<bool, WriteStop>
    requires floor { IsInRange Two row.now.floor }
    requires load { IsInRange Two row.now.load }
    ensures ok { IfOk result (λ wrong. (j : RowJudgement) × IsJudgement row.now j × (is_wrong_row j ≡ wrong)
        × Wrote (K.past sink.old) (K.past sink.new) (row_judged row.now j)) }
    ensures part { IsErrOf result WriteStop.Fault → (j : RowJudgement) × IsJudgement row.now j
        × WrotePart (K.past sink.old) (K.past sink.new) (row_judged row.now j) }
    ensures rose { IsErrOf result WriteStop.Fault → Rose (K.past sink.old).faults (K.past sink.new).faults }
    ensures memory { IsErrOf result WriteStop.Memory → sink.new ≡ sink.old }
    ensures later { (K.past sink.old).faults ≤ (K.past sink.new).faults }
{
    let Ok(judgement) = judgement_of(alloc, row) else {
        return Err(WriteStop::Memory);
    };
    let Ok(text) = judgement_text(alloc, row, judgement) else {
        return Err(WriteStop::Memory);
    };
    send(sink, &text)?;
    Ok(is_wrong(judgement))
}

// What is right to tell of a row.
fn judgement_of(alloc: Global, row: &FloorRow) -> Result<RowJudgement, Memory>
    requires floor { IsInRange Two row.now.floor }
    requires load { IsInRange Two row.now.load }
    ensures { IfOk result (λ j. IsJudgement row.now j) }
{
    let floor = judge(alloc, &row.floor)?;
    let load = judge(alloc, &row.load)?;
    let right = !either(is_no(floor), is_no(load)) && is_right_total(row);
    Ok(RowJudgement { floor, load, right })
}

// Whether the orders of a row go together, and its total is that of its entries.
fn is_right_total(row: &FloorRow) -> bool
    requires floor { IsInRange Two row.now.floor }
    requires load { IsInRange Two row.now.load }
    ensures { (result ≡ true) ↔ HasRightTotal row.now }
{
    go_together(&row.floor, &row.load) && is_total_line(&row.floor, &row.load, &row.total)
}

// Whether a verdict is no, or the total is not right.
fn is_wrong(judgement: RowJudgement) -> bool
    ensures { result ≡ is_wrong_row judgement }
{
    is_no(judgement.floor) || is_no(judgement.load) || !judgement.right
}

// What is written of a row.
#[tactic(auto, unfolding(check_mode::specs::Verdicts::line_of))]
fn judgement_text(alloc: Global, row: &FloorRow, judgement: RowJudgement) -> Result<Vec<u8>, Memory>
    ensures { IfOk result (λ text. text.items ≡ row_judged row.now judgement) }
{
    let mut text = Vec::new(alloc);
    put_verdict(&mut text, row.floor.number(), judgement.floor)?;
    put_verdict(&mut text, row.load.number(), judgement.load)?;
    if judgement.right {
        text.extend_from_slice(b"total yes\n")?;
    } else {
        text.extend_from_slice(b"total no\n")?;
    }
    Ok(text)
}
