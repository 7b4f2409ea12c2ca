// Judging the entries of a choice's text, and the choice itself.
ghost use Rattle.std.specs.Prelude.{◌≡◌, ◌≢◌, ◌≤◌, ◌<◌, ◌↔◌, ◌++◌, ◌∷◌, ◌||◌, [], true, false, ℕ, List, Option, length, map, option_map, All, IfOk, OnOk, IsErrOf, MatchOption};
ghost use Rattle.plan_io.specs.Causes.{Rose};
ghost use Rattle.run_parts.specs.Codes.{WritesNothing};
ghost use Rattle.run_parts.specs.Written.{Wrote, WrotePart};
ghost use Rattle.cert_text.specs.declared.forms.Form.TheVariants.{Two};
ghost use Rattle.plan_entries.specs.Ranges.{IsInRange};
ghost use Rattle.plan_entries.specs.declared.entries.Entry.{Entry};
ghost use Rattle.report_text.specs.Reports.{done_text};
ghost use Rattle.report_checker.specs.declared.verdicts.Verdict.{Verdict};
ghost use Rattle.report_checker.specs.Verdicts.{IsVerdict};
ghost use Rattle.par_judge.specs.Judged.{AreVerdicts};
ghost use Rattle.pallet_choice.specs.declared.choices.Score.{Score};
ghost use Rattle.pallet_choice.specs.Choices.{IsChoice};
ghost use Rattle.pallet_choice.specs.Text.{count_told, bound_told, told_of_both, told_by, tail_value};
ghost use Rattle.choice_text.specs.Answers.{file_in};
ghost use Rattle.check_mode.specs.Verdicts.{AreFirstVerdicts, is_no as is_no_verdict, any_no, line_of, verdict_lines};
ghost use Rattle.choice_mode.specs.Scores.{scores_of};
ghost use Rattle.choice_mode.specs.Judging.{TellsRight, MayEnd, choice_line, judgement_text};
ghost use Rattle.choice_mode.specs.CheckRuns.{CheckChoiceRan};

use crate::reading::{choice_of, read_bytes};
use crate::scores::keep_score;
use check_mode::{is_no, write_line};
use choice_text::{ChoiceText, Entries, Tail};
use pallet_choice::{Choice, Score, choose as choice_among};
use plan_entries::Entry;
use plan_io::{Sink, Source};
use plan_memory::Memory;
use report_checker::{Verdict, judge};
use report_reading::plain;
use report_text::put_done;
use run_parts::{Answer, Code, WriteStop, send};
use std::alloc::Global;

/// Reads the text of a choice, and writes the verdict of each of its entries as a line, then at once whether the choice is
/// right and the number of entries. The whole text is read once before anything is written.
pub fn check_choice<S: Source, K: Sink>(alloc: Global, source: &mut S, sink: &mut K) -> Answer
    ensures ran { CheckChoiceRan (S.past source.old) (K.past sink.old) result.code result.line (S.past source.new) (K.past sink.new) }
    ensures nothing { WritesNothing result.code → sink.new ≡ sink.old }
    // A sink that took nothing was not called, unless a write failed.
    ensures untouched { result.code ≢ Code.WriteFault → K.past sink.new ≡ K.past sink.old → sink.new ≡ sink.old }
{
    let bytes = match read_bytes(alloc, source) {
        Ok(bytes) => bytes,
        Err(answer) => return answer,
    };
    let choice = match choice_of(alloc, &bytes) {
        Ok(choice) => choice,
        Err(answer) => return answer,
    };
    match write_judgement(alloc, choice, sink) {
        Ok(true) => plain(Code::Done),
        Ok(false) => plain(Code::Findings),
        Err(WriteStop::Fault) => plain(Code::WriteFault),
        Err(WriteStop::Memory) => plain(Code::Memory),
    }
}

// Writes the verdicts of all entries, whether the choice is right, and the number of entries; answers whether it is right.
fn write_judgement<K: Sink>(
    alloc: Global,
    choice: ChoiceText<'_>,
    sink: &mut K,
) -> Result<bool, WriteStop>
    requires { All (IsInRange Two) choice.entries }
    ensures ok { IfOk result (λ right. (vs : List Verdict) × AreVerdicts choice.entry.entries vs × TellsRight (file_in choice.entry) vs right
        × Wrote (K.past sink.old) (K.past sink.new) (judgement_text choice.entry.entries vs right)) }
    ensures part { IsErrOf result WriteStop.Fault → (vs : List Verdict) × (end : List ℕ) × AreFirstVerdicts choice.entry.entries vs
        × MayEnd (file_in choice.entry) vs end × WrotePart (K.past sink.old) (K.past sink.new) (verdict_lines choice.entry.entries vs ++ end) }
    ensures rose { IsErrOf result WriteStop.Fault → Rose (K.past sink.old).faults (K.past sink.new).faults }
    ensures memory { IsErrOf result WriteStop.Memory → (vs : List Verdict) × AreFirstVerdicts choice.entry.entries vs
        × Wrote (K.past sink.old) (K.past sink.new) (verdict_lines choice.entry.entries vs) }
    ensures unsent { IsErrOf result WriteStop.Memory → K.past sink.new ≡ K.past sink.old → sink.new ≡ sink.old }
    ensures later { (K.past sink.old).faults ≤ (K.past sink.new).faults }
{
    let ChoiceText { mut entries, tail } = choice;
    let count = entries.left();
    let seen = judge_entries(alloc, &mut entries, sink)?;
    let Ok(right) = is_right(alloc, &seen, &tail) else {
        return Err(WriteStop::Memory);
    };
    let Ok(text) = ending(alloc, right, count) else {
        return Err(WriteStop::Memory);
    };
    send(sink, &text)?;
    Ok(right)
}

// What is kept of the entries that were judged.
#[derive(Drop)]
struct Seen {
    // Whether a verdict is no.
    no: bool,
    // The scores of the planned entries.
    scores: Vec<Score>,
}

// Writes the verdicts of all entries, one by one.
fn judge_entries<K: Sink>(
    alloc: Global,
    entries: &mut Entries<'_>,
    sink: &mut K,
) -> Result<Seen, WriteStop>
    requires { All (IsInRange Two) entries.old }
    ensures ok { IfOk result (λ seen. (vs : List Verdict) × AreVerdicts entries.old vs × (any_no vs ≡ seen.no)
        × (seen.scores.items ≡ scores_of entries.old) × Wrote (K.past sink.old) (K.past sink.new) (verdict_lines entries.old vs)) }
    ensures part { IsErrOf result WriteStop.Fault → (vs : List Verdict) × AreFirstVerdicts entries.old vs
        × WrotePart (K.past sink.old) (K.past sink.new) (verdict_lines entries.old vs) }
    ensures rose { IsErrOf result WriteStop.Fault → Rose (K.past sink.old).faults (K.past sink.new).faults }
    ensures memory { IsErrOf result WriteStop.Memory → (vs : List Verdict) × AreFirstVerdicts entries.old vs
        × Wrote (K.past sink.old) (K.past sink.new) (verdict_lines entries.old vs) }
    ensures untouched { OnOk result (K.past sink.new ≡ K.past sink.old → sink.new ≡ sink.old) }
    ensures unsent { IsErrOf result WriteStop.Memory → K.past sink.new ≡ K.past sink.old → sink.new ≡ sink.old }
    ensures later { (K.past sink.old).faults ≤ (K.past sink.new).faults }
{
    let mut seen = Seen {
        no: false,
        scores: Vec::new(alloc),
    };
    while entries.left() > 0 {
        judge_next(alloc, entries, &mut seen, sink)?;
    }
    Ok(seen)
}

// Takes the next entry, writes its verdict, and keeps what is kept of it.
fn judge_next<K: Sink>(
    alloc: Global,
    entries: &mut Entries<'_>,
    seen: &mut Seen,
    sink: &mut K,
) -> Result<(), WriteStop>
    requires some { 0 < length entries.old }
    requires ranges { All (IsInRange Two) entries.old }
    ensures ok { OnOk result ((e : Entry) × (v : Verdict) × (entries.old ≡ e ∷ entries.new) × IsVerdict e v
        × (seen.new.no ≡ (seen.old.no || is_no_verdict v)) × (seen.new.scores.items ≡ seen.old.scores.items ++ scores_of (e ∷ []))
        × Wrote (K.past sink.old) (K.past sink.new) (line_of e v)) }
    ensures part { IsErrOf result WriteStop.Fault → (e : Entry) × (v : Verdict) × (entries.old ≡ e ∷ entries.new) × IsVerdict e v
        × WrotePart (K.past sink.old) (K.past sink.new) (line_of e v) }
    ensures rose { IsErrOf result WriteStop.Fault → Rose (K.past sink.old).faults (K.past sink.new).faults }
    ensures memory { IsErrOf result WriteStop.Memory → sink.new ≡ sink.old }
    ensures later { (K.past sink.old).faults ≤ (K.past sink.new).faults }
{
    let Some(entry) = next_entry(alloc, entries)? else {
        unreachable!();
    };
    judge_entry(alloc, &entry, seen, sink)
}

// The next entry, if one is left.
fn next_entry(alloc: Global, entries: &mut Entries<'_>) -> Result<Option<Entry>, WriteStop>
    ensures next { IfOk result (λ next. MatchOption next (entries.old ≡ []) (λ e. entries.old ≡ e ∷ entries.new)) }
    ensures only { IsErrOf result WriteStop.Fault → ⊥ }
{
    match entries.next(alloc) {
        Ok(next) => Ok(next),
        Err(Memory) => Err(WriteStop::Memory),
    }
}

// Writes the verdict of an entry, and keeps what is kept of it.
fn judge_entry<K: Sink>(
    alloc: Global,
    entry: &Entry,
    seen: &mut Seen,
    sink: &mut K,
) -> Result<(), WriteStop>
    requires { IsInRange Two entry.now }
    ensures ok { OnOk result ((v : Verdict) × IsVerdict entry.now v × (seen.new.no ≡ (seen.old.no || is_no_verdict v))
        × (seen.new.scores.items ≡ seen.old.scores.items ++ scores_of (entry.now ∷ []))
        × Wrote (K.past sink.old) (K.past sink.new) (line_of entry.now v)) }
    ensures part { IsErrOf result WriteStop.Fault → (v : Verdict) × IsVerdict entry.now v
        × WrotePart (K.past sink.old) (K.past sink.new) (line_of entry.now v) }
    ensures rose { IsErrOf result WriteStop.Fault → Rose (K.past sink.old).faults (K.past sink.new).faults }
    ensures memory { IsErrOf result WriteStop.Memory → sink.new ≡ sink.old }
    ensures later { (K.past sink.old).faults ≤ (K.past sink.new).faults }
{
    let Ok(verdict) = judge(alloc, entry) else {
        return Err(WriteStop::Memory);
    };
    keep_score(&mut seen.scores, entry)?;
    write_line(alloc, entry, verdict, sink)?;
    seen.no |= is_no(verdict);
    Ok(())
}

// Whether no verdict is no, and the text tells the choice among the planned entries.
fn is_right(alloc: Global, seen: &Seen, tail: &Tail) -> Result<bool, Memory>
    ensures { IfOk result (λ right. ((seen.now.no ≡ false) × (chosen : Option Score) × (rivals : List Score)
        × IsChoice seen.now.scores.items chosen rivals × (tail_value tail.now ≡ told_of_both chosen rivals)) ↔ (right ≡ true)) }
{
    if seen.no {
        return Ok(false);
    }
    let choice = choice_among(alloc, &seen.scores)?;
    tells(alloc, tail, &choice)
}

// Whether the text tells this choice.
fn tells(alloc: Global, tail: &Tail, choice: &Choice) -> Result<bool, Memory>
    ensures { IfOk result (λ same. (same ≡ true) ↔ (tail_value tail.now ≡ told_by choice.now)) }
{
    let rivals = rivals_told(alloc, &choice.rivals)?;
    Ok(tail.chosen == chosen_told(choice.chosen) && are_same(&tail.rivals, &rivals))
}

// What the text of a choice tells of the chosen entry.
fn chosen_told(chosen: Option<Score>) -> Option<(u32, u32)>
    ensures { result ≡ option_map count_told chosen }
{
    let score = chosen?;
    Some((score.number, score.count))
}

// What the text of a choice tells of the rivals.
fn rivals_told(alloc: Global, rivals: &[Score]) -> Result<Vec<(u32, u32)>, Memory>
    ensures { IfOk result (λ told. told.items ≡ map bound_told rivals.now) }
{
    let told = rivals
        .iter()
        .map(|score| (score.number, score.bound))
        .collect(alloc)?;
    Ok(told)
}

fn are_same(a: &[(u32, u32)], b: &[(u32, u32)]) -> bool
    ensures { (result ≡ true) ↔ (a.now ≡ b.now) }
{
    a == b
}

// What stands behind the verdicts of so many entries.
fn ending(alloc: Global, right: bool, count: u32) -> Result<Vec<u8>, Memory>
    ensures { IfOk result (λ text. text.items ≡ choice_line right ++ done_text count) }
{
    let mut text = Vec::new(alloc);
    if right {
        text.extend_from_slice(b"choice yes\n")?;
    } else {
        text.extend_from_slice(b"choice no\n")?;
    }
    put_done(&mut text, count)?;
    Ok(text)
}
