// A trial, from the made orders to the summary.
ghost use Rattle.std.specs.Prelude.{◌≡◌, ◌≤◌, ◌+◌, ◌*◌, ◌++◌, ◌∷◌, [], List, ℕ, length, IfOk, All};
ghost use Rattle.run_parts.specs.Codes.{WritesNothing};
ghost use Rattle.report_checker.specs.Verdicts.{IsVerdict};
ghost use Rattle.made_orders.specs.Made.{IsAccepted, made_rows_of};
ghost use Rattle.made_orders.specs.Summaries.{summary_text};
ghost use Rattle.plan_mode.specs.Entries.{IsEntryOf};
ghost use Rattle.trial_mode.specs.Trials.{Tried, AreTriedFrom, cases_of as cases_of_entry, summary_of, IsCounted, IsTrialOf};
ghost use Rattle.trial_mode.specs.Runs.{TrialRan};

use crate::tallies::{cases_of, is_optimal, is_planned, is_stacked, is_yes, one_if};
use made_orders::{Summary, made_rows, put_summary};
use order_reader::Row;
use plan_entries::Entry;
use plan_io::Sink;
use plan_memory::Memory;
use plan_mode::plan_row;
use report_checker::{Verdict, judge};
use run_parts::{Code, send};
use std::alloc::Global;

/// Plans and judges the sixteen made orders of a number, and writes the summary, which stands whole before its first byte
/// is written. Nothing is read.
pub fn trial<K: Sink>(alloc: Global, number: u32, sink: &mut K) -> Code
    ensures ran { TrialRan number (K.past sink.old) result (K.past sink.new) }
    ensures nothing { WritesNothing result → sink.new ≡ sink.old }
    ensures untouched { result ≡ Code.Memory → sink.new ≡ sink.old }
{
    let Ok(text) = trial_text(alloc, number) else {
        return Code::Memory;
    };
    match send(sink, &text) {
        Ok(()) => Code::Done,
        Err(_) => Code::WriteFault,
    }
}

// The text of the summary.
fn trial_text(alloc: Global, number: u32) -> Result<Vec<u8>, Memory>
    ensures { IfOk result (λ text. (tried : List Tried) × IsTrialOf number tried
        × (text.items ≡ summary_text (summary_of number tried))) }
{
    let summary = summary(alloc, number)?;
    let mut text = Vec::new(alloc);
    put_summary(&mut text, &summary)?;
    Ok(text)
}

// The summary of the made orders of a number.
fn summary(alloc: Global, number: u32) -> Result<Summary, Memory>
    ensures { IfOk result (λ s. (tried : List Tried) × IsTrialOf number tried × (s ≡ summary_of number tried)) }
{
    let rows = made_rows(alloc, number)?;
    sum_rows(alloc, number, &rows)
}

// The summary of rows that are all accepted.
fn sum_rows(alloc: Global, number: u32, rows: &[Row]) -> Result<Summary, Memory>
    requires { length rows.now ≤ 16 }
    ensures { IfOk result (λ s. (tried : List Tried) × AreTriedFrom 1 rows.now tried × (s ≡ summary_of number tried)) }
{
    let mut summary = Summary {
        number,
        rows: 0,
        planned: 0,
        cases: 0,
        optimal: 0,
        stacks: 0,
        yes: 0,
    };
    for row in rows {
        let (entry, verdict) = try_row(alloc, summary.rows + 1, row)?;
        summary = with_entry(summary, &entry, verdict);
    }
    Ok(summary)
}

// The entry of a row, and the verdict on it.
#[tactic(auto, using(crate::proofs::Accepted::few_cases))]
fn try_row(alloc: Global, number: u32, row: &Row) -> Result<(Entry, Verdict), Memory>
    requires first { 1 ≤ number }
    requires last { number ≤ 256 }
    ensures entry { IfOk result (λ t. IsEntryOf number row.now t.0) }
    ensures verdict { IfOk result (λ t. IsVerdict t.0 t.1) }
    ensures few { IfOk result (λ t. cases_of_entry t.0 ≤ 1000) }
{
    let entry = plan_row(alloc, number, row)?;
    let verdict = judge(alloc, &entry)?;
    Ok((entry, verdict))
}

// The summary with one entry more.
#[tactic(auto, using(crate::proofs::Counts::one_more))]
fn with_entry(summary: Summary, entry: &Entry, verdict: Verdict) -> Summary
    requires counted { IsCounted summary 16 }
    requires few { cases_of_entry entry.now ≤ 1000 }
    ensures { (tried : List Tried) → summary ≡ summary_of summary.number tried
        → result ≡ summary_of summary.number (tried ++ (entry.now, verdict) ∷ []) }
{
    Summary {
        number: summary.number,
        rows: summary.rows + 1,
        planned: summary.planned + one_if(is_planned(entry)),
        cases: summary.cases + cases_of(entry),
        optimal: summary.optimal + one_if(is_optimal(entry)),
        stacks: summary.stacks + one_if(is_stacked(entry)),
        yes: summary.yes + one_if(is_yes(verdict)),
    }
}
