// Counting what comes of made orders.
ghost use Rattle.std.specs.Prelude.{◌≡◌, ◌≤◌, cond};
ghost use Rattle.trial_mode.specs.Trials.{is_planned as is_planned_entry, cases_of as cases_of_entry, is_optimal as is_optimal_entry, is_stacked as is_stacked_entry, is_yes as is_yes_verdict, says_optimal, has_stack as has_stack_value};

use plan_entries::{Entry, Status};
use report_checker::Verdict;
use stack_builder::StackAnswer;

pub(crate) fn is_planned(entry: &Entry) -> bool
    ensures { result ≡ is_planned_entry entry.now }
{
    match entry {
        Entry::Planned(_) => true,
        Entry::Refused { .. } => false,
    }
}

// The cases of a layer of the plan.
pub(crate) fn cases_of(entry: &Entry) -> u32
    ensures { result ≡ cases_of_entry entry.now }
{
    match entry {
        Entry::Planned(plan) => plan.count,
        Entry::Refused { .. } => 0,
    }
}

pub(crate) fn is_optimal(entry: &Entry) -> bool
    ensures { result ≡ is_optimal_entry entry.now }
{
    match entry {
        Entry::Planned(plan) => is_status_optimal(plan.status),
        Entry::Refused { .. } => false,
    }
}

fn is_status_optimal(status: Status) -> bool
    ensures { result ≡ says_optimal status }
{
    match status {
        Status::Optimal => true,
        Status::StillOpen => false,
    }
}

pub(crate) fn is_stacked(entry: &Entry) -> bool
    ensures { result ≡ is_stacked_entry entry.now }
{
    match entry {
        Entry::Planned(plan) => has_stack(&plan.stack),
        Entry::Refused { .. } => false,
    }
}

fn has_stack(answer: &StackAnswer) -> bool
    ensures { result ≡ has_stack_value answer.now }
{
    match answer {
        StackAnswer::Stack(_) => true,
        StackAnswer::Unmet(_) => false,
    }
}

pub(crate) fn is_yes(verdict: Verdict) -> bool
    ensures { result ≡ is_yes_verdict verdict }
{
    match verdict {
        Verdict::Yes => true,
        Verdict::Refused => false,
        Verdict::No { .. } => false,
    }
}

// One where it is so, else none.
pub(crate) fn one_if(so: bool) -> u32
    ensures value { result ≡ cond so 1 0 }
    ensures few { result ≤ 1 }
{
    if so { 1 } else { 0 }
}
