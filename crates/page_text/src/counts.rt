ghost use Rattle.std.specs.Prelude.{◌≡◌, ◌+◌, ◌<◌, ◌++◌, ◌∷◌, [], if◌then◌else◌, List, length};
ghost use Rattle.plan_entries.specs.declared.entries.Entry.{Entry};
ghost use Rattle.page_text.specs.Counts.{is_planned as is_planned_entry, is_greatest as is_greatest_entry, is_open as is_open_entry, is_unmet as is_unmet_entry, counts_of};

use plan_entries::{Entry, Status};
use stack_builder::StackAnswer;

/// How many entries of each kind there are.
#[derive(Clone, Copy)]
pub struct Counts {
    pub orders: u32,
    pub planned: u32,
    pub greatest: u32,
    pub still_open: u32,
    pub unmet: u32,
    pub refused: u32,
}

// Whether the entry is a plan.
fn is_planned(entry: &Entry) -> bool
    ensures { result ≡ is_planned_entry entry.now }
{
    matches!(entry, Entry::Planned(_))
}

// Whether the entry is a plan whose layer is proved the greatest.
fn is_greatest(entry: &Entry) -> bool
    ensures { result ≡ is_greatest_entry entry.now }
{
    match entry {
        Entry::Planned(plan) => matches!(plan.status, Status::Optimal),
        Entry::Refused { .. } => false,
    }
}

// Whether the entry is a plan of which it is open whether a layer can have more cases.
fn is_open(entry: &Entry) -> bool
    ensures { result ≡ is_open_entry entry.now }
{
    match entry {
        Entry::Planned(plan) => matches!(plan.status, Status::StillOpen),
        Entry::Refused { .. } => false,
    }
}

// Whether the entry is a plan whose rules are unmet.
fn is_unmet(entry: &Entry) -> bool
    ensures { result ≡ is_unmet_entry entry.now }
{
    match entry {
        Entry::Planned(plan) => matches!(plan.stack, StackAnswer::Unmet(_)),
        Entry::Refused { .. } => false,
    }
}

// One more, where this is so.
fn one_more(count: u32, is_so: bool) -> u32
    requires { count < 4294967295 }
    ensures { result ≡ count + (if is_so then 1 else 0) }
{
    if is_so { count + 1 } else { count }
}

impl Counts {
    /// Of no entry.
    pub fn new() -> Counts
        ensures { result ≡ counts_of [] }
    {
        Counts {
            orders: 0,
            planned: 0,
            greatest: 0,
            still_open: 0,
            unmet: 0,
            refused: 0,
        }
    }

    /// The counts of the same entries and of this one.
    pub fn with(self, entry: &Entry) -> Counts
        requires few { (es : List Entry) × (self ≡ counts_of es) × (length es < 256) }
        ensures { (es : List Entry) → self ≡ counts_of es → result ≡ counts_of (es ++ entry.now ∷ []) }
    {
        Counts {
            orders: self.orders + 1,
            planned: one_more(self.planned, is_planned(entry)),
            greatest: one_more(self.greatest, is_greatest(entry)),
            still_open: one_more(self.still_open, is_open(entry)),
            unmet: one_more(self.unmet, is_unmet(entry)),
            refused: one_more(self.refused, entry.is_refused()),
        }
    }
}
