ghost use Rattle.std.specs.Prelude.{◌≡◌, ◌<◌, ◌++◌, ◌∷◌, [], List, OnOk, length};
ghost use Rattle.plan_entries.specs.declared.entries.Entry.{Entry};
ghost use Rattle.page_text.specs.Page.{IsSummaryOf};

use crate::counts::Counts;
use crate::rows::put_row;
use plan_entries::Entry;
use plan_memory::Memory;
use std::alloc::Global;

/// What the summary says of the entries so far: how many of each kind there are, and a row of its table for each.
#[derive(Drop)]
pub struct Summary {
    pub(crate) counts: Counts,
    pub(crate) rows: Vec<u8>,
}

impl Summary {
    /// The summary of no entry.
    #[tactic(auto, unfolding(crate::specs::Page::IsSummaryOf))]
    pub fn new(alloc: Global) -> Summary
        ensures { IsSummaryOf result [] }
    {
        Summary {
            counts: Counts::new(),
            rows: Vec::new(alloc),
        }
    }

    /// Adds an entry, whose sheet is the next.
    #[tactic(auto, unfolding(crate::specs::Page::IsSummaryOf))]
    pub fn add(&mut self, entry: &Entry) -> Result<(), Memory>
        requires few { (es : List Entry) × IsSummaryOf self.old es × (length es < 256) }
        ensures { OnOk result ((es : List Entry) → IsSummaryOf self.old es → IsSummaryOf self.new (es ++ entry.now ∷ [])) }
    {
        self.counts = self.counts.with(entry);
        put_row(&mut self.rows, self.counts.orders, entry)?;
        Ok(())
    }
}
