ghost use Rattle.std.specs.Prelude.{◌≡◌};
ghost use Rattle.plan_entries.specs.Entries.{number_of_entry, is_refused as is_refused_entry};

use crate::listed::Layers;
use order_reader::{Order, RowFault};
use plan_geometry::Inst;
use stack_builder::StackAnswer;
use weightings::Cert;

/// Whether the count of a plan is known to be the greatest.
#[derive(Clone, Copy, PartialEq, Eq, Debug)]
pub enum Status {
    /// Count and bound are equal.
    Optimal,
    /// The count is below the bound.
    StillOpen,
}

/// What was planned for the order of a row.
#[derive(Drop)]
pub struct Plan {
    /// The number of the row, from 1.
    pub number: u32,
    pub order: Order,
    /// The instance that was planned, which has the same partitions of its sides as the order's own.
    pub reduced: Inst,
    /// How many cases a layer has.
    pub count: u32,
    /// How many cases no layer exceeds.
    pub bound: u32,
    pub status: Status,
    /// What shows the bound.
    pub cert: Cert,
    /// A layer on the order's own pallet, and its mirrored and turned forms.
    pub layers: Layers,
    /// How many layers the order's height and weight allow.
    pub allowed: u32,
    /// The numbers of the stacked layers, or the rules that have no stack.
    pub stack: StackAnswer,
}

/// What a report says of a row: its plan, or the number of the row and its fault.
#[derive(Drop)]
pub enum Entry {
    Planned(Plan),
    Refused { number: u32, fault: RowFault },
}

impl Entry {
    /// The number of the row, from 1.
    pub fn number(&self) -> u32
        ensures { result ≡ number_of_entry self.now }
    {
        match self {
            Entry::Planned(plan) => plan.number,
            Entry::Refused { number, .. } => *number,
        }
    }

    /// Whether the row was refused.
    pub fn is_refused(&self) -> bool
        ensures { result ≡ is_refused_entry self.now }
    {
        matches!(self, Entry::Refused { .. })
    }
}
