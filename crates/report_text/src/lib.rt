//! Reports as text, entry by entry, and the reading of such texts.
#![tactic(auto)]

mod cursors;
mod entries;
mod faults;
mod heads;
mod laws;
mod nexts;
mod numbers;
mod orders;
mod pieces;
mod puts;
mod reports;
mod seconds;

pub use cert_text::Form;
pub use cursors::Entries;
pub use entries::{EntryFault, entry_from, get_entry};
pub use laws::{
    certificates_are_short, entries_are_read, entries_have_one_spelling, old_entries_are_new,
    old_reports_are_new, reports_are_lines, reports_are_short, reports_have_one_spelling,
};
pub use pieces::{head_line, put_done, put_head};
pub use plan_entries::{Entry, Layers, Listed, Plan, Spots, Status, is_in_range};
pub use plan_memory::Memory;
pub use puts::{PutStop, put_entry};
pub use reports::{ReportFault, check_text};

#[cfg(test)]
mod tests;
