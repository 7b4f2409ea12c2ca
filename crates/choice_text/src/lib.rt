//! The text of a choice among pallets: the entries, one for each pallet, which of them is chosen, and its rivals. It is
//! read entry by entry.
#![tactic(auto)]

mod choices;
mod cursors;
mod entries;
mod heads;
mod laws;
mod lines;

pub use choices::{ChoiceText, check_choice_text};
pub use cursors::Entries;
pub use heads::{head_line, put_choice_head};
pub use laws::{choices_are_lines, choices_are_short, choices_have_one_spelling};
pub use lines::{done_at, entry_follows};
pub use pallet_choice::Tail;
pub use plan_entries::Entry;
pub use plan_memory::Memory;
pub use report_text::ReportFault;

#[cfg(test)]
mod tests;
