//! The mode `plan`: orders are read, and their report is written entry by entry, with drawings where they are asked for.
#![tactic(auto)]

mod entries;
mod groups;
mod laws;
mod pieces;
mod reports;

pub use entries::plan_row;
pub use groups::next_entry;
pub use laws::plans_are_complete;
pub use reports::{plan, read_rows};

#[cfg(test)]
mod tests;
