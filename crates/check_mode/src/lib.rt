//! The modes `check` and `upgrade`: a report is read, and the verdicts of its entries are written line by line, or the
//! same entries in the form of today.
#![tactic(auto)]

mod checks;
mod laws;
mod upgrades;
mod writing;

pub use checks::{check, is_no, write_line};
pub use laws::{checks_are_complete, upgrades_are_complete};
pub use upgrades::{upgrade, write_entry};

#[cfg(test)]
mod tests;
