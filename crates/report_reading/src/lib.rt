//! Reading a report: all its bytes, its entries one after another, and the answer of a run that gets none.
#![tactic(auto)]

mod reading;

pub use reading::{bad_report, entries_of, next_entry, plain, read_bytes};

#[cfg(test)]
mod tests;
