//! The mode `design`: a designs file is read, and which of the sizes that it allows covers most of the pallet is written, with
//! the plan of each.
#![tactic(auto)]

mod covers;
mod designing;
mod laws;
mod reading;

pub use designing::design;
pub use laws::{best_covers_most, designs_are_complete};

#[cfg(test)]
mod tests;
