//! What a report has for each row of an orders file: the plan of an order, or why the row was refused.
#![tactic(auto)]

mod entries;
mod listed;
mod ranges;

pub use entries::{Entry, Plan, Status};
pub use listed::{Layers, Listed, Spots};
pub use ranges::is_in_range;

#[cfg(test)]
mod tests;
