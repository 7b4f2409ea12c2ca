//! The lines of an instance, and the search of tables of weights on them.
#![tactic(auto)]

mod blocks;
mod flows;
mod lines;
mod looks;
mod ranges;
mod search;
mod values;

pub use lines::lines_of;
pub use plan_memory::Memory;
pub use search::{Bounding, End, LineSearch, MOST_TURNS};

#[cfg(test)]
mod tests;
