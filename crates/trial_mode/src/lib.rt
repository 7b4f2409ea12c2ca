//! The mode `trial`: made orders are planned and judged in memory, and a summary is written.
#![tactic(auto)]

mod laws;
mod tallies;
mod trials;

pub use laws::trials_are_complete;
pub use trials::trial;

#[cfg(test)]
mod tests;
