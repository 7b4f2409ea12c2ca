//! What two layers, one upon the other, do to each other: the area that they share, the support of each
//! case, and the straight cuts that no case crosses.
#![tactic(auto)]

mod axes;
mod cuts;
mod rules;
mod shares;
mod spans;

pub use cuts::{Runs, straight_run};
pub use rules::{Rule, meets};
pub use shares::{contact, supports};

#[cfg(test)]
mod tests;
