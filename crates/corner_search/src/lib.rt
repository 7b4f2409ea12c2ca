//! The walk over the corner states of an instance, within a budget of states.
#![tactic(auto)]

mod search;

pub use search::{Walk, exhaust};

#[cfg(test)]
mod tests;
