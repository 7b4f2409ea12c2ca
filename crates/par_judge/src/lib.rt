//! Entries of a report judged side by side, and orders planned side by side.
#![tactic(auto)]

mod gates;
mod plans;
mod workers;

pub use gates::{Gate, OpenGate};
pub use plans::{Numbered, plan_all, plan_through};
pub use workers::{judge_all, judge_through};

#[cfg(test)]
mod tests;
