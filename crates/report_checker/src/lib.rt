//! A judge of the entries of a report: whether a plan is sound for its order, and which part of it is not.
#![tactic(auto)]

mod checks;
mod judges;
mod laws;
mod layers;
mod puts;
mod verdicts;

pub use judges::judge;
pub use laws::{accepted_plans_are_sound, entries_have_one_verdict, sound_plans_are_accepted};
pub use puts::put_verdict;
pub use verdicts::{Clause, Verdict};

#[cfg(test)]
mod tests;
