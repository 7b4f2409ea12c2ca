//! The modes `choose` and `check-choice`: which row's pallet holds the most cases in a layer, and whether a text that says
//! so is right.
#![tactic(auto)]

mod choosing;
mod judging;
mod laws;
mod reading;
mod scores;

pub use choosing::choose;
pub use judging::check_choice;
pub use laws::{
    checks_of_choices_are_complete, choices_are_accepted, choices_are_complete, chosen_holds_most,
};

#[cfg(test)]
mod tests;
