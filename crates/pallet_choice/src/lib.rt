//! The choice among a plan's entries, one for each pallet: the entry that holds the most cases, its rivals, and the
//! text that tells of both.
#![tactic(auto)]

mod choices;
mod laws;
mod puts;
mod tails;
mod words;

pub use choices::{Choice, Score, choose};
pub use laws::{
    choices_are_one, choices_are_tails, longest_tails_are_one, put_tails_are_got, tails_are_read,
    tails_are_short, tails_have_one_text,
};
pub use plan_memory::Memory;
pub use puts::put_choice;
pub use tails::{Tail, TailFault, get_choice, tail_from};

#[cfg(test)]
mod tests;
