//! What a sheet says in words of a stack: which layer has which form, its totals, or the rules that are unmet.
#![tactic(auto)]

mod layers;
mod places;
mod stacks;
mod totals;
mod unmet;

pub use stacks::put_stack_words;

#[cfg(test)]
mod tests;
