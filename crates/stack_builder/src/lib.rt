//! How many layers an order allows, and the least stack of variants in which each two neighbours meet the
//! rules that it asks for.
#![tactic(auto)]

mod answers;
mod forms;
mod laws;
mod lists;
mod orders;
mod pairs;
mod reaches;
mod stacks;

pub use laws::{moves_keep_rules, stacks_are_known_by_first_pairs};
pub use lists::{StackAnswer, UnmetRule, UnmetRules, VariantNumbers};
pub use orders::{layers_allowed, order_rules, stack};
pub use pairs::interlocks;

#[cfg(test)]
mod tests;
