//! The lines of a plan's listed layers, and of its allowed number with the answer on the stack; and the reading
//! of such lines.
#![tactic(auto)]

mod laws;
mod layer_lines;
mod layer_puts;
mod layer_words;
mod stack_lines;
mod stack_puts;
mod stack_words;

pub use laws::{
    answers_are_read, answers_are_short, answers_have_one_spelling, layers_are_read,
    layers_are_short, layers_have_one_spelling,
};
pub use layer_lines::layers_from;
pub use layer_puts::put_layers;
pub use plan_memory::Memory;
pub use stack_lines::answer_from;
pub use stack_puts::put_answer;

#[cfg(test)]
mod tests;
