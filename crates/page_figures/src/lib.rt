//! The pictures of a page: each form of a layer from above, and the stack in an oblique view, as SVG.
#![tactic(auto)]

mod breaks;
mod forms;
mod laws;
mod sides;
mod slabs;
mod stack;

pub use forms::put_forms;
pub use laws::rectangles_tell_cases;
pub use sides::{Sides, sides_of};
pub use stack::put_stack_figure;

#[cfg(test)]
mod tests;
