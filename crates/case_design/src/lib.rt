//! The best case size: the sizes that a row of a designs file allows, each as an order of its own, the size that covers most
//! of the pallet among those planned, and the text that tells of both.
#![tactic(auto)]

mod best;
mod briefs;
mod columns;
mod designs;
mod faults;
mod laws;
mod puts;
mod sizes;

pub use best::{Best, Cover, best_cover};
pub use briefs::Brief;
pub use designs::{Design, read_design};
pub use faults::{DesignFault, DesignStop};
pub use laws::{
    bests_are_one, bests_have_one_text, files_have_one_answer, size_rows_are_orders, sizes_are_one,
};
pub use plan_memory::Memory;
pub use puts::{put_best, put_design_head};
pub use sizes::Size;

#[cfg(test)]
mod tests;
