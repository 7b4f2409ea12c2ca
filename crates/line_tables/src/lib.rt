//! Tables of weights on few columns and rows of cells, and the bound that each gives on the cases of a layout.
#![tactic(auto)]

mod laws;
mod lines;
mod sums;
mod tables;

pub use laws::{blocks_weigh_their_crossings, cells_weigh_their_crossings};
pub use lines::LINES_END;
pub use plan_memory::Memory;
pub use tables::{LineTable, MOST_LISTED, MOST_WEIGHT};

#[cfg(test)]
mod tests;
