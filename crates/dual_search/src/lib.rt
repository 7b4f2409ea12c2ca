//! Tables of weights, one for each cell of a pallet, that bound its layouts, by a game of best answers.
#![tactic(auto)]

mod duals;
mod extremes;
mod laws;
mod positions;
mod raising;
mod rounds;

pub use duals::{MOST_ROUNDS, dual};
pub use laws::dual_is_one;

#[cfg(test)]
mod tests;
