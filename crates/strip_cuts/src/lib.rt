//! Strip cuts: what the unit lines along x and along y of a pallet demand of its lying and standing cases, and the
//! certificates that such cuts make.
#![tactic(auto)]

mod cuts;
mod laws;
mod values;

pub use cuts::{accepts_strip, is_true_cut, meets_cut};
pub use laws::{cases_lie_or_stand, layouts_meet_cuts, strips_bound};
pub use values::greatest;

#[cfg(test)]
mod tests;
