//! Walks over corner states that a table of weights on few lines guides to a layer of one case more.
#![tactic(auto)]

mod climbs;
mod guides;
mod manners;
mod sides;
mod skylines;
mod walks;

pub use climbs::climb;
pub use plan_memory::Memory;

#[cfg(test)]
mod tests;
