//! The plan of an order: a layer of many cases, a bound on the cases of any layer with what shows it, and the stack.
#![tactic(auto)]

mod bounds;
mod guides;
mod listing;
mod planning;
mod search;
mod settling;
mod tables;

pub use planning::plan_order;

#[cfg(test)]
mod tests;
