//! The modes `floor` and `check-floor`: how many cases go on the floor of a truck, on pallets that are loaded alike, and
//! whether a text that says so is right.
#![tactic(auto)]

mod judging;
mod laws;
mod planning;
mod reading;
mod totals;

pub use judging::{RowJudgement, check_floor};
pub use laws::{
    checks_of_floors_are_complete, floors_are_accepted, floors_are_complete, totals_hold,
};
pub use planning::floor;

#[cfg(test)]
mod tests;
