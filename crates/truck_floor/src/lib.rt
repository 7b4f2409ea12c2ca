//! Loaded pallets on the floor of a truck: the rows of a floors file, the total that the plans of a floor and of a load
//! give together, and the line that tells it.
#![tactic(auto)]

mod floors;
mod laws;
mod puts;
mod readers;
mod totals;

pub use floors::{MOST_FLOORS, is_floor_for, read_floor};
pub use laws::{
    floor_loads_are_bounded, floor_loads_are_reached, floors_fit_their_loads,
    optimal_totals_are_greatest, total_lines_are_read, totals_are_one, totals_are_short,
    totals_have_one_text,
};
pub use plan_memory::Memory;
pub use puts::put_total;
pub use readers::{get_total, total_of};
pub use totals::{Total, TotalLine, floor_total};

#[cfg(test)]
mod tests;
