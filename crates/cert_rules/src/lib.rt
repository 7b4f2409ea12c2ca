//! Corner trees: the skyline, its moves, and the marks that refute a number of cases.
#![tactic(auto)]

mod blocks;
mod laws;
mod marks;
mod next_places;
mod skyline;
mod steps;
mod visits;

pub use laws::{
    marks_are_trees, next_is_normal, paths_place_layouts, refutes_bounds, walks_refute,
};
pub use marks::refutes;
pub use skyline::Skyline;
pub use steps::Step;
pub use visits::{enter, leave};

#[cfg(test)]
mod tests;
