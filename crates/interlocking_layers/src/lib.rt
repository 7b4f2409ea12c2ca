//! Another layer of as many cases, one of whose forms goes upon it under the contact rules of an order.
#![tactic(auto)]

mod acceptance;
mod centring;
mod cuts;
mod drawing;
mod effort;
mod footprints;
mod grids;
mod interlocking;
mod search;
mod spans;
mod splits;
mod wanted;

pub use effort::{CUTS_LOOKED_AT, LAYERS_TESTED, PAIRS_TESTED};
pub use interlocking::interlocking_layer;

#[cfg(test)]
mod tests;
