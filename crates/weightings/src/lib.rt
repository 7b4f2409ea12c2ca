//! Weightings of the cells of a pallet, the bound that each gives on the cases of a layout, and the certificates of
//! bounds.
#![tactic(auto)]

mod certs;
mod kinds;
mod laws;
mod leads;
mod lines;
mod measures;
mod tables;

pub use certs::{Cert, Mark, Marks, StripCert, StripCut};
pub use kinds::Weighting;
pub use laws::{lead_is_first_least, members_are_listed};
pub use leads::lead;
pub use tables::{MOST_CELLS, MOST_WEIGHT, WeightTable};

#[cfg(test)]
mod tests;
