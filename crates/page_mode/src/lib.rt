//! The page of a report: a report is read, and one page with a pattern sheet for each of its entries is written, piece by
//! piece. The program `pallet_page` is this over standard input and output.
#![tactic(auto)]

mod laws;
mod pages;
mod runs;

pub use laws::pages_are_complete;
pub use pages::page;
pub use program_parts::Finished;
pub use run_parts::{Answer, Code};
pub use runs::{run, run_on};

#[cfg(test)]
mod tests;
