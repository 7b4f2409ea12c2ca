//! The strip bound of an instance, and its certificate.
#![tactic(auto)]

mod lists;
mod seen;
mod tables;

pub use tables::strip;

#[cfg(test)]
mod tests;
