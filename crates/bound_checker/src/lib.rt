//! The checker of certificates: whether one shows that no layout of an instance has more than so many cases.
#![tactic(auto)]

mod checks;
mod laws;

pub use checks::check_bound;
pub use laws::accepted_is_bounded;

#[cfg(test)]
mod tests;
