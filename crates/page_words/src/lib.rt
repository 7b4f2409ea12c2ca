//! What a sheet says in words of an order, and of a refused row, for people who stack pallets.
#![tactic(auto)]

mod counts;
mod kilograms;
mod refused;
mod rules;
mod table;
mod words;

pub use kilograms::put_kilograms;
pub use refused::put_refused_sheet;
pub use rules::put_rule;
pub use words::put_order_words;

#[cfg(test)]
mod tests;
