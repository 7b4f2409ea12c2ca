//! The text of a page of pattern sheets in HTML, for people who stack pallets: the head with the styles, a sheet for each
//! entry of a report, and the summary. It is appended piece by piece.
#![tactic(auto)]

mod closing;
mod counts;
mod page;
mod rows;
mod sheets;
mod styles;
mod summary;

pub use page::{put_closing, put_sheet, put_top};
pub use summary::Summary;

#[cfg(test)]
mod tests;
