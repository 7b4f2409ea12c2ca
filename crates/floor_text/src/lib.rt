//! The text of a truck floor: for each row of a floors file the entries of its floor and of its load, and their total. It
//! is read row by row.
#![tactic(auto)]

mod cursors;
mod floors;
mod heads;
mod laws;
mod readers;
mod rows;

pub use cursors::Rows;
pub use floors::check_floor_text;
pub use heads::{head_line, put_floor_head};
pub use laws::{floors_are_lines, floors_are_short, floors_have_one_spelling};
pub use plan_entries::Entry;
pub use plan_memory::Memory;
pub use report_text::ReportFault;
pub use rows::{FloorRow, row_text};
pub use truck_floor::TotalLine;

#[cfg(test)]
mod tests;
