//! Orders from a file of comma-separated records: each row is an order that passes all tests, or is
//! refused with the first test that it fails.
#![tactic(auto)]

mod checks;
mod faults;
mod fields;
mod orders;
mod records;
mod rows;

pub use checks::is_id;
pub use faults::{OrderFail, RowFault};
pub use fields::{Field, all_fields};
pub use orders::Order;
pub use plan_memory::Memory;
pub use records::{has_fields, read_records};
pub use rows::{MOST_ROWS, ReadStop, Row, read_orders, read_row};

#[cfg(test)]
mod tests;
