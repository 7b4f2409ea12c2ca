//! Where bytes come from and where they go, and the numbers in a text.
#![tactic(auto)]

mod laws;
mod memory_streams;
mod numbers;
mod passed;
mod std_streams;
mod streams;
#[cfg(test)]
mod tests;
mod whole;

pub use laws::{numbers_have_one_text, put_numbers_are_got};
pub use memory_streams::{MemSink, MemSource};
pub use numbers::{get_number, number_of, put_number};
pub use passed::Passed;
pub use plan_memory::Memory;
pub use std_streams::{StdSink, StdSource};
pub use streams::{Failed, Sink, Source};
pub use whole::{ReadFail, WriteFail, read_all, write_all};
