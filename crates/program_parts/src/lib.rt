//! What the programs of this repository share: the words after a program's name, the streams of a run that are tied to what
//! its reader and its writer tell, and what is said of a run on standard error.
#![tactic(auto)]

mod arguments;
mod remarks;
mod tied;

pub use arguments::words;
pub use remarks::Remark;
pub use tied::{Finished, Moment, TiedSink, TiedSource};
