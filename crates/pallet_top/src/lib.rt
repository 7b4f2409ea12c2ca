//! The whole program, over any source and sink.
#![tactic(auto)]

mod laws;
mod runs;

pub use laws::{
    faults_have_their_cause, lines_are_of_bad_reports, nothing_is_written, plans_are_accepted,
    runs_are_complete,
};
pub use par_judge::{Gate, OpenGate};
pub use program_parts::Finished;
pub use run_parts::{Answer, Code};
pub use runs::{run, run_gated, run_on};

#[cfg(test)]
mod tests;
