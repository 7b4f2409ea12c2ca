//! Certificates of bounds as text, and the reading of such texts.
#![tactic(auto)]

mod forms;
mod limits;
mod lines;
mod marks;
mod puts;
mod ranges;
mod rows;
mod spellings;
mod words;

pub use forms::Form;
pub use lines::{CertFault, cert_from, get_cert};
pub use puts::put_cert;
pub use ranges::is_in_range;
pub use spellings::{certificates_are_read, certificates_have_one_spelling};

#[cfg(test)]
mod tests;
