ghost use Rattle.std.specs.Prelude.{◌≡◌, option_map};
ghost use Rattle.texts.specs.Gives.{GivesLine};
ghost use Rattle.report_text.specs.Words.{second_of, id_of_line, id_if};

use crate::faults::fault_line;
use cert_text::Form;
use order_reader::{RowFault, is_id};
use std::alloc::Global;
use std::marker::Model;
use texts::LineStop;

/// The id of an order. Contracts see it as the list of its bytes.
#[derive(Drop)]
pub struct Id {
    bytes: Vec<u8>,
}

impl Model for Id {
    ghost use Rattle.std.specs.Prelude.{ℕ, List};

    ghost Value = { List ℕ };

    ghost view = { λ a. a.bytes.items };
}

impl Id {
    // These bytes.
    fn new(bytes: Vec<u8>) -> Id
        ensures { result ≡ bytes.items }
    {
        Id { bytes }
    }

    // The bytes as a slice.
    pub(crate) fn as_slice(&self) -> &[u8]
        ensures { result.now ≡ self.now }
    {
        self.bytes.as_slice()
    }
}

/// What the second line of an entry says: the id of a planned order, or the fault of a refused row.
#[derive(Drop)]
pub enum Second {
    Id(Id),
    Fault(RowFault),
}

// What stands behind the first word of the line of an id.
#[tactic(auto, unfolding(crate::specs::Words::id_of_line))]
fn id_bytes(line: &[u8]) -> Option<&[u8]>
    ensures { option_map (λ x. x.now) result ≡ id_of_line line.now }
{
    if line.len() < 3 {
        return None;
    }
    let (front, id) = line.split_at(3);
    if front == b"id ".as_slice() {
        Some(id)
    } else {
        None
    }
}

// The id of a line's bytes.
fn id_from(alloc: Global, bytes: &[u8]) -> Result<Id, LineStop>
    ensures { GivesLine (λ x. x) result (id_if bytes.now) }
{
    if !is_id(bytes) {
        return Err(LineStop::Fault);
    }
    let id = bytes.to_vec(alloc)?;
    Ok(Id::new(id))
}

// What the second line of an entry says.
#[tactic(auto, unfolding(crate::specs::Words::second_of))]
pub(crate) fn second_line(alloc: Global, form: Form, line: &[u8]) -> Result<Second, LineStop>
    ensures { GivesLine (λ x. x) result (second_of form line.now) }
{
    match id_bytes(line) {
        Some(bytes) => {
            let id = id_from(alloc, bytes)?;
            Ok(Second::Id(id))
        }
        None => match fault_line(form, line) {
            Some(fault) => Ok(Second::Fault(fault)),
            None => Err(LineStop::Fault),
        },
    }
}
