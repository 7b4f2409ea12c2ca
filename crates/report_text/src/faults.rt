ghost use Rattle.std.specs.Prelude.{◌≡◌};
ghost use Rattle.texts.specs.Gives.{GivesOption};
ghost use Rattle.texts.specs.Lines.{words_left};
ghost use Rattle.texts.specs.Words.{word_by};
ghost use Rattle.plan_entries.specs.Ranges.{has_column as has_column_in};
ghost use Rattle.report_text.specs.Words.{fault_name_of, column_of, fault_of_name, fault_of_line};

use cert_text::Form;
use order_reader::{Field, RowFault};
use texts::{is_end, next_word, skip_word};

/// The name of a fault of a row.
#[derive(Clone, Copy, PartialEq, Eq, Debug)]
pub enum FaultName {
    FieldCount,
    BadId,
    BadNumber,
    OutOfRange,
    DoesNotFit,
    TooManyCases,
}

fn name_word(words: Option<&[u8]>) -> Option<(FaultName, Option<&[u8]>)>
    ensures { GivesOption (λ x. (x.0, words_left x.1)) result (word_by fault_name_of (words_left words.entry)) }
{
    let (word, rest) = next_word(words)?;
    if word == b"FieldCount".as_slice() {
        Some((FaultName::FieldCount, rest))
    } else if word == b"BadId".as_slice() {
        Some((FaultName::BadId, rest))
    } else if word == b"BadNumber".as_slice() {
        Some((FaultName::BadNumber, rest))
    } else if word == b"OutOfRange".as_slice() {
        Some((FaultName::OutOfRange, rest))
    } else if word == b"DoesNotFit".as_slice() {
        Some((FaultName::DoesNotFit, rest))
    } else if word == b"TooManyCases".as_slice() {
        Some((FaultName::TooManyCases, rest))
    } else {
        None
    }
}

// Whether the column stands in the form.
fn has_column(form: Form, field: Field) -> bool
    ensures { result ≡ has_column_in form field }
{
    match (form, field) {
        (Form::One, Field::Gap) => false,
        _ => true,
    }
}

// The column of this name in the form.
fn column_named(form: Form, name: &[u8]) -> Option<Field>
    ensures { result ≡ column_of form name.now }
{
    let Some(field) = Field::named(name) else {
        return None;
    };
    if has_column(form, field) {
        Some(field)
    } else {
        None
    }
}

fn column_word(form: Form, words: Option<&[u8]>) -> Option<(Field, Option<&[u8]>)>
    ensures { GivesOption (λ x. (x.0, words_left x.1)) result (word_by (column_of form) (words_left words.entry)) }
{
    let (word, rest) = next_word(words)?;
    let field = column_named(form, word)?;
    Some((field, rest))
}

#[tactic(auto, unfolding(crate::specs::Words::fault_of_name))]
fn fault_words(
    form: Form,
    name: FaultName,
    words: Option<&[u8]>,
) -> Option<(RowFault, Option<&[u8]>)>
    ensures { GivesOption (λ x. (x.0, words_left x.1)) result (fault_of_name form name (words_left words.entry)) }
{
    match name {
        FaultName::FieldCount => Some((RowFault::FieldCount, words)),
        FaultName::BadId => Some((RowFault::BadId, words)),
        FaultName::BadNumber => {
            let (field, rest) = column_word(form, words)?;
            Some((RowFault::BadNumber { field }, rest))
        }
        FaultName::OutOfRange => {
            let (field, rest) = column_word(form, words)?;
            Some((RowFault::OutOfRange { field }, rest))
        }
        FaultName::DoesNotFit => Some((RowFault::DoesNotFit, words)),
        FaultName::TooManyCases => Some((RowFault::TooManyCases, words)),
    }
}

// The fault that a line tells.
#[tactic(auto, unfolding(crate::specs::Words::fault_at, crate::specs::Words::fault_of_line))]
pub(crate) fn fault_line(form: Form, line: &[u8]) -> Option<RowFault>
    ensures { result ≡ fault_of_line form line.now }
{
    let rest = skip_word(Some(line), b"refused")?;
    let (name, rest) = name_word(rest)?;
    let (fault, rest) = fault_words(form, name, rest)?;
    if is_end(rest) { Some(fault) } else { None }
}
