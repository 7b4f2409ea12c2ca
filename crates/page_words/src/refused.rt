ghost use Rattle.std.specs.Prelude.{◌≡◌};
ghost use Rattle.texts.specs.Puts.{Puts};
ghost use Rattle.order_reader.specs.Columns.{column_name};
ghost use Rattle.order_reader.specs.Faults.{least_in, greatest_in};
ghost use Rattle.page_words.specs.Refused.{no_number, range_end, range_words, out_of_range, fault_words, refused_head};
ghost use Rattle.page_words.specs.Words.{refused_sheet};

use order_reader::{Field, RowFault};
use page_pieces::Piece::{Number, Text};
use page_pieces::put_pieces;
use plan_memory::Memory;
use texts::{put_named, put_text};

// Appends the name of a column.
fn put_column(out: &mut Vec<u8>, field: Field) -> Result<(), Memory>
    ensures { Puts out.old.items out.new.items (column_name field) result }
{
    put_text(out, field.name().as_bytes())?;
    Ok(())
}

// Says that a column has no number.
#[tactic(auto, using(texts::proofs::Growth::grows_after), unfolding(crate::specs::Refused::no_number))]
fn put_no_number(out: &mut Vec<u8>, field: Field) -> Result<(), Memory>
    ensures { Puts out.old.items out.new.items (no_number field) result }
{
    put_text(out, b"What stands under ")?;
    put_column(out, field)?;
    put_text(
        out,
        b" is no number: a number is 0, or one to ten digits of which the first is not 0.",
    )?;
    Ok(())
}

// The least number of a column.
fn least(field: Field) -> u64
    ensures { result ≡ least_in field }
{
    match field {
        Field::PalletX
        | Field::PalletY
        | Field::CaseX
        | Field::CaseY
        | Field::CaseZ
        | Field::Weight
        | Field::MaxHeight
        | Field::MaxWeight => 1,
        Field::Contact | Field::Support | Field::Cut | Field::Gap => 0,
    }
}

// The greatest number of a column; of the gap, where the pallet leaves room for it.
fn greatest(field: Field) -> u64
    ensures { result ≡ greatest_in 100 field }
{
    match field {
        Field::PalletX | Field::PalletY | Field::CaseX | Field::CaseY => 4_000,
        Field::CaseZ | Field::MaxHeight => 10_000,
        Field::Weight | Field::MaxWeight => 100_000_000,
        Field::Contact | Field::Cut | Field::Gap => 100,
        Field::Support => 1,
    }
}

fn end_of_range(field: Field) -> &'static [u8]
    ensures { result.now ≡ range_end field }
{
    match field {
        Field::Gap => b", or together with a side of the pallet it is more than 4000.",
        Field::PalletX
        | Field::PalletY
        | Field::CaseX
        | Field::CaseY
        | Field::CaseZ
        | Field::Weight
        | Field::MaxHeight
        | Field::MaxWeight
        | Field::Contact
        | Field::Support
        | Field::Cut => b".",
    }
}

// Says which numbers a column allows.
#[tactic(auto, using(texts::proofs::Growth::grows_after), unfolding(crate::specs::Refused::range_words))]
fn put_range(out: &mut Vec<u8>, field: Field) -> Result<(), Memory>
    ensures { Puts out.old.items out.new.items (range_words field) result }
{
    put_named(out, b" is not from ", least(field))?;
    put_named(out, b" to ", greatest(field))?;
    put_text(out, end_of_range(field))?;
    Ok(())
}

// Says that the number of a column is out of range.
#[tactic(auto, using(texts::proofs::Growth::grows_after), unfolding(crate::specs::Refused::out_of_range))]
fn put_out_of_range(out: &mut Vec<u8>, field: Field) -> Result<(), Memory>
    ensures { Puts out.old.items out.new.items (out_of_range field) result }
{
    put_text(out, b"The number under ")?;
    put_column(out, field)?;
    put_range(out, field)
}

// Appends why a row was refused.
#[tactic(auto, unfolding(crate::specs::Refused::fault_words))]
fn put_fault(out: &mut Vec<u8>, fault: RowFault) -> Result<(), Memory>
    ensures { Puts out.old.items out.new.items (fault_words fault) result }
{
    match fault {
        RowFault::FieldCount => put_text(
            out,
            b"The row does not have as many fields as the header.",
        ),
        RowFault::BadId => put_text(
            out,
            b"The id does not have 1 to 40 characters, each of them printable ASCII.",
        ),
        RowFault::BadNumber { field } => put_no_number(out, field),
        RowFault::OutOfRange { field } => put_out_of_range(out, field),
        RowFault::DoesNotFit => put_text(
            out,
            b"The case does not fit on the pallet, not even when it is turned by a quarter.",
        ),
        RowFault::TooManyCases => put_text(
            out,
            b"By area more than 1000 cases would fit in a layer.",
        ),
    }
}

// Opens the sheet of a refused row.
#[tactic(auto, unfolding(crate::specs::Refused::refused_head))]
fn put_refused_head(out: &mut Vec<u8>, sheet: u32, number: u32) -> Result<(), Memory>
    ensures { Puts out.old.items out.new.items (refused_head sheet number) result }
{
    put_pieces(
        out,
        &[
            Text(b"<section class=\"sheet refused\" id=\"sheet-"),
            Number(sheet as u64),
            Text(b"\"><h2>Row "),
            Number(number as u64),
            Text(b" was refused</h2><p>"),
        ],
    )
}

/// Appends the whole sheet of a refused row: its place in the report, the row's number, and why it was refused.
#[tactic(auto, using(texts::proofs::Growth::grows_after), unfolding(crate::specs::Words::refused_sheet))]
pub fn put_refused_sheet(
    out: &mut Vec<u8>,
    sheet: u32,
    number: u32,
    fault: RowFault,
) -> Result<(), Memory>
    ensures { Puts out.old.items out.new.items (refused_sheet sheet number fault) result }
{
    put_refused_head(out, sheet, number)?;
    put_fault(out, fault)?;
    put_text(out, b"</p></section>\n")?;
    Ok(())
}
