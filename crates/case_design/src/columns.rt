// The columns of a designs file.
ghost use Rattle.std.specs.Prelude.{◌≡◌, ◌≤◌, ◌↔◌, ℕ, Some, MatchOption, IsTrue};
ghost use Rattle.csv.specs.Records.{fields_of};
ghost use Rattle.order_reader.specs.Columns.{same_fields};
ghost use Rattle.case_design.specs.Columns.{header, column_name as name_in_header, IsNumberColumn, number_in as number_in_row, greatest_in, HasNumber, HasNumberInRange};
ghost use Rattle.case_design.specs.Briefs.{IsLeftmostWithout};

use csv::ByteRecord;
use order_reader::has_fields;
use plan_io::number_of;

/// The number of columns.
pub(crate) const COLUMNS: u32 = 8;

/// The longest side of a pallet and of a case.
const GREATEST_SIDE: u64 = 4_000;

/// The greatest area.
const GREATEST_AREA: u64 = 16_000_000;

// Whether these are the fields of the header of a designs file.
#[tactic(auto, unfolding(crate::specs::Columns::header))]
pub(crate) fn is_header(fields: &ByteRecord) -> bool
    ensures { result ≡ same_fields (fields_of fields.now) header }
{
    let names: [&[u8]; 8] = [
        b"id",
        b"pallet_x",
        b"pallet_y",
        b"long_from",
        b"long_to",
        b"short_from",
        b"short_to",
        b"least_area",
    ];
    has_fields(fields, names.as_slice())
}

// What the header calls a number column.
#[tactic(auto, unfolding(crate::specs::Columns::header))]
pub(crate) fn column_name(column: u32) -> &'static str
    requires { IsNumberColumn column }
    ensures { result.now ≡ name_in_header column }
{
    match column {
        2 => "pallet_x",
        3 => "pallet_y",
        4 => "long_from",
        5 => "long_to",
        6 => "short_from",
        7 => "short_to",
        _ => "least_area",
    }
}

// The number that a row has in a column, where it has one.
fn number_in(row: &ByteRecord, column: u32) -> Option<u64>
    requires { 1 ≤ column }
    ensures { result ≡ number_in_row (fields_of row.now) column }
{
    match row.get(column as usize - 1) {
        Some(text) => number_of(text),
        None => None,
    }
}

// The leftmost column in which a row has no number.
pub(crate) fn first_without_number(row: &ByteRecord) -> Option<u32>
    ensures { MatchOption result
        ((column : ℕ) → IsNumberColumn column → HasNumber (fields_of row.now) column)
        (λ column. IsLeftmostWithout (HasNumber (fields_of row.now)) column) }
{
    for column in 2..COLUMNS + 1 {
        if number_in(row, column).is_none() {
            return Some(column);
        }
    }
    None
}

// The greatest number of a column.
fn greatest(column: u32) -> u64
    ensures { result ≡ greatest_in column }
{
    if column == COLUMNS {
        GREATEST_AREA
    } else {
        GREATEST_SIDE
    }
}

// The row has a number in the column's range.
fn is_in_range(row: &ByteRecord, column: u32) -> bool
    requires { 1 ≤ column }
    ensures { IsTrue result ↔ HasNumberInRange (fields_of row.now) column }
{
    match number_in(row, column) {
        Some(number) => 1 <= number && number <= greatest(column),
        None => false,
    }
}

// The leftmost column whose number is outside its range.
pub(crate) fn first_outside(row: &ByteRecord) -> Option<u32>
    ensures { MatchOption result
        ((column : ℕ) → IsNumberColumn column → HasNumberInRange (fields_of row.now) column)
        (λ column. IsLeftmostWithout (HasNumberInRange (fields_of row.now)) column) }
{
    for column in 2..COLUMNS + 1 {
        if !is_in_range(row, column) {
            return Some(column);
        }
    }
    None
}

// The number in a column, which is in its range.
pub(crate) fn number_at(row: &ByteRecord, column: u32) -> u32
    requires column { 1 ≤ column }
    requires number { HasNumberInRange (fields_of row.now) column }
    ensures number { number_in_row (fields_of row.now) column ≡ Some result }
{
    match number_in(row, column) {
        Some(number) => number as u32,
        None => unreachable!(),
    }
}
