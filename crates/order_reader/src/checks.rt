// The tests of a row, each against its definition.
ghost use Rattle.std.specs.Prelude.{◌≡◌, [], None, ◌≤◌, ◌&&◌, nat_le, not, length, map, find, option_map, All};
ghost use Rattle.std.specs.List.{list_all};
ghost use Rattle.csv.specs.Records.{fields_of};
ghost use Rattle.order_reader.specs.Columns.{all_columns};
ghost use Rattle.order_reader.specs.Orders.{order_with, number_in};
ghost use Rattle.order_reader.specs.Faults.{is_id as is_id_text, id_in, number_under as number_in_column, has_number, value_under, least_in, greatest_gap_of, greatest_in, is_in_range as is_in_range_of, range_fault, fits, is_small, sides_fault, numbers_fault, row_fault};

use crate::faults::RowFault;
use crate::fields::{Field, all_fields};
use csv::ByteRecord;
use plan_io::number_of;

/// The most bytes of an id.
pub(crate) const LONGEST_ID: usize = 40;

/// The most cases of a layer, by the area bound.
pub(crate) const MOST_CASES: u64 = 1000;

/// The longest side of a pallet with the gap, and of a case.
const GREATEST_SIDE: u64 = 4000;

/// The widest gap between cases.
const GREATEST_GAP: u64 = 100;

/// Whether the bytes are an id: 1 to 40 of them, each from 32 to 126.
#[tactic(auto, unfolding(crate::specs::Faults::is_id))]
pub fn is_id(id: &[u8]) -> bool
    ensures { result ≡ is_id_text id.now }
{
    !id.is_empty() && id.len() <= LONGEST_ID && is_plain(id)
}

fn is_plain(id: &[u8]) -> bool
    ensures { result ≡ list_all (λ b. nat_le 32 b && nat_le b 126) id.now }
{
    id.iter().all(|b| *b >= 32 && *b <= 126)
}

// The id of a row, empty where the row has no field.
pub(crate) fn id_of(fields: &ByteRecord) -> &[u8]
    ensures { result.now ≡ id_in (fields_of fields.now) }
{
    match fields.get(0) {
        Some(id) => id,
        None => &[],
    }
}

// The number in a column of a row, where there is one.
fn number_under(fields: &ByteRecord, field: Field) -> Option<u64>
    ensures { result ≡ number_in_column (fields_of fields.now) field }
{
    match fields.get(field.place() + 1) {
        Some(text) => number_of(text),
        None => None,
    }
}

// The leftmost of these columns in which a row has no number.
fn first_without_number(columns: &[Field], fields: &ByteRecord) -> Option<Field>
    ensures { result ≡ find (λ field. not (has_number (fields_of fields.now) field)) columns.now }
{
    for field in columns {
        if number_under(fields, *field).is_none() {
            return Some(*field);
        }
    }
    None
}

// The numbers of a row in all columns; 0 where there is none.
pub(crate) fn numbers_of(fields: &ByteRecord) -> [u64; 12]
    ensures { result ≡ map (value_under (fields_of fields.now)) all_columns }
{
    let mut numbers = [0; 12];
    for (place, field) in all_fields().iter().enumerate() {
        numbers[place] = number_under(fields, *field).unwrap_or(0);
    }
    numbers
}

// The least number of a column.
fn least(field: Field) -> u64
    ensures { result ≡ least_in field }
{
    match field {
        Field::PalletX
        | Field::PalletY
        | Field::CaseX
        | Field::CaseY
        | Field::CaseZ
        | Field::Weight
        | Field::MaxHeight
        | Field::MaxWeight => 1,
        Field::Contact | Field::Support | Field::Cut | Field::Gap => 0,
    }
}

// The greatest number of a column.
fn greatest(greatest_gap: u64, field: Field) -> u64
    ensures { result ≡ greatest_in greatest_gap field }
{
    match field {
        Field::PalletX | Field::PalletY | Field::CaseX | Field::CaseY => GREATEST_SIDE,
        Field::CaseZ | Field::MaxHeight => 10000,
        Field::Weight | Field::MaxWeight => 100000000,
        Field::Contact | Field::Cut => 100,
        Field::Support => 1,
        Field::Gap => greatest_gap,
    }
}

// The greatest gap with which the pallet's sides stay within 4,000.
fn greatest_gap(numbers: &[u64; 12]) -> u64
    ensures { result ≡ greatest_gap_of (order_with [] numbers.now) }
{
    let longer = number(numbers, Field::PalletX).max(number(numbers, Field::PalletY));
    GREATEST_SIDE.saturating_sub(longer).min(GREATEST_GAP)
}

// The number in a column.
fn number(numbers: &[u64; 12], field: Field) -> u64
    ensures { result ≡ number_in (order_with [] numbers.now) field }
{
    numbers[field.place()]
}

fn is_in_range(numbers: &[u64; 12], field: Field) -> bool
    ensures { result ≡ is_in_range_of (order_with [] numbers.now) field }
{
    let own = number(numbers, field);
    least(field) <= own && own <= greatest(greatest_gap(numbers), field)
}

// The leftmost of these columns whose number is outside its range.
fn first_outside(columns: &[Field], numbers: &[u64; 12]) -> Option<Field>
    ensures { result ≡ find (λ field. not (is_in_range_of (order_with [] numbers.now) field)) columns.now }
{
    for field in columns {
        if !is_in_range(numbers, *field) {
            return Some(*field);
        }
    }
    None
}

// A case fits on the pallet, in some way.
#[tactic(auto, unfolding(crate::specs::Faults::fits))]
fn is_fitting(pallet_x: u64, pallet_y: u64, long: u64, short: u64) -> bool
    ensures { result ≡ fits pallet_x pallet_y long short }
{
    (long <= pallet_x && short <= pallet_y) || (short <= pallet_x && long <= pallet_y)
}

// The pallet's cells hold at most 1,000 times a case's cells.
#[tactic(auto, unfolding(crate::specs::Faults::is_small))]
fn is_few(pallet_x: u64, pallet_y: u64, long: u64, short: u64) -> bool
    requires pallet_x { pallet_x ≤ 4100 }
    requires pallet_y { pallet_y ≤ 4100 }
    requires long { (1 ≤ long) × (long ≤ 4100) }
    requires short { (1 ≤ short) × (short ≤ 4100) }
    ensures { result ≡ is_small pallet_x pallet_y long short }
{
    pallet_x * pallet_y / (long * short) <= MOST_CASES
}

// The tests of the numbers, after their form.
pub(crate) fn fault_of_numbers(numbers: &[u64; 12]) -> Option<RowFault>
    ensures { result ≡ numbers_fault (order_with [] numbers.now) }
{
    if let Some(field) = first_outside(all_fields(), numbers) {
        return Some(RowFault::OutOfRange { field });
    }
    fault_of_sides(numbers)
}

// The tests of the pallet's and the case's sides, after their ranges.
fn fault_of_sides(numbers: &[u64; 12]) -> Option<RowFault>
    requires { range_fault (order_with [] numbers.now) ≡ None }
    ensures { result ≡ sides_fault (order_with [] numbers.now) }
{
    let (pallet_x, pallet_y) = (
        number(numbers, Field::PalletX),
        number(numbers, Field::PalletY),
    );
    let (case_x, case_y) = (number(numbers, Field::CaseX), number(numbers, Field::CaseY));
    let gap = number(numbers, Field::Gap);
    let long = case_x.max(case_y);
    let short = case_x.min(case_y);
    if !is_fitting(pallet_x, pallet_y, long, short) {
        return Some(RowFault::DoesNotFit);
    }
    if !is_few(pallet_x + gap, pallet_y + gap, long + gap, short + gap) {
        return Some(RowFault::TooManyCases);
    }
    None
}

// The tests of a row, given its numbers.
pub(crate) fn fault_of_row(
    columns: &[Field],
    fields: &ByteRecord,
    numbers: &[u64; 12],
) -> Option<RowFault>
    requires { numbers.now ≡ map (value_under (fields_of fields.now)) all_columns }
    ensures { result ≡ row_fault columns.now (fields_of fields.now) }
{
    if fields.len() != columns.len() + 1 {
        return Some(RowFault::FieldCount);
    }
    if !is_id(id_of(fields)) {
        return Some(RowFault::BadId);
    }
    if let Some(field) = first_without_number(columns, fields) {
        return Some(RowFault::BadNumber { field });
    }
    fault_of_numbers(numbers)
}
