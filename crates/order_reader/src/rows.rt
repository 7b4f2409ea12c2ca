// The rows of an orders file.
ghost use Rattle.std.specs.Prelude.{◌≡◌, ◌+◌, ◌<◌, ◌≤◌, ◌^◌, None, Some, IfOk, IsErrOf, IsSomeAnd, length, map, option_map};
ghost use Rattle.std.specs.Str.{bytes_eq};
ghost use Rattle.std.specs.Cmp.Lexicographic.{pointwise};
ghost use Rattle.csv.specs.Records.{fields_of};
ghost use Rattle.order_reader.specs.Columns.{header_over, same_fields, columns_under};
ghost use Rattle.order_reader.specs.Rows.{row_of, rows_of_records, rows_of};

use crate::checks::id_of;
use crate::faults::{OrderFail, RowFault};
use crate::fields::{Field, all_fields, fields_before_gap};
use crate::orders::{Order, order_of};
use crate::records::read_records;
use csv::ByteRecord;
use plan_memory::Memory;
use std::alloc::Global;

/// A row: an order, or one that is refused, by its number from 1 and its fault.
#[derive(Drop)]
pub enum Row {
    Order(Order),
    Refused { number: u32, fault: RowFault },
}

/// Why a file's rows were not read.
#[derive(Clone, Copy, PartialEq, Eq, Debug)]
pub enum ReadStop {
    /// There is no record, or the first is no header of such a file.
    NoHeader,
    /// More rows follow the header than such a file has.
    TooManyRows,
    /// Memory was refused.
    Memory,
}

/// The most rows of a file.
pub const MOST_ROWS: usize = 256;

/// All rows of a file, in order, of which there are at most 256. Records are those of the csv crate's reader, with the comma between fields
/// and records of any length; the bytes EF BB BF at the front are dropped. Both headers are read, with the
/// column `gap` at the end and without it.
pub fn read_orders(alloc: Global, bytes: &[u8]) -> Result<Vec<Row>, ReadStop>
    ensures rows { IfOk result (λ v. rows_of bytes.now ≡ Some v.items) }
    ensures few { IfOk result (λ v. length v.items ≤ 256) }
    ensures no_header { IsErrOf result ReadStop.NoHeader → rows_of bytes.now ≡ None }
    ensures too_many { IsErrOf result ReadStop.TooManyRows
        → IsSomeAnd (rows_of bytes.now) (λ rows. 256 < length rows) }
{
    let Ok(records) = read_records(alloc, bytes) else {
        return Err(ReadStop::Memory);
    };
    let Some((first, rest)) = records.as_slice().split_first() else {
        return Err(ReadStop::NoHeader);
    };
    let Some(columns) = columns_of(first) else {
        return Err(ReadStop::NoHeader);
    };
    if rest.len() > MOST_ROWS {
        return Err(ReadStop::TooManyRows);
    }
    match read_rows(alloc, columns, rest) {
        Ok(rows) => Ok(rows),
        Err(_) => Err(ReadStop::Memory),
    }
}

// The number columns under a record that is a header.
fn columns_of(fields: &ByteRecord) -> Option<&'static [Field]>
    ensures { option_map (λ s. s.now) result ≡ columns_under (fields_of fields.now) }
{
    if is_header_over(fields, fields_before_gap()) {
        return Some(fields_before_gap());
    }
    if is_header_over(fields, all_fields()) {
        return Some(all_fields());
    }
    None
}

// The record is the header over these number columns.
fn is_header_over(fields: &ByteRecord, columns: &[Field]) -> bool
    ensures { result ≡ same_fields (fields_of fields.now) (header_over columns.now) }
{
    if fields.len() != columns.len() + 1 {
        return false;
    }
    if id_of(fields) != b"id".as_slice() {
        return false;
    }
    for (place, column) in columns.iter().enumerate() {
        let Some(text) = fields.get(place + 1) else {
            return false;
        };
        if text != column.name().as_bytes() {
            return false;
        }
    }
    true
}

// What each record is as a row.
fn read_rows(alloc: Global, columns: &[Field], records: &[ByteRecord]) -> Result<Vec<Row>, Memory>
    requires { length records.now ≤ 256 }
    ensures { IfOk result (λ v. v.items ≡ rows_of_records columns.now (map fields_of records.now)) }
{
    let mut rows = Vec::new(alloc);
    for (place, fields) in records.iter().enumerate() {
        let row = read_row(alloc, columns, place as u32 + 1, fields)?;
        rows.push(row)?;
    }
    Ok(rows)
}

/// What a record is as the row of this number, under these number columns.
#[tactic(auto, unfolding(crate::specs::Rows::row_of))]
pub fn read_row(
    alloc: Global,
    columns: &[Field],
    number: u32,
    fields: &ByteRecord,
) -> Result<Row, Memory>
    ensures { IfOk result (λ row. row ≡ row_of columns.now number (fields_of fields.now)) }
{
    match order_of(alloc, columns, fields) {
        Ok(order) => Ok(Row::Order(order)),
        Err(OrderFail::Fault(fault)) => Ok(Row::Refused { number, fault }),
        Err(OrderFail::Memory) => Err(Memory),
    }
}
