// The rows of a floors file.
ghost use Rattle.std.specs.Prelude.{◌≡◌, ◌≤◌, ◌<◌, ◌+◌, ◌-◌, ◌++◌, ◌↔◌, [], Some, None, IfOk, OnOk, IsErrOf, IsSomeAnd, IsTrue, length, map, take, drop, option_map};
ghost use Rattle.csv.specs.Records.{fields_of, partial_of};
ghost use Rattle.order_reader.specs.Columns.{all_columns, same_fields};
ghost use Rattle.truck_floor.specs.FloorRows.{floor_header, floor_fields as floor_fields_of, load_fields as load_fields_of, row_by, rows_of_floors, floors_of, IsFloorFor};

use csv::ByteRecord;
use order_reader::{
    Field, Order, ReadStop, Row, RowFault, all_fields, has_fields, read_records, read_row,
};
use plan_memory::Memory;
use std::alloc::Global;

/// The most rows of a floors file.
pub const MOST_FLOORS: usize = 128;

/// The fields of a row.
const FIELDS: usize = 15;

// The record is the header of a floors file.
#[tactic(auto, unfolding(order_reader::specs::Columns::all_columns))]
fn is_header(first: &ByteRecord) -> bool
    ensures { result ≡ same_fields (fields_of first.now) floor_header }
{
    let names: [&[u8]; FIELDS] = [
        b"id",
        b"floor_x",
        b"floor_y",
        b"pallet_x",
        b"pallet_y",
        b"case_x",
        b"case_y",
        b"case_z",
        b"weight",
        b"max_height",
        b"max_weight",
        b"contact",
        b"support",
        b"cut",
        b"gap",
    ];
    has_fields(first, names.as_slice())
}

// Appends the fields of a record from one place up to another.
fn push_fields(
    out: &mut ByteRecord,
    fields: &ByteRecord,
    from: usize,
    end: usize,
) -> Result<(), Memory>
    requires partial { partial_of out.old ≡ [] }
    requires order { from ≤ end }
    requires within { end ≤ length (fields_of fields.now) }
    ensures fields { OnOk result (fields_of out.new ≡ fields_of out.old ++ take (end - from) (drop from (fields_of fields.now))) }
    ensures partial { OnOk result (partial_of out.new ≡ []) }
{
    for place in from..end {
        let Some(field) = fields.get(place) else {
            unreachable!()
        };
        out.push_field(field)?;
    }
    Ok(())
}

// The fields of the floor's order.
fn floor_fields(alloc: Global, fields: &ByteRecord) -> Result<ByteRecord, Memory>
    requires { length (fields_of fields.now) ≡ 15 }
    ensures { IfOk result (λ own. fields_of own ≡ floor_fields_of (fields_of fields.now)) }
{
    let fixed: [&[u8]; 8] = [b"1", b"1", b"1", b"100000000", b"0", b"0", b"100", b"0"];
    let fixed = ByteRecord::from_fields(alloc, fixed.as_slice())?;
    let mut own = ByteRecord::new(alloc);
    push_fields(&mut own, fields, 0, 5)?;
    push_fields(&mut own, &fixed, 0, 8)?;
    Ok(own)
}

// The fields of the load's order.
fn load_fields(alloc: Global, fields: &ByteRecord) -> Result<ByteRecord, Memory>
    requires { length (fields_of fields.now) ≡ 15 }
    ensures { IfOk result (λ own. fields_of own ≡ load_fields_of (fields_of fields.now)) }
{
    let mut own = ByteRecord::new(alloc);
    push_fields(&mut own, fields, 0, 1)?;
    push_fields(&mut own, fields, 3, FIELDS)?;
    Ok(own)
}

// The orders of a row's floor and of its load, as the row of this number and the next.
fn both_rows(alloc: Global, number: u32, fields: &ByteRecord) -> Result<(Row, Row), Memory>
    requires { number ≤ 255 }
    ensures floor { IfOk result (λ both. both.0 ≡ row_by (fields_of fields.now) number (floor_fields_of (fields_of fields.now))) }
    ensures load { IfOk result (λ both. both.1 ≡ row_by (fields_of fields.now) (number + 1) (load_fields_of (fields_of fields.now))) }
{
    if fields.len() != FIELDS {
        let fault = RowFault::FieldCount;
        let floor = Row::Refused { number, fault };
        let load = Row::Refused {
            number: number + 1,
            fault,
        };
        return Ok((floor, load));
    }
    let own = floor_fields(alloc, fields)?;
    let floor = read_row(alloc, all_fields(), number, &own)?;
    let own = load_fields(alloc, fields)?;
    let load = read_row(alloc, all_fields(), number + 1, &own)?;
    Ok((floor, load))
}

// The two orders of each row.
fn read_floors(alloc: Global, floors: &[ByteRecord]) -> Result<Vec<Row>, Memory>
    requires { length floors.now ≤ 128 }
    ensures { IfOk result (λ v. v.items ≡ rows_of_floors (map fields_of floors.now)) }
{
    let mut rows = Vec::new(alloc);
    for (place, fields) in floors.iter().enumerate() {
        let (floor, load) = both_rows(alloc, 2 * place as u32 + 1, fields)?;
        rows.push(floor)?;
        rows.push(load)?;
    }
    Ok(rows)
}

/// The rows of a floors file, two for each of its rows, in order: for row k the order of the floor, numbered 2k - 1, whose
/// cases are the loaded pallets, and the order of the load, numbered 2k. Records, numbers and ids are read as in an orders
/// file with the gap. `NoHeader` comes exactly where the first record is missing or is not the header, and `TooManyRows`
/// exactly where more than 128 rows follow it.
pub fn read_floor(alloc: Global, bytes: &[u8]) -> Result<Vec<Row>, ReadStop>
    ensures rows { IfOk result (λ v. option_map rows_of_floors (floors_of bytes.now) ≡ Some v.items) }
    ensures few { IfOk result (λ v. IsSomeAnd (floors_of bytes.now) (λ floors. length floors ≤ 128)) }
    ensures no_header { IsErrOf result ReadStop.NoHeader → floors_of bytes.now ≡ None }
    ensures too_many { IsErrOf result ReadStop.TooManyRows
        → IsSomeAnd (floors_of bytes.now) (λ floors. 128 < length floors) }
{
    let Ok(records) = read_records(alloc, bytes) else {
        return Err(ReadStop::Memory);
    };
    let Some((first, floors)) = records.as_slice().split_first() else {
        return Err(ReadStop::NoHeader);
    };
    if !is_header(first) {
        return Err(ReadStop::NoHeader);
    }
    if floors.len() > MOST_FLOORS {
        return Err(ReadStop::TooManyRows);
    }
    match read_floors(alloc, floors) {
        Ok(rows) => Ok(rows),
        Err(_) => Err(ReadStop::Memory),
    }
}

/// Whether the first order is that of a floor for the loaded pallets of the second: its cases have the sides of that
/// pallet, along x and along y, and its other numbers, but for its own sides, are the fixed ones.
pub fn is_floor_for(floor: &Order, load: &Order) -> bool
    ensures { IsTrue result ↔ IsFloorFor floor.now load.now }
{
    let numbers = floor.numbers();
    let (pallet_x, pallet_y) = (load.number(Field::PalletX), load.number(Field::PalletY));
    numbers[2..] == [pallet_x, pallet_y, 1, 1, 1, 100_000_000, 0, 0, 100, 0]
}
