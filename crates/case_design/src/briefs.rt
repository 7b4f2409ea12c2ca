// What a row of a designs file asks for.
ghost use Rattle.std.specs.Prelude.{◌≡◌, IfOk, IfErr};
ghost use Rattle.csv.specs.Records.{fields_of};
ghost use Rattle.order_reader.specs.Faults.{id_in};
ghost use Rattle.case_design.specs.Briefs.{IsBriefOf};
ghost use Rattle.case_design.specs.Designs.{HasFault};

use crate::columns::{COLUMNS, first_outside, first_without_number, number_at};
use crate::faults::DesignFault;
use csv::ByteRecord;
use order_reader::is_id;

/// The pallet, and the ranges of the case's sizes. All lengths share one unit.
#[derive(Clone, Copy)]
pub struct Brief {
    pub pallet_x: u32,
    pub pallet_y: u32,
    /// The least and the greatest longer side.
    pub long_from: u32,
    pub long_to: u32,
    /// The least and the greatest shorter side.
    pub short_from: u32,
    pub short_to: u32,
    /// The least product of both sides.
    pub least_area: u32,
}

// The id of a row, empty where the row has no field.
pub(crate) fn id_of(row: &ByteRecord) -> &[u8]
    ensures { result.now ≡ id_in (fields_of row.now) }
{
    match row.get(0) {
        Some(id) => id,
        None => &[],
    }
}

// The brief of a row, or the first of the tests of its fields that it fails.
pub(crate) fn brief_of(row: &ByteRecord) -> Result<Brief, DesignFault>
    ensures brief { IfOk result (λ brief. IsBriefOf (fields_of row.now) brief) }
    ensures fault { IfErr result (λ fault. HasFault (fields_of row.now) fault) }
{
    if row.len() != COLUMNS as usize {
        return Err(DesignFault::FieldCount);
    }
    if !is_id(id_of(row)) {
        return Err(DesignFault::BadId);
    }
    if let Some(column) = first_without_number(row) {
        return Err(DesignFault::BadNumber { column });
    }
    if let Some(column) = first_outside(row) {
        return Err(DesignFault::OutOfRange { column });
    }
    Ok(Brief {
        pallet_x: number_at(row, 2),
        pallet_y: number_at(row, 3),
        long_from: number_at(row, 4),
        long_to: number_at(row, 5),
        short_from: number_at(row, 6),
        short_to: number_at(row, 7),
        least_area: number_at(row, 8),
    })
}
