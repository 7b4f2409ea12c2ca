// The design that a designs file asks for.
ghost use Rattle.std.specs.Prelude.{◌≡◌, ◌≤◌, [], ◌∷◌, List, length, IfOk, IsErrOf};
ghost use Rattle.csv.specs.Records.{fields_of};
ghost use Rattle.case_design.specs.declared.designs.Design.{Design};
ghost use Rattle.case_design.specs.declared.sizes.Size.{Size};
ghost use Rattle.case_design.specs.Briefs.{IsBriefOf};
ghost use Rattle.case_design.specs.Sizes.{AreSizes};
ghost use Rattle.case_design.specs.Designs.{IsDesignOf, IsDesignOfRow, HasNoHeader, HasManyRows, NamesColumns, rows_in};

use crate::briefs::{Brief, brief_of, id_of};
use crate::columns::is_header;
use crate::faults::{DesignFault, DesignStop};
use crate::sizes::{count_sizes, size_rows, sizes_of};
use csv::ByteRecord;
use order_reader::{Row, read_records};
use plan_memory::Memory;
use std::alloc::Global;

/// The most sizes of a row.
const MOST_SIZES: u32 = 256;

/// What a designs file asks for.
#[derive(Drop)]
pub enum Design {
    /// No row follows the header.
    Nothing,
    /// The one row is refused.
    Refused(DesignFault),
    /// The one row's id, and the rows of an orders file, 1 to 256, that its sizes give: by rising longer side, then by rising
    /// shorter side, numbered from 1.
    Rows { id: Vec<u8>, rows: Vec<Row> },
}

// The id and the rows of a row that passes all tests.
fn accepted(alloc: Global, row: &ByteRecord, brief: &Brief) -> Result<Design, Memory>
    requires brief { IsBriefOf (fields_of row.now) brief.now }
    requires count { (sizes : List Size) → AreSizes brief.now sizes → (1 ≤ length sizes) × (length sizes ≤ 256) }
    ensures { IfOk result (λ design. IsDesignOfRow (fields_of row.now) design) }
{
    let id = id_of(row).to_vec(alloc)?;
    let sizes = sizes_of(alloc, brief)?;
    let rows = size_rows(alloc, row, brief, &sizes)?;
    Ok(Design::Rows { id, rows })
}

// The design of a file with this one row.
fn design_of_row(alloc: Global, row: &ByteRecord) -> Result<Design, Memory>
    ensures { IfOk result (λ design. IsDesignOfRow (fields_of row.now) design) }
{
    let brief = match brief_of(row) {
        Ok(brief) => brief,
        Err(fault) => return Ok(Design::Refused(fault)),
    };
    match count_sizes(&brief) {
        0 => Ok(Design::Refused(DesignFault::NoSize)),
        1..=MOST_SIZES => accepted(alloc, row, &brief),
        _ => Ok(Design::Refused(DesignFault::TooManySizes)),
    }
}

/// The design of a file. Records, numbers and ids are read as in an orders file, after the bytes EF BB BF where they stand
/// first. `NoHeader` comes exactly where the first record is missing or is not the header
/// `id,pallet_x,pallet_y,long_from,long_to,short_from,short_to,least_area`, and `TooManyRows` exactly where two or more rows
/// follow it.
pub fn read_design(alloc: Global, bytes: &[u8]) -> Result<Design, DesignStop>
    ensures design { IfOk result (λ design. IsDesignOf bytes.now design) }
    ensures few { IfOk result (λ design. length (rows_in design) ≤ 256) }
    ensures columns { IfOk result NamesColumns }
    ensures no_header { IsErrOf result DesignStop.NoHeader → HasNoHeader bytes.now }
    ensures many_rows { IsErrOf result DesignStop.TooManyRows → HasManyRows bytes.now }
{
    let Ok(records) = read_records(alloc, bytes) else {
        return Err(DesignStop::Memory);
    };
    let Some((first, rows)) = records.as_slice().split_first() else {
        return Err(DesignStop::NoHeader);
    };
    if !is_header(first) {
        return Err(DesignStop::NoHeader);
    }
    match rows {
        [] => Ok(Design::Nothing),
        [row] => match design_of_row(alloc, row) {
            Ok(design) => Ok(design),
            Err(_) => Err(DesignStop::Memory),
        },
        _ => Err(DesignStop::TooManyRows),
    }
}
