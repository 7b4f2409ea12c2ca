// The records of an orders file, by the csv crate's reader.
ghost use Rattle.std.specs.Prelude.{◌≡◌, IfOk, map};
ghost use Rattle.csv.specs.Records.{fields_of};
ghost use Rattle.order_reader.specs.Columns.{same_fields};
ghost use Rattle.order_reader.specs.Records.{records_of};
ghost use Rattle.order_reader.specs.Refusals.{IsOfMemory};

use csv::{ByteRecord, ErrorKind, ReaderBuilder};
use plan_memory::Memory;
use std::alloc::Global;

/// All records of a file, the header among them: by the csv crate's reader, with the comma between fields and records
/// of any length, after the bytes EF BB BF where they stand at the front.
pub fn read_records(alloc: Global, bytes: &[u8]) -> Result<Vec<ByteRecord>, Memory>
    ensures { IfOk result (λ v. map fields_of v.items ≡ records_of bytes.now) }
{
    let reader = ReaderBuilder::new()
        .has_headers(false)
        .flexible(true)
        .from_reader(alloc, bytes);
    let mut records = Vec::new(alloc);
    for record in reader.into_byte_records() {
        match record {
            Ok(record) => records.push(record)?,
            Err(error) => return Err(refused(error.kind())),
        }
    }
    Ok(records)
}

// A reader of bytes that takes records of any length is refused memory, and nothing else.
fn refused(kind: &ErrorKind) -> Memory
    requires { IsOfMemory kind.now }
{
    match kind {
        ErrorKind::Io(_) | ErrorKind::OutOfMemory => Memory,
        _ => unreachable!(),
    }
}

/// Whether a record has exactly these fields.
pub fn has_fields(fields: &ByteRecord, wanted: &[&[u8]]) -> bool
    ensures { result ≡ same_fields (fields_of fields.now) (map (λ field. field.now) wanted.now) }
{
    if fields.len() != wanted.len() {
        return false;
    }
    for (place, field) in wanted.iter().enumerate() {
        let Some(text) = fields.get(place) else {
            return false;
        };
        if text != *field {
            return false;
        }
    }
    true
}
