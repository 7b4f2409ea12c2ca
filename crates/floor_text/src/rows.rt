ghost use Rattle.std.specs.Prelude.{◌≡◌, ◌++◌, OnOk, IfOk};
ghost use Rattle.cert_text.specs.declared.forms.Form.TheVariants as forms;
ghost use Rattle.plan_entries.specs.Ranges.{IsInRange};
ghost use Rattle.report_text.specs.Text.{entry_text};
ghost use Rattle.floor_text.specs.Text.{row_text as text_of_row};

use plan_entries::Entry;
use plan_memory::Memory;
use report_text::put_entry;
use std::alloc::Global;
use truck_floor::{TotalLine, put_total};

/// What the text of a floor tells of a row: the entry of the floor, the entry of the load, and their total.
#[derive(Drop)]
pub struct FloorRow {
    pub floor: Entry,
    pub load: Entry,
    pub total: TotalLine,
}

// Appends the text of an entry that has one.
fn put_whole_entry(out: &mut Vec<u8>, entry: &Entry) -> Result<(), Memory>
    ensures { OnOk result (out.new.items ≡ out.old.items ++ entry_text forms.Two entry.now) }
{
    match put_entry(out, entry) {
        Ok(()) => Ok(()),
        Err(_) => Err(Memory),
    }
}

/// The text of a row, whose entries have one.
pub fn row_text(alloc: Global, row: &FloorRow) -> Result<Vec<u8>, Memory>
    requires floor { IsInRange forms.Two row.now.floor }
    requires load { IsInRange forms.Two row.now.load }
    ensures { IfOk result (λ text. text.items ≡ text_of_row row.now) }
{
    let mut text = Vec::new(alloc);
    put_whole_entry(&mut text, &row.floor)?;
    put_whole_entry(&mut text, &row.load)?;
    put_total(&mut text, &row.total)?;
    Ok(text)
}
