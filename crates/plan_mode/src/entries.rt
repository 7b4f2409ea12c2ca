// What is planned for each row.
ghost use Rattle.std.specs.Prelude.{◌≡◌, ◌≤◌, IfOk};
ghost use Rattle.cert_text.specs.declared.forms.Form.TheVariants.{Two};
ghost use Rattle.plan_entries.specs.Ranges.{IsInRange};
ghost use Rattle.plan_mode.specs.Entries.{IsEntryOf};
ghost use Rattle.plan_mode.specs.Pieces.{IsSoundEntry};

use layer_planner::plan_order;
use order_reader::Row;
use plan_entries::Entry;
use plan_memory::Memory;
use std::alloc::Global;

/// The entry of the row of this number, from 1 to 256.
pub fn plan_row(alloc: Global, number: u32, row: &Row) -> Result<Entry, Memory>
    requires first { 1 ≤ number }
    requires last { number ≤ 256 }
    ensures entry { IfOk result (λ e. IsEntryOf number row.now e) }
    ensures in_range { IfOk result (λ e. IsInRange Two e) }
    ensures sound { IfOk result IsSoundEntry }
{
    match row {
        Row::Order(order) => {
            let plan = plan_order(alloc, order, number)?;
            Ok(Entry::Planned(plan))
        }
        Row::Refused { fault, .. } => Ok(Entry::Refused {
            number,
            fault: *fault,
        }),
    }
}
