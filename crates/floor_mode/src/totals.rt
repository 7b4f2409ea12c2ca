// The total line of a row, and whether its orders go together.
ghost use Rattle.std.specs.Prelude.{◌≡◌, ◌↔◌, true};
ghost use Rattle.cert_text.specs.declared.forms.Form.TheVariants.{Two};
ghost use Rattle.plan_entries.specs.Ranges.{IsInRange};
ghost use Rattle.truck_floor.specs.Text.{IsTotalLine};
ghost use Rattle.floor_mode.specs.Totals.{IsTotalLineOf, GoTogether};

use plan_entries::Entry;
use truck_floor::{TotalLine, floor_total, is_floor_for, totals_are_one};

// The line of the total of the entries of a floor and of a load.
pub(crate) fn total_line(floor: &Entry, load: &Entry) -> TotalLine
    requires floor { IsInRange Two floor.now }
    requires load { IsInRange Two load.now }
    ensures total { IsTotalLineOf floor.now load.now result }
    ensures within { IsTotalLine result }
{
    match (floor, load) {
        (Entry::Planned(floor), Entry::Planned(load)) => {
            TotalLine::Numbers(floor_total(floor, load))
        }
        _ => TotalLine::Nothing,
    }
}

// Whether this is that line.
pub(crate) fn is_total_line(floor: &Entry, load: &Entry, line: &TotalLine) -> bool
    requires floor { IsInRange Two floor.now }
    requires load { IsInRange Two load.now }
    ensures { (result ≡ true) ↔ IsTotalLineOf floor.now load.now line.now }
{
    totals_are_one();
    are_same(line, &total_line(floor, load))
}

fn are_same(a: &TotalLine, b: &TotalLine) -> bool
    ensures { (result ≡ true) ↔ (a.now ≡ b.now) }
{
    a == b
}

// Whether an entry is that of a refused row, or the first order is that of a floor for the loaded pallets of the second.
pub(crate) fn go_together(floor: &Entry, load: &Entry) -> bool
    ensures { (result ≡ true) ↔ GoTogether floor.now load.now }
{
    match (floor, load) {
        (Entry::Planned(floor), Entry::Planned(load)) => is_floor_for(&floor.order, &load.order),
        _ => true,
    }
}
