// What is kept of each entry.
ghost use Rattle.std.specs.Prelude.{◌≡◌, ◌≤◌, ◌*◌, ◌++◌, ◌∷◌, [], ℕ, OnOk, IsErrOf};
ghost use Rattle.order_reader.specs.declared.rows.Row.{Row};
ghost use Rattle.plan_mode.specs.Entries.{IsEntryOf};
ghost use Rattle.design_mode.specs.Covers.{case_area, cover_of as cover_of_plan, covers_of};

use case_design::Cover;
use plan_entries::{Entry, Plan};
use run_parts::WriteStop;

// What a plan covers of its pallet, and may cover: at most 16,000,000 cells.
fn cover_of(plan: &Plan) -> Cover
    requires covers { plan.now.count * case_area plan.now.order ≤ 16000000 }
    requires may { plan.now.bound * case_area plan.now.order ≤ 16000000 }
    ensures { result ≡ cover_of_plan plan.now }
{
    let case = plan.order.real();
    let area = case.long * case.short;
    Cover {
        number: plan.number,
        covers: plan.count * area,
        may: plan.bound * area,
    }
}

// Adds what an entry covers, if it is planned.
pub(crate) fn keep_cover(covers: &mut Vec<Cover>, entry: &Entry) -> Result<(), WriteStop>
    requires { (number : ℕ) × (row : Row) × IsEntryOf number row entry.now }
    ensures ok { OnOk result (covers.new.items ≡ covers.old.items ++ covers_of (entry.now ∷ [])) }
    ensures only { IsErrOf result WriteStop.Fault → ⊥ }
{
    let Entry::Planned(plan) = entry else {
        return Ok(());
    };
    match covers.push(cover_of(plan)) {
        Ok(()) => Ok(()),
        Err(_) => Err(WriteStop::Memory),
    }
}
