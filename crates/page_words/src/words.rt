ghost use Rattle.std.specs.Prelude.{◌≡◌, ◌≤◌, true};
ghost use Rattle.texts.specs.Puts.{Puts};
ghost use Rattle.cert_text.specs.declared.forms.Form.TheVariants.{Two};
ghost use Rattle.plan_entries.specs.Ranges.{plan_in_range};
ghost use Rattle.page_words.specs.Words.{count_words, order_words};

use crate::counts::{put_count, put_cover};
use crate::table::{put_sheet_head, put_table};
use plan_entries::Plan;
use plan_memory::Memory;

// Appends how many cases a layer has, and how much of the pallet they cover.
#[tactic(auto, using(texts::proofs::Growth::grows_after), unfolding(crate::specs::Words::count_words))]
fn put_counts(out: &mut Vec<u8>, plan: &Plan) -> Result<(), Memory>
    requires { plan.now.count ≤ 1000 }
    ensures { Puts out.old.items out.new.items (count_words plan.now) result }
{
    put_count(out, plan.count, plan.bound, plan.status)?;
    put_cover(out, &plan.order, plan.count)
}

/// Opens the sheet of a plan at its place in the report, and appends what it says in words of the order: the row, what
/// was ordered, and the count of a layer.
#[tactic(auto, using(texts::proofs::Growth::grows_after, crate::proofs::Counted::count_small), unfolding(crate::specs::Words::order_words))]
pub fn put_order_words(out: &mut Vec<u8>, sheet: u32, plan: &Plan) -> Result<(), Memory>
    requires { plan_in_range Two plan.now ≡ true }
    ensures { Puts out.old.items out.new.items (order_words sheet plan.now) result }
{
    put_sheet_head(out, sheet, plan.number, plan.order.id())?;
    put_table(out, &plan.order)?;
    put_counts(out, plan)?;
    Ok(())
}
