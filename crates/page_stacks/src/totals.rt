// What a stack has in all.
ghost use Rattle.std.specs.Prelude.{◌≡◌, ◌≤◌, true};
ghost use Rattle.cert_text.specs.declared.forms.Form.TheVariants.{Two};
ghost use Rattle.plan_entries.specs.Ranges.{plan_in_range};
ghost use Rattle.texts.specs.Puts.{Puts};
ghost use Rattle.page_stacks.specs.Totals.{cases_text, size_text, total_text, plan_total};

use order_reader::Field;
use page_pieces::Piece::{Number, Text};
use page_pieces::put_pieces;
use page_words::put_kilograms;
use plan_entries::Plan;
use plan_memory::Memory;
use texts::put_text;

fn put_cases(out: &mut Vec<u8>, cases: u64) -> Result<(), Memory>
    ensures { Puts out.old.items out.new.items (cases_text cases) result }
{
    if cases == 1 {
        return put_text(out, b"<b>1 case</b>");
    }
    put_pieces(out, &[Text(b"<b>"), Number(cases), Text(b" cases</b>")])
}

#[tactic(auto, using(texts::proofs::Growth::grows_after), unfolding(crate::specs::Totals::size_text))]
fn put_size(out: &mut Vec<u8>, height: u64, grams: u64) -> Result<(), Memory>
    ensures { Puts out.old.items out.new.items (size_text height grams) result }
{
    put_pieces(out, &[Text(b", "), Number(height), Text(b" high, ")])?;
    put_kilograms(out, grams)?;
    put_text(out, b" kg</p>\n")
}

#[tactic(auto, using(texts::proofs::Growth::grows_after), unfolding(crate::specs::Totals::total_text))]
fn put_total(out: &mut Vec<u8>, cases: u64, height: u64, grams: u64) -> Result<(), Memory>
    ensures { Puts out.old.items out.new.items (total_text cases height grams) result }
{
    put_text(out, b"<p class=\"total\">")?;
    put_cases(out, cases)?;
    put_size(out, height, grams)
}

// Appends the cases, the height and the weight of a stack of so many layers of the plan.
#[tactic(auto, unfolding(crate::specs::Totals::plan_total))]
pub fn put_plan_total(out: &mut Vec<u8>, plan: &Plan, layers: u64) -> Result<(), Memory>
    requires plan { plan_in_range Two plan.now ≡ true }
    requires layers { layers ≤ 10000 }
    ensures { Puts out.old.items out.new.items (plan_total plan.now layers) result }
{
    let cases = u64::from(plan.count) * layers;
    let height = u64::from(plan.order.number(Field::CaseZ)) * layers;
    let grams = cases * u64::from(plan.order.number(Field::Weight));
    put_total(out, cases, height, grams)?;
    Ok(())
}
