ghost use Rattle.std.specs.Prelude.{◌≡◌, true};
ghost use Rattle.texts.specs.Puts.{Puts};
ghost use Rattle.cert_text.specs.declared.forms.Form.TheVariants.{Two};
ghost use Rattle.plan_entries.specs.Ranges.{plan_in_range};
ghost use Rattle.page_text.specs.Sheets.{forms_head, forms_part, stack_picture, stack_part, layers_part, planned_sheet};

use page_figures::{Sides, put_forms, put_stack_figure, sides_of};
use page_stacks::put_stack_words;
use page_words::put_order_words;
use plan_entries::{Listed, Plan};
use plan_memory::Memory;
use stack_builder::StackAnswer;
use texts::put_text;

// Begins the forms.
#[tactic(auto, unfolding(crate::specs::Sheets::forms_head))]
fn put_forms_head(out: &mut Vec<u8>) -> Result<(), Memory>
    ensures { Puts out.old.items out.new.items forms_head result }
{
    put_text(out, b"<div class=\"forms\">\n")
}

// Appends the forms of the layer from above.
#[tactic(auto, using(texts::proofs::Growth::grows_after), unfolding(crate::specs::Sheets::forms_part))]
fn put_forms_part(out: &mut Vec<u8>, sides: Sides, layers: &[Listed]) -> Result<(), Memory>
    ensures { Puts out.old.items out.new.items (forms_part sides layers.now) result }
{
    put_forms_head(out)?;
    put_forms(out, sides, layers)?;
    put_text(out, b"</div>\n")
}

// Appends the picture of a stack that is not empty.
#[tactic(auto, unfolding(crate::specs::Sheets::stack_picture))]
fn put_stack_picture(out: &mut Vec<u8>, sheet: u32, sides: Sides, plan: &Plan) -> Result<(), Memory>
    ensures { Puts out.old.items out.new.items (stack_picture sheet sides plan.now.layers plan.now.stack) result }
{
    match &plan.stack {
        StackAnswer::Stack(numbers) if !numbers.as_slice().is_empty() => {
            put_stack_figure(
                out,
                sides,
                sheet,
                plan.layers.as_slice(),
                numbers.as_slice(),
            )?;
            Ok(())
        }
        _ => Ok(()),
    }
}

// Appends the stack, and the end of the sheet.
#[tactic(auto, using(texts::proofs::Growth::grows_after), unfolding(crate::specs::Sheets::stack_part))]
fn put_stack_part(out: &mut Vec<u8>, sheet: u32, sides: Sides, plan: &Plan) -> Result<(), Memory>
    requires { plan_in_range Two plan.now ≡ true }
    ensures { Puts out.old.items out.new.items (stack_part sheet sides plan.now) result }
{
    put_stack_words(out, plan)?;
    put_stack_picture(out, sheet, sides, plan)?;
    put_text(out, b"</section>\n")
}

// Appends what stands behind the words of the order.
#[tactic(auto, using(texts::proofs::Growth::grows_after), unfolding(crate::specs::Sheets::layers_part))]
fn put_layers_part(out: &mut Vec<u8>, sheet: u32, sides: Sides, plan: &Plan) -> Result<(), Memory>
    requires { plan_in_range Two plan.now ≡ true }
    ensures { Puts out.old.items out.new.items (layers_part sheet sides plan.now) result }
{
    put_forms_part(out, sides, plan.layers.as_slice())?;
    put_stack_part(out, sheet, sides, plan)?;
    Ok(())
}

/// Appends the sheet of a plan.
#[tactic(auto, using(texts::proofs::Growth::grows_after), unfolding(crate::specs::Sheets::planned_sheet))]
pub(crate) fn put_planned_sheet(out: &mut Vec<u8>, sheet: u32, plan: &Plan) -> Result<(), Memory>
    requires { plan_in_range Two plan.now ≡ true }
    ensures { Puts out.old.items out.new.items (planned_sheet sheet plan.now) result }
{
    put_order_words(out, sheet, plan)?;
    put_layers_part(out, sheet, sides_of(&plan.order), plan)?;
    Ok(())
}
