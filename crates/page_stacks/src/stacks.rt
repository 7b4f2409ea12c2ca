// What a sheet says in words of the stack of a plan.
ghost use Rattle.texts.specs.Puts.{Puts};
ghost use Rattle.std.specs.Prelude.{◌≡◌, ◌≤◌, length, true};
ghost use Rattle.cert_text.specs.declared.forms.Form.TheVariants.{Two};
ghost use Rattle.plan_entries.specs.Ranges.{plan_in_range};
ghost use Rattle.page_stacks.specs.Stacks.{no_layer_text, stack_text, stack_words};

use crate::layers::put_layers;
use crate::totals::put_plan_total;
use crate::unmet::put_unmet;
use plan_entries::Plan;
use plan_memory::Memory;
use stack_builder::StackAnswer;
use texts::put_text;

#[tactic(auto, unfolding(crate::specs::Stacks::no_layer_text))]
fn put_no_layer(out: &mut Vec<u8>) -> Result<(), Memory>
    ensures { Puts out.old.items out.new.items no_layer_text result }
{
    put_text(
        out,
        b"<h3>The stack</h3>\n<p>No layer: the height or the weight allows none.</p>\n",
    )
}

// Appends what is said of a stack of these forms.
#[tactic(auto, using(texts::proofs::Growth::grows_after), unfolding(crate::specs::Stacks::stack_text))]
fn put_stack(out: &mut Vec<u8>, plan: &Plan, stack: &[u32]) -> Result<(), Memory>
    requires plan { plan_in_range Two plan.now ≡ true }
    requires stack { length stack.now ≤ 10000 }
    ensures { Puts out.old.items out.new.items (stack_text plan.now stack.now) result }
{
    match stack {
        [] => put_no_layer(out),
        [_, ..] => {
            let forms = plan.layers.as_slice().len() as u32;
            put_layers(out, forms, stack)?;
            put_plan_total(out, plan, stack.len() as u64)?;
            Ok(())
        }
    }
}

/// Appends what is said of the stack of a plan.
#[tactic(auto, unfolding(crate::specs::Stacks::stack_words))]
pub fn put_stack_words(out: &mut Vec<u8>, plan: &Plan) -> Result<(), Memory>
    requires { plan_in_range Two plan.now ≡ true }
    ensures { Puts out.old.items out.new.items (stack_words plan.now) result }
{
    match &plan.stack {
        StackAnswer::Stack(stack) => put_stack(out, plan, stack.as_slice()),
        StackAnswer::Unmet(told) => put_unmet(out, told.as_slice()),
    }
}
