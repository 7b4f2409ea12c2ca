// Which layers of a stack have which form.
ghost use Rattle.std.specs.Prelude.{◌≡◌, ◌++◌, ◌≤◌};
ghost use Rattle.texts.specs.Puts.{Puts};
ghost use Rattle.page_stacks.specs.Places.{places_of as places_in};
ghost use Rattle.page_stacks.specs.Layers.{form_end, lone_line, several_line, form_line, form_lines, layers_text};

use crate::places::{places_of, put_listed};
use page_pieces::Piece::{Number, Text};
use page_pieces::put_pieces;
use plan_memory::Memory;
use texts::put_text;

fn put_form_end(out: &mut Vec<u8>, form: u32) -> Result<(), Memory>
    ensures { Puts out.old.items out.new.items (form_end form) result }
{
    put_pieces(
        out,
        &[Text(b": form "), Number(form as u64), Text(b"</li>\n")],
    )
}

// Appends the line of a form that several layers have.
#[tactic(auto, using(texts::proofs::Growth::grows_after), unfolding(crate::specs::Layers::several_line))]
fn put_several(out: &mut Vec<u8>, form: u32, layers: &[u64]) -> Result<(), Memory>
    ensures { Puts out.old.items out.new.items (several_line form layers.now) result }
{
    put_text(out, b"<li>layers ")?;
    put_listed(out, layers)?;
    put_form_end(out, form)
}

// Appends the line of a form that one layer has.
#[tactic(auto, using(texts::proofs::Growth::grows_after), unfolding(crate::specs::Layers::lone_line))]
fn put_lone(out: &mut Vec<u8>, form: u32, layer: u64) -> Result<(), Memory>
    ensures { Puts out.old.items out.new.items (lone_line form layer) result }
{
    put_pieces(out, &[Text(b"<li>layer "), Number(layer)])?;
    put_form_end(out, form)
}

// Appends the line of a form that these layers have.
fn put_form_line(out: &mut Vec<u8>, form: u32, layers: &[u64]) -> Result<(), Memory>
    ensures { Puts out.old.items out.new.items (form_line form layers.now) result }
{
    match layers {
        [] => Ok(()),
        [only] => put_lone(out, form, *only),
        [_, _, ..] => put_several(out, form, layers),
    }
}

// Appends the line of a form in this stack.
#[tactic(auto, using(texts::proofs::Growth::grows_after))]
fn put_form(out: &mut Vec<u8>, form: u32, stack: &[u32]) -> Result<(), Memory>
    ensures { Puts out.old.items out.new.items (form_line form (places_in form stack.now)) result }
{
    let layers = places_of(*out.allocator(), form, stack)?;
    put_form_line(out, form, layers.as_slice())?;
    Ok(())
}

// Appends the lines of so many forms.
fn put_forms(out: &mut Vec<u8>, forms: u32, stack: &[u32]) -> Result<(), Memory>
    requires { forms ≤ 8 }
    ensures { Puts out.old.items out.new.items (form_lines forms stack.now) result }
{
    for form in 0..forms {
        put_form(out, form + 1, stack)?;
    }
    Ok(())
}

// Appends which layers of the stack have which of so many forms.
#[tactic(auto, using(texts::proofs::Growth::grows_after), unfolding(crate::specs::Layers::layers_text))]
pub fn put_layers(out: &mut Vec<u8>, forms: u32, stack: &[u32]) -> Result<(), Memory>
    requires { forms ≤ 8 }
    ensures { Puts out.old.items out.new.items (layers_text forms stack.now) result }
{
    put_text(out, b"<h3>The stack</h3>\n<ul class=\"stack\">\n")?;
    put_forms(out, forms, stack)?;
    put_text(out, b"</ul>\n")
}
