ghost use Rattle.std.specs.Prelude.{◌≡◌, ◌≤◌, ◌<◌, ◌*◌, ◌++◌, length};
ghost use Rattle.texts.specs.Puts.{Puts};
ghost use Rattle.page_figures.specs.Stack.{drawn_layers as drawn_layers_of, height_of as height_in, margin as margin_of, layers_word as layers_word_of, frame_text, stack_frame, stack_words, floor_text, stack_head, stack_ground, use_text, layer_text, each_layer, break_text, ends_text, broken_stack, layers_text, stack_end, stack_figure};

use crate::breaks::put_break;
use crate::sides::Sides;
use crate::slabs::put_slabs;
use page_pieces::Piece::{Number, Text};
use page_pieces::put_pieces;
use plan_entries::Listed;
use plan_memory::Memory;

/// How many layers a picture shows in full.
const MOST_DRAWN: usize = 60;

// How many layers high the picture is.
fn drawn_layers(count: usize) -> u8
    ensures { result ≡ drawn_layers_of count }
{
    if count > MOST_DRAWN { 3 } else { count as u8 }
}

// How high so many layers are: at most 10 * 255 heights.
fn height_of(sides: Sides, layers: u8) -> u64
    ensures whole { result ≡ height_in sides layers }
    ensures small { result ≤ 2550 * 4294967296 }
{
    10 * sides.height as u64 * layers as u64
}

// What is left free round the picture.
fn margin(sides: Sides) -> u32
    ensures { result ≡ margin_of sides }
{
    sides.pallet_x / 4 + 1
}

fn layers_word(count: usize) -> &'static [u8]
    ensures { result.now ≡ layers_word_of count }
{
    match count {
        1 => b" layer",
        _ => b" layers",
    }
}

fn put_frame(out: &mut Vec<u8>, sides: Sides, edge: u32, high: u64) -> Result<(), Memory>
    requires { high ≤ 2550 * 4294967296 }
    ensures { Puts out.old.items out.new.items (frame_text sides edge high) result }
{
    put_pieces(
        out,
        &[
            Text(b"<figure class=\"stack\"><svg role=\"img\" class=\"stack\" viewBox=\"-"),
            Number(edge as u64),
            Text(b" -"),
            Number(high + 3 * sides.pallet_y as u64 + edge as u64),
            Text(b" "),
            Number(10 * sides.pallet_x as u64 + 4 * sides.pallet_y as u64 + 2 * edge as u64),
            Text(b" "),
            Number(high + 3 * sides.pallet_y as u64 + 2 * edge as u64),
            Text(b"\"><title>The stack</title>"),
        ],
    )
}

#[tactic(auto, using(texts::proofs::Growth::grows_after), unfolding(crate::specs::Stack::stack_frame))]
fn put_stack_frame(out: &mut Vec<u8>, sides: Sides, count: usize) -> Result<(), Memory>
    ensures { Puts out.old.items out.new.items (stack_frame sides count) result }
{
    let high = height_of(sides, drawn_layers(count));
    put_frame(out, sides, margin(sides), high)?;
    Ok(())
}

#[tactic(auto, using(texts::proofs::Growth::grows_after), unfolding(crate::specs::Stack::stack_words))]
fn put_stack_words(out: &mut Vec<u8>, count: usize) -> Result<(), Memory>
    ensures { Puts out.old.items out.new.items (stack_words count) result }
{
    let word = layers_word(count);
    put_pieces(
        out,
        &[
            Text(b"<desc>"),
            Number(count as u64),
            Text(word),
            Text(b", seen from the front and the right</desc><defs>\n"),
        ],
    )?;
    Ok(())
}

#[tactic(auto, using(texts::proofs::Growth::grows_after), unfolding(crate::specs::Stack::stack_head))]
fn put_stack_head(out: &mut Vec<u8>, sides: Sides, count: usize) -> Result<(), Memory>
    ensures { Puts out.old.items out.new.items (stack_head sides count) result }
{
    put_stack_frame(out, sides, count)?;
    put_stack_words(out, count)
}

fn put_floor(out: &mut Vec<u8>, sides: Sides) -> Result<(), Memory>
    ensures { Puts out.old.items out.new.items (floor_text sides) result }
{
    put_pieces(
        out,
        &[
            Text(b"</defs><path class=\"pallet\" d=\"M0 0h"),
            Number(10 * sides.pallet_x as u64),
            Text(b"l"),
            Number(4 * sides.pallet_y as u64),
            Text(b" -"),
            Number(3 * sides.pallet_y as u64),
            Text(b"h-"),
            Number(10 * sides.pallet_x as u64),
            Text(b"z\"/>\n"),
        ],
    )
}

#[tactic(auto, using(texts::proofs::Growth::grows_after), unfolding(crate::specs::Stack::stack_ground))]
fn put_stack_ground(
    out: &mut Vec<u8>,
    sides: Sides,
    sheet: u32,
    layers: &[Listed],
) -> Result<(), Memory>
    ensures { Puts out.old.items out.new.items (stack_ground sides sheet layers.now) result }
{
    put_slabs(out, sides, sheet, layers)?;
    put_floor(out, sides)
}

fn put_use(out: &mut Vec<u8>, sheet: u32, form: u32, up: u64) -> Result<(), Memory>
    ensures { Puts out.old.items out.new.items (use_text sheet form up) result }
{
    put_pieces(
        out,
        &[
            Text(b"<use href=\"#form-"),
            Number(sheet as u64),
            Text(b"-"),
            Number(form as u64),
            Text(b"\" y=\"-"),
            Number(up),
            Text(b"\"/>\n"),
        ],
    )
}

#[tactic(auto, using(texts::proofs::Growth::grows_after), unfolding(crate::specs::Stack::layer_text))]
fn put_layer(
    out: &mut Vec<u8>,
    sides: Sides,
    sheet: u32,
    place: u8,
    form: u32,
) -> Result<(), Memory>
    ensures { Puts out.old.items out.new.items (layer_text sides sheet place form) result }
{
    let up = height_of(sides, place.saturating_sub(1));
    put_use(out, sheet, form, up)?;
    Ok(())
}

#[tactic(auto, using(texts::proofs::Growth::grows_after), unfolding(crate::specs::Stack::each_layer))]
fn put_each_layer(
    out: &mut Vec<u8>,
    sides: Sides,
    sheet: u32,
    numbers: &[u32],
) -> Result<(), Memory>
    requires { length numbers.now ≤ 60 }
    ensures { Puts out.old.items out.new.items (each_layer sides sheet numbers.now) result }
{
    for (below, form) in numbers.iter().enumerate() {
        put_layer(out, sides, sheet, below as u8 + 1, *form)?;
    }
    Ok(())
}

#[tactic(auto, using(texts::proofs::Growth::grows_after), unfolding(crate::specs::Stack::ends_text))]
fn put_ends(
    out: &mut Vec<u8>,
    sides: Sides,
    sheet: u32,
    first: u32,
    between: u64,
    last: u32,
) -> Result<(), Memory>
    ensures { Puts out.old.items out.new.items (ends_text sides sheet first between last) result }
{
    put_layer(out, sides, sheet, 1, first)?;
    put_break(out, sides, between)?;
    put_layer(out, sides, sheet, 3, last)
}

#[tactic(auto, using(texts::proofs::Growth::grows_after), unfolding(crate::specs::Stack::broken_stack))]
fn put_broken_stack(
    out: &mut Vec<u8>,
    sides: Sides,
    sheet: u32,
    numbers: &[u32],
) -> Result<(), Memory>
    requires { 60 < length numbers.now }
    ensures { Puts out.old.items out.new.items (broken_stack sides sheet numbers.now) result }
{
    let between = numbers.len() as u64 - 2;
    let (first, last) = (numbers[0], numbers[numbers.len() - 1]);
    put_ends(out, sides, sheet, first, between, last)?;
    Ok(())
}

#[tactic(auto, using(texts::proofs::Growth::grows_after), unfolding(crate::specs::Stack::layers_text))]
fn put_layers(out: &mut Vec<u8>, sides: Sides, sheet: u32, numbers: &[u32]) -> Result<(), Memory>
    ensures { Puts out.old.items out.new.items (layers_text sides sheet numbers.now) result }
{
    if numbers.len() > MOST_DRAWN {
        put_broken_stack(out, sides, sheet, numbers)
    } else {
        put_each_layer(out, sides, sheet, numbers)
    }
}

fn put_stack_end(out: &mut Vec<u8>, count: usize) -> Result<(), Memory>
    ensures { Puts out.old.items out.new.items (stack_end count) result }
{
    let word = layers_word(count);
    put_pieces(
        out,
        &[
            Text(b"</svg><figcaption>The stack from the front and the right: "),
            Number(count as u64),
            Text(word),
            Text(b", the first at the bottom</figcaption></figure>\n"),
        ],
    )?;
    Ok(())
}

/// Appends the picture of a stack, whose forms are numbered from the lowest layer up.
#[tactic(auto, using(texts::proofs::Growth::grows_after), unfolding(crate::specs::Stack::stack_figure))]
pub fn put_stack_figure(
    out: &mut Vec<u8>,
    sides: Sides,
    sheet: u32,
    layers: &[Listed],
    numbers: &[u32],
) -> Result<(), Memory>
    ensures { Puts out.old.items out.new.items (stack_figure sides sheet layers.now numbers.now) result }
{
    put_stack_head(out, sides, numbers.len())?;
    put_stack_ground(out, sides, sheet, layers)?;
    put_layers(out, sides, sheet, numbers)?;
    put_stack_end(out, numbers.len())
}
