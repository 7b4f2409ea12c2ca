ghost use Rattle.std.specs.Prelude.{◌≡◌, ◌++◌};
ghost use Rattle.texts.specs.Puts.{Puts};
ghost use Rattle.page_figures.specs.Stack.{break_mark, letters as letters_of, break_words, break_note, break_text};

use crate::sides::Sides;
use page_pieces::Piece::{Number, Text};
use page_pieces::put_pieces;
use plan_memory::Memory;

#[tactic(auto, using(texts::proofs::Growth::grows_after), unfolding(crate::specs::Stack::break_mark))]
fn put_break_mark(out: &mut Vec<u8>, sides: Sides) -> Result<(), Memory>
    ensures { Puts out.old.items out.new.items (break_mark sides) result }
{
    put_pieces(
        out,
        &[
            Text(b"<path class=\"break\" d=\"M0 -"),
            Number(10 * sides.height as u64),
            Text(b"v-"),
            Number(10 * sides.height as u64),
            Text(b"h"),
            Number(10 * sides.pallet_x as u64),
            Text(b"l"),
            Number(4 * sides.pallet_y as u64),
            Text(b" -"),
            Number(3 * sides.pallet_y as u64),
            Text(b"v"),
            Number(10 * sides.height as u64),
            Text(b"l-"),
            Number(4 * sides.pallet_y as u64),
            Text(b" "),
            Number(3 * sides.pallet_y as u64),
            Text(b"z\"/>"),
        ],
    )
}

// How big the letters in the mark are.
fn letters(sides: Sides) -> u64
    ensures { result ≡ letters_of sides }
{
    (sides.pallet_x as u64 / 2).min(8 * sides.height as u64)
}

fn put_break_words(out: &mut Vec<u8>, sides: Sides, size: u64, between: u64) -> Result<(), Memory>
    ensures { Puts out.old.items out.new.items (break_words sides size between) result }
{
    put_pieces(
        out,
        &[
            Text(b"<text x=\""),
            Number(5 * sides.pallet_x as u64),
            Text(b"\" y=\"-"),
            Number(15 * sides.height as u64),
            Text(b"\" font-size=\""),
            Number(size),
            Text(b"\" text-anchor=\"middle\" dominant-baseline=\"central\">"),
            Number(between),
            Text(b" layers between</text>\n"),
        ],
    )
}

#[tactic(auto, using(texts::proofs::Growth::grows_after), unfolding(crate::specs::Stack::break_note))]
fn put_break_note(out: &mut Vec<u8>, sides: Sides, between: u64) -> Result<(), Memory>
    ensures { Puts out.old.items out.new.items (break_note sides between) result }
{
    let size = letters(sides);
    put_break_words(out, sides, size, between)?;
    Ok(())
}

/// Appends the mark between the first layer and the last, and how many are left out.
#[tactic(auto, using(texts::proofs::Growth::grows_after), unfolding(crate::specs::Stack::break_text))]
pub fn put_break(out: &mut Vec<u8>, sides: Sides, between: u64) -> Result<(), Memory>
    ensures { Puts out.old.items out.new.items (break_text sides between) result }
{
    put_break_mark(out, sides)?;
    put_break_note(out, sides, between)
}
