ghost use Rattle.texts.specs.Puts.{Puts};
ghost use Rattle.page_words.specs.Kilograms.{kilograms};

use page_pieces::Piece::{Number, Text};
use page_pieces::put_pieces;
use plan_memory::Memory;

/// Appends a weight in kilograms, exact to the gram.
#[tactic(auto, unfolding(crate::specs::Kilograms::kilograms))]
pub fn put_kilograms(out: &mut Vec<u8>, grams: u64) -> Result<(), Memory>
    ensures { Puts out.old.items out.new.items (kilograms grams) result }
{
    let left = grams % 1000;
    put_pieces(
        out,
        &[
            Number(grams / 1000),
            Text(b"."),
            Number(left / 100 % 10),
            Number(left / 10 % 10),
            Number(left % 10),
        ],
    )
}
