ghost use Rattle.std.specs.Prelude.{◌≡◌};
ghost use Rattle.texts.specs.Gives.{GivesOption};
ghost use Rattle.texts.specs.Lines.{words_left};
ghost use Rattle.texts.specs.Words.{word_by};
ghost use Rattle.listing_text.specs.Words.{way_of, case_of, move_of, turn_of, number_within as number_within_most, layer_count_of};

use layer_symmetry::Move;
use plan_geometry::{Spot, Way};
use plan_io::number_of;
use texts::{is_end, next_word, number_word, skip_word, this_number_word};

/// The greatest coordinate of a case.
const MOST_SIDE: u64 = 4_000;

/// The most layers of a plan.
const MOST_LAYERS: u32 = 8;

fn way_word(words: Option<&[u8]>) -> Option<(Way, Option<&[u8]>)>
    ensures { GivesOption (λ x. (x.0, words_left x.1)) result (word_by way_of (words_left words.entry)) }
{
    let (word, rest) = next_word(words)?;
    if word == b"L".as_slice() {
        Some((Way::Lying, rest))
    } else if word == b"S".as_slice() {
        Some((Way::Standing, rest))
    } else {
        None
    }
}

// The line of a case.
#[tactic(auto, unfolding(crate::specs::Words::case_at, crate::specs::Words::case_of))]
pub(crate) fn case_line(line: &[u8]) -> Option<Spot>
    ensures { result ≡ case_of line.now }
{
    let (x, rest) = number_word(Some(line), MOST_SIDE)?;
    let (y, rest) = number_word(rest, MOST_SIDE)?;
    let (way, rest) = way_word(rest)?;
    if is_end(rest) {
        Some(Spot {
            x: x as u32,
            y: y as u32,
            way,
        })
    } else {
        None
    }
}

fn move_named(name: &[u8]) -> Option<Move>
    ensures { result ≡ move_of name.now }
{
    Move::of_name(name)
}

fn move_word(words: Option<&[u8]>) -> Option<(Move, Option<&[u8]>)>
    ensures { GivesOption (λ x. (x.0, words_left x.1)) result (word_by move_of (words_left words.entry)) }
{
    let (word, rest) = next_word(words)?;
    let found = move_named(word)?;
    Some((found, rest))
}

// The first line of the layer of a number.
#[tactic(auto, unfolding(crate::specs::Words::turn_at, crate::specs::Words::turn_of))]
pub(crate) fn turn_line(line: &[u8], number: u32) -> Option<Move>
    ensures { result ≡ turn_of number line.now }
{
    let rest = skip_word(Some(line), b"layer")?;
    let (_, rest) = this_number_word(rest, u64::from(number))?;
    let (turn, rest) = move_word(rest)?;
    if is_end(rest) { Some(turn) } else { None }
}

// The number from 1 on that a word is, if it is at most so great.
pub(crate) fn number_within(word: &[u8], most: u32) -> Option<u32>
    ensures { result ≡ number_within_most most word.now }
{
    let number = number_of(word)?;
    if 1 <= number && number <= u64::from(most) {
        Some(number as u32)
    } else {
        None
    }
}

fn layer_count_word(words: Option<&[u8]>) -> Option<(u32, Option<&[u8]>)>
    ensures { GivesOption (λ x. (x.0, words_left x.1)) result (word_by (number_within_most 8) (words_left words.entry)) }
{
    let (word, rest) = next_word(words)?;
    let count = number_within(word, MOST_LAYERS)?;
    Some((count, rest))
}

// The line that says how many layers there are.
#[tactic(auto, unfolding(crate::specs::Words::layer_count_at, crate::specs::Words::layer_count_of))]
pub(crate) fn layer_count_line(line: &[u8]) -> Option<u32>
    ensures { result ≡ layer_count_of line.now }
{
    let rest = skip_word(Some(line), b"layers")?;
    let (count, rest) = layer_count_word(rest)?;
    if is_end(rest) { Some(count) } else { None }
}
