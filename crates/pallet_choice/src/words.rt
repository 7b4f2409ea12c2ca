ghost use Rattle.std.specs.Prelude.{◌≡◌};
ghost use Rattle.texts.specs.Gives.{GivesOption};
ghost use Rattle.texts.specs.Lines.{words_left};
ghost use Rattle.texts.specs.Words.{word_by};
ghost use Rattle.pallet_choice.specs.Words.{number_from_one as number_from_one_to, told_of, chosen_of, rival_of};

use plan_io::number_of;
use texts::{is_end, next_word, skip_word};

/// The greatest number of an entry.
const MOST_ENTRIES: u32 = 256;

/// The greatest count of cases, and the greatest bound.
const MOST_CASES: u32 = 1_000;

// The number from 1 on that a word is, if it is at most so great.
fn number_from_one(word: &[u8], most: u32) -> Option<u32>
    ensures { result ≡ number_from_one_to most word.now }
{
    let number = number_of(word)?;
    if 1 <= number && number <= u64::from(most) {
        Some(number as u32)
    } else {
        None
    }
}

// The same of the first word, and the words behind it.
fn number_word(words: Option<&[u8]>, most: u32) -> Option<(u32, Option<&[u8]>)>
    ensures { GivesOption (λ x. (x.0, words_left x.1)) result (word_by (number_from_one_to most) (words_left words.entry)) }
{
    let (word, rest) = next_word(words)?;
    let number = number_from_one(word, most)?;
    Some((number, rest))
}

// The number of an entry and its count or bound, each after its word.
#[tactic(auto, unfolding(crate::specs::Words::told_at, crate::specs::Words::told_of))]
fn told_line(line: &[u8], name: &[u8], unit: &[u8]) -> Option<(u32, u32)>
    ensures { result ≡ told_of name.now unit.now line.now }
{
    let rest = skip_word(Some(line), name)?;
    let (number, rest) = number_word(rest, MOST_ENTRIES)?;
    let rest = skip_word(rest, unit)?;
    let (cases, rest) = number_word(rest, MOST_CASES)?;
    if is_end(rest) {
        Some((number, cases))
    } else {
        None
    }
}

// The line of the chosen entry, or of none.
#[tactic(auto, unfolding(crate::specs::Words::chosen_of))]
pub(crate) fn chosen_line(line: &[u8]) -> Option<Option<(u32, u32)>>
    ensures { result ≡ chosen_of line.now }
{
    if line == b"chosen none".as_slice() {
        return Some(None);
    }
    let entry = told_line(line, b"chosen", b"count")?;
    Some(Some(entry))
}

// The line of a rival whose number is above this one.
#[tactic(auto, unfolding(crate::specs::Words::rival_of))]
pub(crate) fn rival_line(line: &[u8], above: u32) -> Option<(u32, u32)>
    ensures { result ≡ rival_of above line.now }
{
    let rival = told_line(line, b"rival", b"bound")?;
    if above < rival.0 { Some(rival) } else { None }
}
