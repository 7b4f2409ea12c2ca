ghost use Rattle.std.specs.Prelude.{◌≤◌, ◌≡◌, ◌∷◌, ◌==◌, [], length, IfSome, MatchOption};
ghost use Rattle.texts.specs.Gives.{GivesOption, GivesLine};
ghost use Rattle.texts.specs.Lines.{words_left};
ghost use Rattle.texts.specs.Words.{word_by, behind, number_up_to, this_number, numbers_by};

use crate::lines::place_of;
use crate::stops::LineStop;
use plan_io::number_of;
use std::alloc::Global;

/// The first of the words that are left in a line, and those behind it.
pub fn next_word(words: Option<&[u8]>) -> Option<(&[u8], Option<&[u8]>)>
    ensures { MatchOption result (words_left words.entry ≡ []) (λ x. words_left words.entry ≡ x.0.now ∷ words_left x.1) }
{
    let Some(line) = words else {
        return None;
    };
    match place_of(line, b' ') {
        Some(at) => Some((&line[..at], Some(&line[at + 1..]))),
        None => Some((line, None)),
    }
}

/// The words behind a first word that is this one.
pub fn skip_word<'a>(words: Option<&'a [u8]>, word: &[u8]) -> Option<Option<&'a [u8]>>
    ensures { GivesOption (λ x. words_left x) result (behind word.now (words_left words.entry)) }
{
    let (first, rest) = next_word(words)?;
    if first == word { Some(rest) } else { None }
}

/// The number that is the first word, if it is at most so great, and the words behind it.
pub fn number_word(words: Option<&[u8]>, most: u64) -> Option<(u64, Option<&[u8]>)>
    ensures number { GivesOption (λ x. (x.0, words_left x.1)) result (word_by (number_up_to most) (words_left words.entry)) }
    ensures bound { IfSome result (λ x. x.0 ≤ most) }
{
    let (first, rest) = next_word(words)?;
    let number = number_of(first)?;
    if number <= most {
        Some((number, rest))
    } else {
        None
    }
}

/// The first word, if it is this number, and the words behind it.
pub fn this_number_word(words: Option<&[u8]>, wanted: u64) -> Option<(u64, Option<&[u8]>)>
    ensures { GivesOption (λ x. (x.0, words_left x.1)) result (word_by (this_number wanted) (words_left words.entry)) }
{
    let (first, rest) = next_word(words)?;
    let number = number_of(first)?;
    if number == wanted {
        Some((number, rest))
    } else {
        None
    }
}

/// So many numbers that are the first words, if each is at most so great, and the words behind them.
pub fn number_words(
    alloc: Global,
    words: Option<&[u8]>,
    count: u32,
    most: u32,
) -> Result<(Vec<u32>, Option<&[u8]>), LineStop>
    ensures { GivesLine (λ x. (x.0.items, words_left x.1)) result (numbers_by most count (words_left words.entry)) }
{
    let mut numbers = Vec::new(alloc);
    let mut rest = words;
    for _place in 0..count {
        let Some((number, after)) = number_word(rest, u64::from(most)) else {
            return Err(LineStop::Fault);
        };
        numbers.push(number as u32)?;
        rest = after;
    }
    Ok((numbers, rest))
}

/// Whether no words are left.
pub fn is_end(words: Option<&[u8]>) -> bool
    ensures { result ≡ (length (words_left words.entry) == 0) }
{
    match words {
        None => true,
        Some(_) => false,
    }
}
