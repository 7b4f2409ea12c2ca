ghost use Rattle.std.specs.Prelude.{ℕ, ◌≡◌, Some, IfSome};
ghost use Rattle.texts.specs.Gives.{GivesOption};
ghost use Rattle.texts.specs.Lines.{words_left};
ghost use Rattle.texts.specs.Words.{word_by};
ghost use Rattle.truck_floor.specs.declared.totals.TotalLine.{TotalLine};
ghost use Rattle.truck_floor.specs.Text.{TotalIsInFront};
ghost use Rattle.truck_floor.specs.Words.{pallets_of as pallets_by, product_at, optimal_of as optimal_by, numbers_of as numbers_by, total_of as total_by};

use crate::totals::{Total, TotalLine};
use plan_io::number_of;
use texts::{is_end, next_line, next_word, number_word, skip_word};

/// The greatest count and bound of pallets.
const MOST_PALLETS: u64 = 1_000;

/// The greatest count and bound of the cases on a pallet.
const MOST_CASES: u64 = 10_000_000;

// The number of pallets that a word is, from 1 to 1,000.
fn pallets_of(word: &[u8]) -> Option<u32>
    ensures { result ≡ pallets_by word.now }
{
    let number = number_of(word)?;
    if 1 <= number && number <= MOST_PALLETS {
        Some(number as u32)
    } else {
        None
    }
}

// The number of pallets that the first word is, and the words behind it.
fn pallets_word(words: Option<&[u8]>) -> Option<(u32, Option<&[u8]>)>
    ensures { GivesOption (λ x. (x.0, words_left x.1)) result (word_by pallets_by (words_left words.entry)) }
{
    let (word, rest) = next_word(words)?;
    let number = pallets_of(word)?;
    Some((number, rest))
}

// A number of pallets and a number of cases, and the words behind them.
#[tactic(auto, unfolding(crate::specs::Words::product_at))]
fn product_words(words: Option<&[u8]>) -> Option<((u32, u32), Option<&[u8]>)>
    ensures { GivesOption (λ x. (x.0, words_left x.1)) result (product_at (words_left words.entry)) }
{
    let (pallets, rest) = pallets_word(words)?;
    let rest = skip_word(rest, b"x")?;
    let (cases, rest) = number_word(rest, MOST_CASES)?;
    Some(((pallets, cases as u32), rest))
}

// Whether the word is `optimal`, and not `open`.
#[tactic(auto, unfolding(crate::specs::Words::optimal_of))]
fn optimal_of(word: &[u8]) -> Option<bool>
    ensures { result ≡ optimal_by word.now }
{
    if word == b"optimal".as_slice() {
        return Some(true);
    }
    if word == b"open".as_slice() {
        return Some(false);
    }
    None
}

// The same of the first word, and the words behind it.
fn optimal_word(words: Option<&[u8]>) -> Option<(bool, Option<&[u8]>)>
    ensures { GivesOption (λ x. (x.0, words_left x.1)) result (word_by optimal_by (words_left words.entry)) }
{
    let (word, rest) = next_word(words)?;
    let optimal = optimal_of(word)?;
    Some((optimal, rest))
}

// The numbers of a total's line.
#[tactic(auto, unfolding(crate::specs::Words::numbers_of, crate::specs::Words::numbers_at))]
fn numbers_of(line: &[u8]) -> Option<Total>
    ensures { result ≡ numbers_by line.now }
{
    let rest = skip_word(Some(line), b"total")?;
    let ((pallets, cases), rest) = product_words(rest)?;
    let rest = skip_word(rest, b"of")?;
    let ((pallet_bound, case_bound), rest) = product_words(rest)?;
    let (optimal, rest) = optimal_word(rest)?;
    if !is_end(rest) {
        return None;
    }
    Some(Total {
        pallets,
        cases,
        pallet_bound,
        case_bound,
        optimal,
    })
}

/// The total that a line, without its end, tells. None exactly where it is not the line of a total whose numbers of
/// pallets are from 1 to 1,000 and whose numbers of cases are at most 10,000,000, or of none (`total_lines_are_read`). Its
/// products are not compared.
#[tactic(auto, unfolding(crate::specs::Words::total_of))]
pub fn total_of(line: &[u8]) -> Option<TotalLine>
    ensures { result ≡ total_by line.now }
{
    if line == b"total none".as_slice() {
        return Some(TotalLine::Nothing);
    }
    let total = numbers_of(line)?;
    Some(TotalLine::Numbers(total))
}

/// The total line that is a prefix of the bytes, and its length in bytes. None exactly where no prefix is one.
pub fn get_total(bytes: &[u8]) -> Option<(TotalLine, usize)>
    ensures found { IfSome result (λ x. TotalIsInFront bytes.now x.0 x.1) }
    ensures only { (line : TotalLine) (len : ℕ) → TotalIsInFront bytes.now line len → result ≡ Some (line, len) }
{
    let (first, rest) = next_line(bytes)?;
    let line = total_of(first)?;
    Some((line, bytes.len() - rest.len()))
}
