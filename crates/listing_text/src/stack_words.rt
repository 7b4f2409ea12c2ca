ghost use Rattle.std.specs.Prelude.{◌≡◌};
ghost use Rattle.texts.specs.Gives.{GivesOption, GivesLine};
ghost use Rattle.texts.specs.Lines.{words_left};
ghost use Rattle.texts.specs.Words.{word_by};
ghost use Rattle.listing_text.specs.Text.{rule_name as rule_name_of, alone_word as alone_word_of};
ghost use Rattle.listing_text.specs.Words.{allowed_of, numbers_within as numbers_within_most, stack_of, reply_of, alone_of, rule_of};

use crate::layer_words::number_within;
use contact_rules::Rule;
use stack_builder::{UnmetRule, VariantNumbers};
use std::alloc::Global;
use texts::{LineStop, is_end, next_word, number_word, skip_word};

/// What the first line of an answer on the stack says.
#[derive(Drop)]
pub enum Reply {
    Stack(VariantNumbers),
    Unmet,
}

/// The most layers of a stack.
const MOST_STACKED: usize = 10_000;

// The printed name of a rule.
pub(crate) fn rule_name(rule: Rule) -> &'static [u8]
    ensures { result.now ≡ rule_name_of rule }
{
    match rule {
        Rule::Contact(_) => b"contact",
        Rule::Support => b"support",
        Rule::Cut(_) => b"cut",
    }
}

// Whether no two variants meet a rule by itself, as a word.
pub(crate) fn alone_name(alone: bool) -> &'static [u8]
    ensures { result.now ≡ alone_word_of alone }
{
    if alone { b"alone" } else { b"together" }
}

// The line that says how many layers are allowed.
#[tactic(auto, unfolding(crate::specs::Words::allowed_at, crate::specs::Words::allowed_of))]
pub(crate) fn allowed_line(line: &[u8]) -> Option<u32>
    ensures { result ≡ allowed_of line.now }
{
    let rest = skip_word(Some(line), b"allowed")?;
    let (allowed, rest) = number_word(rest, MOST_STACKED as u64)?;
    if is_end(rest) {
        Some(allowed as u32)
    } else {
        None
    }
}

// The numbers that all words are, each that of a variant.
fn numbers_within(alloc: Global, words: Option<&[u8]>, variants: u32) -> Result<Vec<u32>, LineStop>
    ensures { GivesLine (λ v. v.items) result (numbers_within_most variants (words_left words.entry)) }
{
    let mut numbers = Vec::new(alloc);
    let mut rest = words;
    while let Some((word, after)) = next_word(rest) {
        let Some(number) = number_within(word, variants) else {
            return Err(LineStop::Fault);
        };
        numbers.push(number)?;
        rest = after;
    }
    Ok(numbers)
}

// The numbers in the line of a stack of so many variants.
#[tactic(auto, unfolding(crate::specs::Words::stack_of))]
fn stack_line(alloc: Global, line: &[u8], variants: u32) -> Result<Vec<u32>, LineStop>
    ensures { GivesLine (λ v. v.items) result (stack_of variants line.now) }
{
    let Some(rest) = skip_word(Some(line), b"stack") else {
        return Err(LineStop::Fault);
    };
    let numbers = numbers_within(alloc, rest, variants)?;
    if numbers.len() <= MOST_STACKED {
        Ok(numbers)
    } else {
        Err(LineStop::Fault)
    }
}

// The first line of an answer on a stack of so many variants, under these rules.
#[tactic(auto, unfolding(crate::specs::Words::reply_of))]
pub(crate) fn reply_line(
    alloc: Global,
    line: &[u8],
    variants: u32,
    rules: &[Rule],
) -> Result<Reply, LineStop>
    ensures { GivesLine (λ r. r) result (reply_of variants rules.now line.now) }
{
    if line == b"unmet".as_slice() {
        return if rules.is_empty() {
            Err(LineStop::Fault)
        } else {
            Ok(Reply::Unmet)
        };
    }
    let numbers = stack_line(alloc, line, variants)?;
    Ok(Reply::Stack(VariantNumbers::new(numbers)))
}

fn alone_word(words: Option<&[u8]>) -> Option<(bool, Option<&[u8]>)>
    ensures { GivesOption (λ x. (x.0, words_left x.1)) result (word_by alone_of (words_left words.entry)) }
{
    let (word, rest) = next_word(words)?;
    if word == b"alone".as_slice() {
        Some((true, rest))
    } else if word == b"together".as_slice() {
        Some((false, rest))
    } else {
        None
    }
}

// The line of an unmet rule.
#[tactic(auto, unfolding(crate::specs::Words::rule_at, crate::specs::Words::rule_of))]
pub(crate) fn rule_line(line: &[u8], rule: Rule) -> Option<UnmetRule>
    ensures { result ≡ rule_of rule line.now }
{
    let rest = skip_word(Some(line), b"rule")?;
    let rest = skip_word(rest, rule_name(rule))?;
    let (alone, rest) = alone_word(rest)?;
    if is_end(rest) {
        Some(UnmetRule { rule, alone })
    } else {
        None
    }
}
