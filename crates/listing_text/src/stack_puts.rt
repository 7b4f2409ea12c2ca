ghost use Rattle.std.specs.Prelude.{◌≡◌, ◌++◌, ◌∷◌, [], map, decimal};
ghost use Rattle.texts.specs.Lines.{ended, spaced, text_of};
ghost use Rattle.texts.specs.Puts.{Puts};
ghost use Rattle.listing_text.specs.Text.{rule_words, rule_lines, stack_words, stack_lines, answer_text};

use crate::stack_words::{alone_name, rule_name};
use plan_memory::Memory;
use stack_builder::{StackAnswer, UnmetRule};
use texts::{put_named, put_text};

// Appends numbers, each behind a space.
#[tactic(auto, using(texts::proofs::Growth::grows_after))]
fn put_numbers(out: &mut Vec<u8>, numbers: &[u32]) -> Result<(), Memory>
    ensures { Puts out.old.items out.new.items (spaced ([] ∷ map decimal numbers.now)) result }
{
    for number in numbers {
        put_named(out, b" ", u64::from(*number))?;
    }
    Ok(())
}

// Appends the line of a stack.
#[tactic(auto, using(texts::proofs::Growth::grows_after))]
fn put_stack(out: &mut Vec<u8>, numbers: &[u32]) -> Result<(), Memory>
    ensures { Puts out.old.items out.new.items (ended (spaced (stack_words numbers.now))) result }
{
    put_text(out, b"stack")?;
    put_numbers(out, numbers)?;
    put_text(out, b"\n")
}

// Appends the line of an unmet rule.
#[tactic(auto, using(texts::proofs::Growth::grows_after))]
fn put_rule(out: &mut Vec<u8>, unmet: UnmetRule) -> Result<(), Memory>
    ensures { Puts out.old.items out.new.items (ended (spaced (rule_words unmet))) result }
{
    put_text(out, b"rule ")?;
    put_text(out, rule_name(unmet.rule))?;
    put_text(out, b" ")?;
    put_text(out, alone_name(unmet.alone))?;
    put_text(out, b"\n")
}

// Appends a line for each unmet rule.
#[tactic(auto, using(texts::proofs::Growth::grows_after))]
fn put_rules(out: &mut Vec<u8>, unmet: &[UnmetRule]) -> Result<(), Memory>
    ensures { Puts out.old.items out.new.items (text_of (rule_lines unmet.now)) result }
{
    for told in unmet {
        put_rule(out, *told)?;
    }
    Ok(())
}

// Appends the lines of unmet rules, and the line before them.
#[tactic(auto, using(texts::proofs::Growth::grows_after))]
fn put_unmet(out: &mut Vec<u8>, unmet: &[UnmetRule]) -> Result<(), Memory>
    ensures { Puts out.old.items out.new.items (text_of (stack_lines (StackAnswer.Unmet unmet.now))) result }
{
    put_text(out, b"unmet\n")?;
    put_rules(out, unmet)
}

// Appends the lines of an answer on the stack.
fn put_reply(out: &mut Vec<u8>, stack: &StackAnswer) -> Result<(), Memory>
    ensures { Puts out.old.items out.new.items (text_of (stack_lines stack.now)) result }
{
    match stack {
        StackAnswer::Stack(numbers) => put_stack(out, numbers.as_slice()),
        StackAnswer::Unmet(unmet) => put_unmet(out, unmet.as_slice()),
    }
}

/// Appends the text of how many layers are allowed and of the answer on the stack. After `Memory` the old text
/// still stands in front.
#[tactic(auto, using(texts::proofs::Growth::grows_after))]
pub fn put_answer(out: &mut Vec<u8>, allowed: u32, stack: &StackAnswer) -> Result<(), Memory>
    ensures { Puts out.old.items out.new.items (answer_text (allowed, stack.now)) result }
{
    put_named(out, b"allowed ", u64::from(allowed))?;
    put_text(out, b"\n")?;
    put_reply(out, stack)
}
