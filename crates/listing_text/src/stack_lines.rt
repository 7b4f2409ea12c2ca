ghost use Rattle.std.specs.Prelude.{◌≡◌, ◌≤◌, ◌∷◌, ◌++◌, [], if◌then◌else◌, IfOk, OnOk};
ghost use Rattle.texts.specs.Grammar.{first_by};
ghost use Rattle.texts.specs.Gives.{Gives, GivesOrLeaves};
ghost use Rattle.texts.specs.Lines.{whole_lines, unfinished};
ghost use Rattle.stack_builder.specs.Orders.{rules_of};
ghost use Rattle.listing_text.specs.Words.{allowed_of, reply_of, rule_of};
ghost use Rattle.listing_text.specs.Lines.{unmet_from, stack_behind, stack_from, answer_at};

use crate::stack_words::{Reply, allowed_line, reply_line, rule_line};
use contact_rules::Rule;
use order_reader::{Field, Order};
use plan_memory::Memory;
use stack_builder::{StackAnswer, UnmetRule, UnmetRules};
use std::alloc::Global;
use texts::{LineStop, LinesLeft, Stop, count_lines, next_line};

fn allowed_at(bytes: &[u8]) -> Result<(u32, &[u8]), LinesLeft>
    ensures read { GivesOrLeaves (λ x. (x.0, whole_lines x.1.now)) result (first_by allowed_of (whole_lines bytes.now)) }
    ensures rest { IfOk result (λ x. unfinished x.1.now ≡ unfinished bytes.now) }
{
    let Some((line, rest)) = next_line(bytes) else {
        return Err(LinesLeft { count: 0 });
    };
    match allowed_line(line) {
        Some(allowed) => Ok((allowed, rest)),
        None => Err(LinesLeft {
            count: count_lines(bytes),
        }),
    }
}

fn reply_at<'a>(
    alloc: Global,
    variants: u32,
    rules: &[Rule],
    bytes: &'a [u8],
) -> Result<(Reply, &'a [u8]), Stop>
    ensures read { Gives (λ x. (x.0, whole_lines x.1.now)) result (first_by (reply_of variants rules.now) (whole_lines bytes.now)) }
    ensures rest { IfOk result (λ x. unfinished x.1.now ≡ unfinished bytes.now) }
{
    let Some((line, rest)) = next_line(bytes) else {
        return Err(Stop::Left(0));
    };
    match reply_line(alloc, line, variants, rules) {
        Ok(reply) => Ok((reply, rest)),
        Err(LineStop::Memory) => Err(Stop::Memory),
        Err(LineStop::Fault) => Err(Stop::Left(count_lines(bytes))),
    }
}

fn rule_at(rule: Rule, bytes: &[u8]) -> Result<(UnmetRule, &[u8]), LinesLeft>
    ensures read { GivesOrLeaves (λ x. (x.0, whole_lines x.1.now)) result (first_by (rule_of rule) (whole_lines bytes.now)) }
    ensures rest { IfOk result (λ x. unfinished x.1.now ≡ unfinished bytes.now) }
{
    let Some((line, rest)) = next_line(bytes) else {
        return Err(LinesLeft { count: 0 });
    };
    match rule_line(line, rule) {
        Some(unmet) => Ok((unmet, rest)),
        None => Err(LinesLeft {
            count: count_lines(bytes),
        }),
    }
}

fn unmet_at<'a>(
    alloc: Global,
    rules: &[Rule],
    bytes: &'a [u8],
) -> Result<(Vec<UnmetRule>, &'a [u8]), Stop>
    ensures read { Gives (λ x. (x.0.items, whole_lines x.1.now)) result (unmet_from rules.now (whole_lines bytes.now)) }
    ensures rest { IfOk result (λ x. unfinished x.1.now ≡ unfinished bytes.now) }
{
    let mut unmet = Vec::new(alloc);
    let mut rest = bytes;
    for rule in rules {
        let (told, after) = rule_at(*rule, rest)?;
        unmet.push(told)?;
        rest = after;
    }
    Ok((unmet, rest))
}

// The answer on a stack of so many variants, under these rules.
#[tactic(auto, unfolding(crate::specs::Lines::stack_from, crate::specs::Lines::stack_behind))]
fn stack_at<'a>(
    alloc: Global,
    variants: u32,
    rules: &[Rule],
    bytes: &'a [u8],
) -> Result<(StackAnswer, &'a [u8]), Stop>
    ensures read { Gives (λ x. (x.0, whole_lines x.1.now)) result (stack_from variants rules.now (whole_lines bytes.now)) }
    ensures rest { IfOk result (λ x. unfinished x.1.now ≡ unfinished bytes.now) }
{
    let (reply, rest) = reply_at(alloc, variants, rules, bytes)?;
    match reply {
        Reply::Stack(numbers) => Ok((StackAnswer::Stack(numbers), rest)),
        Reply::Unmet => {
            let (unmet, rest) = unmet_at(alloc, rules, rest)?;
            Ok((StackAnswer::Unmet(UnmetRules::new(unmet)), rest))
        }
    }
}

// Adds a rule where it is asked for.
fn add_asked(rules: &mut Vec<Rule>, is_asked: bool, rule: Rule) -> Result<(), Memory>
    ensures { OnOk result (rules.new.items ≡ rules.old.items ++ (if is_asked then rule ∷ [] else [])) }
{
    if is_asked {
        rules.push(rule)?;
    }
    Ok(())
}

// The rules that an order asks for, in order.
fn asked(alloc: Global, order: &Order) -> Result<Vec<Rule>, Memory>
    ensures { IfOk result (λ r. r.items ≡ rules_of order.now) }
{
    let contact = order.number(Field::Contact);
    let cut = order.number(Field::Cut);
    let mut rules = Vec::new(alloc);
    add_asked(&mut rules, 0 < contact, Rule::Contact(contact))?;
    add_asked(&mut rules, order.number(Field::Support) == 1, Rule::Support)?;
    add_asked(&mut rules, cut < 100, Rule::Cut(cut))?;
    Ok(rules)
}

/// How many layers are allowed and the answer on the stack, whose text is at the front, and the bytes behind it;
/// or how many lines were left at the first fault. The stack is one of so many variants; where it is unmet, the
/// rules are those that the order asks for.
#[tactic(auto, unfolding(crate::specs::Lines::answer_at))]
pub fn answer_from<'a>(
    alloc: Global,
    bytes: &'a [u8],
    order: &Order,
    variants: usize,
) -> Result<((u32, StackAnswer), &'a [u8]), Stop>
    requires { variants ≤ 8 }
    ensures read { Gives (λ x. (x.0, whole_lines x.1.now)) result (answer_at order.now variants (whole_lines bytes.now)) }
    ensures rest { IfOk result (λ x. unfinished x.1.now ≡ unfinished bytes.now) }
{
    let (allowed, rest) = allowed_at(bytes)?;
    let rules = asked(alloc, order)?;
    let (stack, rest) = stack_at(alloc, variants as u32, rules.as_slice(), rest)?;
    Ok(((allowed, stack), rest))
}
