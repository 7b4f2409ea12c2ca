ghost use Rattle.texts.specs.Puts.{Puts};
ghost use Rattle.stack_builder.specs.Orders.{rules_of};
ghost use Rattle.page_words.specs.Rules.{rule_words, further_rule, further_rules, rules_words};

use contact_rules::Rule;
use order_reader::Order;
use page_pieces::Piece::{Number, Text};
use page_pieces::put_pieces;
use plan_memory::Memory;
use stack_builder::order_rules;
use texts::put_text;

/// Appends what a rule asks for.
#[tactic(auto, unfolding(crate::specs::Rules::rule_words))]
pub fn put_rule(out: &mut Vec<u8>, rule: Rule) -> Result<(), Memory>
    ensures { Puts out.old.items out.new.items (rule_words rule) result }
{
    match rule {
        Rule::Contact(percent) => put_pieces(
            out,
            &[
                Text(b"contact of "),
                Number(percent as u64),
                Text(b" percent"),
            ],
        ),
        Rule::Support => put_text(out, b"support by two cases"),
        Rule::Cut(percent) => put_pieces(
            out,
            &[
                Text(b"no cut over "),
                Number(percent as u64),
                Text(b" percent"),
            ],
        ),
    }
}

// Appends a rule behind another one.
#[tactic(auto, using(texts::proofs::Growth::grows_after), unfolding(crate::specs::Rules::further_rule))]
fn put_further_rule(out: &mut Vec<u8>, rule: Rule) -> Result<(), Memory>
    ensures { Puts out.old.items out.new.items (further_rule rule) result }
{
    put_text(out, b"; ")?;
    put_rule(out, rule)
}

// Appends each rule behind another one.
#[tactic(auto, using(texts::proofs::Growth::grows_after))]
fn put_further_rules(out: &mut Vec<u8>, rules: &[Rule]) -> Result<(), Memory>
    ensures { Puts out.old.items out.new.items (further_rules rules.now) result }
{
    for rule in rules {
        put_further_rule(out, *rule)?;
    }
    Ok(())
}

// Appends these rules, or that there are none.
#[tactic(auto, using(texts::proofs::Growth::grows_after))]
fn put_rules(out: &mut Vec<u8>, rules: &[Rule]) -> Result<(), Memory>
    ensures { Puts out.old.items out.new.items (rules_words rules.now) result }
{
    match rules {
        [] => put_text(out, b"none"),
        [first, further @ ..] => {
            put_rule(out, *first)?;
            put_further_rules(out, further)
        }
    }
}

// Appends the rules that an order asks for, in the order contact, support, cut.
#[tactic(auto, using(texts::proofs::Growth::grows_after))]
pub(crate) fn put_rules_asked(out: &mut Vec<u8>, order: &Order) -> Result<(), Memory>
    ensures { Puts out.old.items out.new.items (rules_words (rules_of order.now)) result }
{
    let rules = order_rules(*out.allocator(), order)?;
    put_rules(out, rules.as_slice())
}
