ghost use Rattle.std.specs.Prelude.{◌≡◌, ◌↔◌, IsTrue};

use contact_rules::Rule;
use std::marker::Model;

/// The numbers of variants, from 1, from the lowest layer up. Contracts see it as the list.
#[derive(Drop)]
pub struct VariantNumbers {
    numbers: Vec<u32>,
}

impl Model for VariantNumbers {
    ghost use Rattle.std.specs.Prelude.{ℕ, List};

    ghost Value = { List ℕ };

    ghost view = { λ a. a.numbers.items };
}

impl VariantNumbers {
    /// These numbers, the lowest layer first.
    pub fn new(numbers: Vec<u32>) -> VariantNumbers
        ensures { result ≡ numbers.items }
    {
        VariantNumbers { numbers }
    }

    /// The numbers, the lowest layer first.
    pub fn as_slice(&self) -> &[u32]
        ensures { result.now ≡ self.now }
    {
        self.numbers.as_slice()
    }
}

/// A rule that was asked for, and whether no two variants meet it by itself.
#[derive(Clone, Copy, PartialEq, Eq, Debug)]
pub struct UnmetRule {
    pub rule: Rule,
    pub alone: bool,
}

/// The rules that were asked for where they have no stack. Contracts see it as the list.
#[derive(Drop)]
pub struct UnmetRules {
    rules: Vec<UnmetRule>,
}

impl Model for UnmetRules {
    ghost use Rattle.std.specs.Prelude.{List};
    ghost use Rattle.stack_builder.specs.declared.lists.UnmetRule.{UnmetRule};

    ghost Value = { List UnmetRule };

    ghost view = { λ a. a.rules.items };
}

impl UnmetRules {
    /// These rules, in the order in which they are asked for.
    pub fn new(rules: Vec<UnmetRule>) -> UnmetRules
        ensures { result ≡ rules.items }
    {
        UnmetRules { rules }
    }

    /// The rules, in the order in which they are asked for.
    pub fn as_slice(&self) -> &[UnmetRule]
        ensures { result.now ≡ self.now }
    {
        self.rules.as_slice()
    }
}

/// The least stack, or the rules that were asked for where there is none.
#[derive(Drop)]
pub enum StackAnswer {
    Stack(VariantNumbers),
    Unmet(UnmetRules),
}

impl StackAnswer {
    /// Whether the two answers are the same.
    pub fn is_same(&self, other: &StackAnswer) -> bool
        ensures { IsTrue result ↔ (self.now ≡ other.now) }
    {
        match (self, other) {
            (StackAnswer::Stack(a), StackAnswer::Stack(b)) => same_numbers(
                a.as_slice(),
                b.as_slice(),
            ),
            (StackAnswer::Unmet(a), StackAnswer::Unmet(b)) => same_rules(
                a.as_slice(),
                b.as_slice(),
            ),
            (StackAnswer::Stack(_), StackAnswer::Unmet(_))
            | (StackAnswer::Unmet(_), StackAnswer::Stack(_)) => false,
        }
    }
}

fn same_numbers(a: &[u32], b: &[u32]) -> bool
    ensures { IsTrue result ↔ (a.now ≡ b.now) }
{
    a == b
}

fn same_rules(a: &[UnmetRule], b: &[UnmetRule]) -> bool
    ensures { IsTrue result ↔ (a.now ≡ b.now) }
{
    a == b
}
