ghost use Rattle.std.specs.Prelude.{◌≡◌, ◌<◌, ◌≤◌, ◌++◌, [], ◌∷◌, if◌then◌else◌, length, All, ◌↔◌, IfOk, OnOk, IsTrue};
ghost use Rattle.contact_rules.specs.Real.{IsGapOf};
ghost use Rattle.contact_rules.specs.Rules.{IsLawfulRule};
ghost use Rattle.stack_builder.specs.Pairs.{AreOf, AreVariants, Interlocks, IsAlone};
ghost use Rattle.stack_builder.specs.Answers.{rules_asked, AreMarked, IsStackAnswer, IsOnlyAnswer, IsListed};

use crate::forms::are_variants;
use crate::lists::{StackAnswer, UnmetRule, UnmetRules, VariantNumbers};
use crate::pairs::{interlocks, is_alone, table};
use crate::stacks::least_stack;
use contact_rules::Rule;
use layer_symmetry::Move;
use plan_geometry::{Inst, Layer};
use plan_memory::Memory;
use std::alloc::Global;

// Adds a rule where it is asked for.
fn add_asked(rules: &mut Vec<Rule>, asked: bool, rule: Rule) -> Result<(), Memory>
    ensures { OnOk result (rules.new.items ≡ rules.old.items ++ (if asked then rule ∷ [] else [])) }
{
    if asked {
        rules.push(rule)?;
    }
    Ok(())
}

/// The rules that are asked for, in order.
pub fn asked(alloc: Global, contact: u32, support: u32, cut: u32) -> Result<Vec<Rule>, Memory>
    requires contact { contact ≤ 100 }
    requires cut { cut ≤ 100 }
    ensures rules { IfOk result (λ r. r.items ≡ rules_asked contact support cut) }
    ensures lawful { IfOk result (λ r. All IsLawfulRule r.items) }
{
    let mut rules = Vec::new(alloc);
    add_asked(&mut rules, 0 < contact, Rule::Contact(contact))?;
    add_asked(&mut rules, support == 1, Rule::Support)?;
    add_asked(&mut rules, cut < 100, Rule::Cut(cut))?;
    Ok(rules)
}

// Whether no two of the variants meet the rule. Of all the variants of a layer the pairs with the first tell.
fn no_pair_meets(inst: Inst, gap: u32, rule: Rule, variants: &[(Move, Layer)], all: bool) -> bool
    requires gap { IsGapOf inst gap }
    requires rule { IsLawfulRule rule }
    requires variants { AreOf inst variants.now }
    requires few { length variants.now ≤ 8 }
    requires all { IsTrue all → AreVariants variants.now }
    ensures { IsTrue result ↔ IsAlone inst gap variants.now rule }
{
    if all {
        let one = [rule];
        !interlocks(inst, gap, one.as_slice(), variants)
    } else {
        is_alone(inst, gap, rule, variants)
    }
}

// The rules, each with whether no two variants meet it.
fn marked(
    alloc: Global,
    inst: Inst,
    gap: u32,
    rules: &[Rule],
    variants: &[(Move, Layer)],
    all: bool,
) -> Result<UnmetRules, Memory>
    requires gap { IsGapOf inst gap }
    requires rules { All IsLawfulRule rules.now }
    requires variants { AreOf inst variants.now }
    requires few { length variants.now ≤ 8 }
    requires all { IsTrue all → AreVariants variants.now }
    ensures { IfOk result (λ us. AreMarked inst gap variants.now rules.now us) }
{
    let mut unmet = Vec::new(alloc);
    for r in rules {
        let alone = no_pair_meets(inst, gap, *r, variants, all);
        unmet.push(UnmetRule { rule: *r, alone })?;
    }
    Ok(UnmetRules::new(unmet))
}

// Whether these are all the variants of a layer, and none of them upon the first meets all rules: so no two
// of them do.
fn first_refutes(
    alloc: Global,
    inst: Inst,
    gap: u32,
    rules: &[Rule],
    variants: &[(Move, Layer)],
) -> Result<bool, Memory>
    requires gap { IsGapOf inst gap }
    requires rules { All IsLawfulRule rules.now }
    requires variants { AreOf inst variants.now }
    ensures { IfOk result (λ b. IsTrue b
        ↔ (AreVariants variants.now × ¬ Interlocks inst gap rules.now variants.now)) }
{
    if interlocks(inst, gap, rules, variants) {
        return Ok(false);
    }
    are_variants(alloc, variants)
}

/// The least stack under these rules, or the rules marked.
pub fn stack_under(
    alloc: Global,
    inst: Inst,
    gap: u32,
    rules: &[Rule],
    variants: &[(Move, Layer)],
    n: u32,
) -> Result<StackAnswer, Memory>
    requires gap { IsGapOf inst gap }
    requires rules { All IsLawfulRule rules.now }
    requires variants { AreOf inst variants.now }
    requires few { length variants.now ≤ 8 }
    requires n { n ≤ 10000 }
    ensures answer { IfOk result (λ a. IsStackAnswer inst gap rules.now variants.now n a) }
    ensures only { IfOk result (λ a. IsOnlyAnswer inst gap rules.now variants.now n a) }
    ensures short { n ≤ 1 → 0 < length variants.now → IfOk result IsListed }
{
    if 2 <= n && first_refutes(alloc, inst, gap, rules, variants)? {
        let unmet = marked(alloc, inst, gap, rules, variants, true)?;
        return Ok(StackAnswer::Unmet(unmet));
    }
    let goes = table(alloc, inst, gap, rules, variants)?;
    match least_stack(alloc, goes.as_slice(), variants.len(), n)? {
        Some(numbers) => Ok(StackAnswer::Stack(VariantNumbers::new(numbers))),
        None => {
            let unmet = marked(alloc, inst, gap, rules, variants, false)?;
            Ok(StackAnswer::Unmet(unmet))
        }
    }
}
