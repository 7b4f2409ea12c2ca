ghost use Rattle.std.specs.Prelude.{◌≡◌, ℕ, ◌+◌, ◌*◌, ◌<◌, ◌≤◌, ◌↔◌, length, All, IfOk, IsTrue};
ghost use Rattle.contact_rules.specs.Real.{IsGapOf};
ghost use Rattle.contact_rules.specs.Rules.{Meets, IsLawfulRule};
ghost use Rattle.stack_builder.specs.Goes.{GoesIn};
ghost use Rattle.stack_builder.specs.Pairs.{AreOf, spots_of, GoTogether, Interlocks, IsAlone};

use contact_rules::{Rule, meets};
use layer_symmetry::Move;
use plan_geometry::{Inst, Layer};
use plan_memory::Memory;
use std::alloc::Global;

// Whether two of the variants, the first of them below, meet a rule; their numbers are one more.
fn pair_meets(
    inst: Inst,
    gap: u32,
    rule: Rule,
    variants: &[(Move, Layer)],
    v: usize,
    w: usize,
) -> bool
    requires gap { IsGapOf inst gap }
    requires rule { IsLawfulRule rule }
    requires variants { AreOf inst variants.now }
    requires v { v < length variants.now }
    requires w { w < length variants.now }
    ensures { IsTrue result ↔ Meets inst gap rule (spots_of variants.now (v + 1)) (spots_of variants.now (w + 1)) }
{
    meets(rule, &variants[v].1, &variants[w].1, gap)
}

// Whether they meet all rules.
fn pair_goes(
    inst: Inst,
    gap: u32,
    rules: &[Rule],
    variants: &[(Move, Layer)],
    v: usize,
    w: usize,
) -> bool
    requires gap { IsGapOf inst gap }
    requires rules { All IsLawfulRule rules.now }
    requires variants { AreOf inst variants.now }
    requires v { v < length variants.now }
    requires w { w < length variants.now }
    ensures { IsTrue result ↔ GoTogether inst gap rules.now variants.now (v + 1) (w + 1) }
{
    for r in rules {
        if !pair_meets(inst, gap, *r, variants, v, w) {
            return false;
        }
    }
    true
}

/// The table of which variants go upon which.
pub fn table(
    alloc: Global,
    inst: Inst,
    gap: u32,
    rules: &[Rule],
    variants: &[(Move, Layer)],
) -> Result<Vec<bool>, Memory>
    requires gap { IsGapOf inst gap }
    requires rules { All IsLawfulRule rules.now }
    requires variants { AreOf inst variants.now }
    requires few { length variants.now ≤ 8 }
    ensures len { IfOk result (λ t. length t.items ≡ length variants.now * length variants.now) }
    ensures entries { IfOk result (λ t. (v w : ℕ) → 1 ≤ v → v ≤ length variants.now → 1 ≤ w → w ≤ length variants.now
        → GoesIn t.items (length variants.now) v w ↔ GoTogether inst gap rules.now variants.now v w) }
{
    let count = variants.len();
    let mut table = Vec::new(alloc);
    for k in 0..count * count {
        let goes = pair_goes(inst, gap, rules, variants, k / count, k % count);
        table.push(goes)?;
    }
    Ok(table)
}

/// Whether some of the variants, the first itself among them, lies upon the first so that the two meet every
/// rule. The variants are of the instance, each number of which contains the gap. Of all the variants of a
/// layer two or more can be stacked exactly where this is so.
pub fn interlocks(inst: Inst, gap: u32, rules: &[Rule], variants: &[(Move, Layer)]) -> bool
    requires gap { IsGapOf inst gap }
    requires rules { All IsLawfulRule rules.now }
    requires variants { AreOf inst variants.now }
    ensures { IsTrue result ↔ Interlocks inst gap rules.now variants.now }
{
    for k in 0..variants.len() {
        if pair_goes(inst, gap, rules, variants, 0, k) {
            return true;
        }
    }
    false
}

/// Whether no two of the variants meet the rule.
pub fn is_alone(inst: Inst, gap: u32, rule: Rule, variants: &[(Move, Layer)]) -> bool
    requires gap { IsGapOf inst gap }
    requires rule { IsLawfulRule rule }
    requires variants { AreOf inst variants.now }
    requires few { length variants.now ≤ 8 }
    ensures { IsTrue result ↔ IsAlone inst gap variants.now rule }
{
    let count = variants.len();
    for k in 0..count * count {
        if pair_meets(inst, gap, rule, variants, k / count, k % count) {
            return false;
        }
    }
    true
}
