ghost use Rattle.std.specs.Prelude.{◌≡◌, ◌<◌, ◌≤◌, length, All, IfOk};
ghost use Rattle.order_reader.specs.Instances.{IsGivenOf};
ghost use Rattle.contact_rules.specs.Rules.{IsLawfulRule};
ghost use Rattle.stack_builder.specs.Answers.{IsListed};
ghost use Rattle.stack_builder.specs.Orders.{allowed_of, rules_of, IsStackOf, IsOnlyStackOf};

use crate::answers::{asked, stack_under};
use crate::lists::StackAnswer;
use contact_rules::Rule;
use layer_symmetry::Move;
use order_reader::{Field, Order};
use plan_geometry::Layer;
use plan_memory::Memory;
use std::alloc::Global;

/// How many layers of `count` cases the order's greatest height and greatest weight allow. The count is
/// from 1 to 1,000.
pub fn layers_allowed(order: &Order, count: u32) -> u32
    requires some { 1 ≤ count }
    requires few { count ≤ 1000 }
    ensures value { result ≡ allowed_of order.now count }
    ensures small { result ≤ 10000 }
{
    let by_height = order.number(Field::MaxHeight) / order.number(Field::CaseZ);
    let layer_weight = u64::from(count) * u64::from(order.number(Field::Weight));
    let by_weight = u64::from(order.number(Field::MaxWeight)) / layer_weight;
    u64::from(by_height).min(by_weight) as u32
}

/// The rules that the order asks for, in the order contact, support, cut.
pub fn order_rules(alloc: Global, order: &Order) -> Result<Vec<Rule>, Memory>
    ensures rules { IfOk result (λ r. r.items ≡ rules_of order.now) }
    ensures lawful { IfOk result (λ r. All IsLawfulRule r.items) }
{
    asked(
        alloc,
        order.number(Field::Contact),
        order.number(Field::Support),
        order.number(Field::Cut),
    )
}

/// The lexicographically least list of n numbers of variants, from 1, in which each two neighbours, the
/// lower first, meet every rule that the order asks for. Where there is none, those rules in the order
/// contact, support, cut, each marked where no two variants, a variant with itself included, meet it by
/// itself. There are at most 8 variants, each of the order's instance.
pub fn stack(
    alloc: Global,
    order: &Order,
    variants: &[(Move, Layer)],
    n: u32,
) -> Result<StackAnswer, Memory>
    requires variants { All (λ v. IsGivenOf order.now v.1.inst) variants.now }
    requires few { length variants.now ≤ 8 }
    requires n { n ≤ 10000 }
    ensures stack { IfOk result (λ a. IsStackOf order.now variants.now n a) }
    ensures only { IfOk result (λ a. IsOnlyStackOf order.now variants.now n a) }
    ensures short { n ≤ 1 → 0 < length variants.now → IfOk result IsListed }
{
    let rules = order_rules(alloc, order)?;
    let answer = stack_under(
        alloc,
        order.inst(),
        order.gap(),
        rules.as_slice(),
        variants,
        n,
    )?;
    Ok(answer)
}
