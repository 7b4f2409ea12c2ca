ghost use Rattle.std.specs.Prelude.{◌≡◌, ◌↔◌, ◌≤◌, length, IsTrue, IfOk};
ghost use Rattle.order_reader.specs.Instances.{IsGivenOf};
ghost use Rattle.bound_checker.specs.Accepts.{HasFewMarks};
ghost use Rattle.plan_entries.specs.Entries.{variants_on};
ghost use Rattle.plan_soundness.specs.Sound.{KeepsSides, ShowsBound, TellsStatus, TellsAllowed, TellsStack};

use bound_checker::check_bound;
use layer_symmetry::Move;
use partitions::same_sides;
use plan_entries::{Plan, Status};
use plan_geometry::{Inst, Layer};
use plan_memory::Memory;
use stack_builder::{layers_allowed, stack};
use std::alloc::Global;

/// Whether the planned instance has the same sides as the order's own.
pub fn keeps_sides(plan: &Plan) -> bool
    ensures { IsTrue result ↔ KeepsSides plan.now }
{
    same_sides(plan.order.inst(), plan.reduced)
}

/// Whether the certificate shows the bound.
pub fn shows_bound(alloc: Global, plan: &Plan) -> Result<bool, Memory>
    requires few { plan.now.bound ≤ 1000 }
    requires marks { HasFewMarks plan.now.cert }
    ensures { IfOk result (λ b. IsTrue b ↔ ShowsBound plan.now) }
{
    check_bound(
        alloc,
        plan.order.inst(),
        plan.reduced,
        &plan.cert,
        plan.bound,
    )
}

/// Whether `optimal` stands exactly where count and bound are equal.
pub fn tells_status(plan: &Plan) -> bool
    ensures { IsTrue result ↔ TellsStatus plan.now }
{
    match plan.status {
        Status::Optimal => plan.count == plan.bound,
        Status::StillOpen => plan.count != plan.bound,
    }
}

/// Whether as many layers are allowed as the order's height and weight allow.
pub fn tells_allowed(plan: &Plan) -> bool
    requires some { 1 ≤ plan.now.count }
    requires few { plan.now.count ≤ 1000 }
    ensures { IsTrue result ↔ TellsAllowed plan.now }
{
    plan.allowed == layers_allowed(&plan.order, plan.count)
}

/// Whether the stack is that of the variants, which the listed layers are.
pub fn tells_stack(
    alloc: Global,
    plan: &Plan,
    given: Inst,
    variants: &[(Move, Layer)],
) -> Result<bool, Memory>
    requires given { IsGivenOf plan.now.order given }
    requires listed { variants_on given plan.now.layers ≡ variants.now }
    requires few { length variants.now ≤ 8 }
    requires allowed { plan.now.allowed ≤ 10000 }
    ensures { IfOk result (λ b. IsTrue b ↔ TellsStack plan.now) }
{
    let answer = stack(alloc, &plan.order, variants, plan.allowed)?;
    Ok(plan.stack.is_same(&answer))
}
