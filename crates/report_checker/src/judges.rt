ghost use Rattle.std.specs.Prelude.{◌≡◌, ◌≤◌, length, true, IfOk};
ghost use Rattle.order_reader.specs.Instances.{IsGivenOf};
ghost use Rattle.cert_text.specs.declared.forms.Form.TheVariants.{Two};
ghost use Rattle.plan_entries.specs.Entries.{variants_on};
ghost use Rattle.plan_soundness.specs.Sound.{KeepsSides, ListsLayers, ListsVariants};
ghost use Rattle.plan_entries.specs.Ranges.{plan_in_range, IsInRange};
ghost use Rattle.report_checker.specs.declared.verdicts.Verdict.TheVariants.{Yes};
ghost use Rattle.report_checker.specs.Verdicts.{IsPlanVerdict, IsVerdict, IsOnlyVerdict, HasSoundPlan};

use crate::checks::{keeps_sides, shows_bound, tells_allowed, tells_stack, tells_status};
use crate::layers::{first_difference, first_layer};
use crate::verdicts::{Clause, Verdict};
use layer_symmetry::{Move, variants};
use plan_entries::{Entry, Plan};
use plan_geometry::{Inst, Layer};
use plan_memory::Memory;
use std::alloc::Global;

// The clause fails, and there is no more to tell.
fn fails(clause: Clause) -> Verdict
    ensures { result ≡ Verdict.No clause 0 }
{
    Verdict::No { clause, item: 0 }
}

// The verdict on a plan whose sides are kept and whose listed layers are the variants of the first.
fn judge_listed(
    alloc: Global,
    plan: &Plan,
    given: Inst,
    turned: &[(Move, Layer)],
) -> Result<Verdict, Memory>
    requires range { plan_in_range Two plan.now ≡ true }
    requires kept { KeepsSides plan.now }
    requires layers { ListsLayers plan.now }
    requires given { IsGivenOf plan.now.order given }
    requires variants { ListsVariants plan.now }
    requires turned { variants_on given plan.now.layers ≡ turned.now }
    requires few { length turned.now ≤ 8 }
    ensures { IfOk result (λ v. IsPlanVerdict plan.now v) }
{
    if !shows_bound(alloc, plan)? {
        return Ok(fails(Clause::Bound));
    }
    if !tells_status(plan) {
        return Ok(fails(Clause::Status));
    }
    if !tells_allowed(plan) {
        return Ok(fails(Clause::Allowed));
    }
    if !tells_stack(alloc, plan, given, turned)? {
        return Ok(fails(Clause::Stack));
    }
    Ok(Verdict::Yes)
}

// The verdict on a plan. Each clause is judged only where those before it hold.
fn judge_plan(alloc: Global, plan: &Plan) -> Result<Verdict, Memory>
    requires { plan_in_range Two plan.now ≡ true }
    ensures { IfOk result (λ v. IsPlanVerdict plan.now v) }
{
    if !keeps_sides(plan) {
        return Ok(fails(Clause::Reduced));
    }
    let layers = plan.layers.as_slice();
    let first = match first_layer(alloc, &plan.order, plan.count, layers)? {
        Ok(first) => first,
        Err(item) => return Ok(Verdict::No {
            clause: Clause::Layout,
            item,
        }),
    };
    let given = first.inst();
    let turned = variants(alloc, &first)?;
    match first_difference(given, layers, turned.as_slice()) {
        Some(item) => Ok(Verdict::No {
            clause: Clause::Variants,
            item,
        }),
        None => judge_listed(alloc, plan, given, turned.as_slice()),
    }
}

/// The verdict on an entry: `Refused` exactly for one that says that its row was refused, `Yes` exactly for a plan that
/// is sound for its own order, and else the first clause that fails. Nothing that the entry says is trusted; it has
/// only to be within the ranges of a report.
pub fn judge(alloc: Global, entry: &Entry) -> Result<Verdict, Memory>
    requires { IsInRange Two entry.now }
    ensures verdict { IfOk result (λ v. IsVerdict entry.now v) }
    ensures only { IfOk result (λ v. IsOnlyVerdict entry.now v) }
    ensures sound { IfOk result (λ v. v ≡ Yes → HasSoundPlan entry.now) }
{
    match entry {
        Entry::Planned(plan) => judge_plan(alloc, plan),
        Entry::Refused { .. } => Ok(Verdict::Refused),
    }
}
