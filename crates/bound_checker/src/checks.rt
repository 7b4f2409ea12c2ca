ghost use Rattle.std.specs.Prelude.{◌≤◌, ◌↔◌, IsTrue, IfOk, length};
ghost use Rattle.plan_geometry.specs.Layout.{CaseFits, IsBounded};
ghost use Rattle.bound_checker.specs.Accepts.{AcceptsWeighted, Accepts, HasFewMarks};

use cert_rules::refutes;
use partitions::same_sides;
use plan_geometry::{Inst, area_bound};
use plan_memory::Memory;
use std::alloc::Global;
use strip_cuts::accepts_strip;
use weightings::{Cert, Marks, Weighting};

// Whether the weighting belongs to the instance, gives each case some weight, and has in these marks one tree that
// refutes more than n cases.
fn accepts_weighted(
    alloc: Global,
    inst: Inst,
    weighting: &Weighting,
    tree: &Marks,
    n: u32,
) -> Result<bool, Memory>
    requires fits { CaseFits inst }
    requires few { length tree.now ≤ 500000 }
    ensures { IfOk result (λ b. IsTrue b ↔ AcceptsWeighted inst weighting.now n tree.now) }
{
    if !weighting.belongs(inst) {
        return Ok(false);
    }
    if weighting.least(inst) == 0 {
        return Ok(false);
    }
    refutes(alloc, inst, weighting, n, tree)
}

/// Whether the certificate shows that no layout of the given instance has more than n cases: the reduced instance has
/// the same sides, and there the weighting and its marks, or the cuts, do; or the given area alone does. Who wrote
/// the certificate does not matter, and no number in it is trusted.
pub fn check_bound(
    alloc: Global,
    given: Inst,
    reduced: Inst,
    cert: &Cert,
    n: u32,
) -> Result<bool, Memory>
    requires fits { CaseFits given }
    requires few { n ≤ 1000 }
    requires marks { HasFewMarks cert.now }
    ensures exact { IfOk result (λ b. IsTrue b ↔ Accepts given reduced cert.now n) }
    ensures bounds { IfOk result (λ b. IsTrue b → IsBounded given n) }
{
    if !same_sides(given, reduced) {
        return Ok(false);
    }
    match *cert {
        Cert::Weighted {
            ref weighting,
            ref tree,
        } => accepts_weighted(alloc, reduced, weighting, tree, n),
        Cert::Strip(ref strip) => Ok(accepts_strip(reduced, strip, n)),
        Cert::GivenArea => Ok(area_bound(given) <= n),
    }
}
