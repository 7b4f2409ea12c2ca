ghost use Rattle.std.specs.Prelude.{IfOk, IfSome};
ghost use Rattle.interlocking_layers.specs.Wanted.{IsLawfulSearch, IsFor};

use crate::acceptance::accepted;
use crate::drawing::drawn;
use crate::effort::Effort;
use crate::footprints::may_interlock;
use crate::grids::{cases_of, grids_of};
use crate::splits::{Split, Sum, splits};
use crate::wanted::Wanted;
use plan_geometry::Layer;
use plan_memory::Memory;
use std::alloc::Global;

// What the two cuts of either side add up to in one pass over the five blocks.
#[derive(Clone, Copy, PartialEq, Eq, Debug)]
struct Pass {
    x: Sum,
    y: Sum,
}

const PASSES: [Pass; 3] = [
    Pass {
        x: Sum::Whole,
        y: Sum::AtMostWhole,
    },
    Pass {
        x: Sum::LessThanWhole,
        y: Sum::Whole,
    },
    Pass {
        x: Sum::LessThanWhole,
        y: Sum::NotWhole,
    },
];

// The layer of the better grids of five blocks, if it is wanted.
fn tested(alloc: Global, wanted: &Wanted<'_>, x: &Split, y: &Split) -> Result<Option<Layer>, Memory>
    requires { IsLawfulSearch wanted.now }
    ensures { IfOk result (λ r. IfSome r (IsFor wanted.now)) }
{
    let spots = drawn(alloc, wanted.inst, &grids_of(wanted.inst, x, y))?;
    if may_interlock(alloc, wanted, spots.as_slice())? {
        accepted(alloc, wanted, spots)
    } else {
        Ok(None)
    }
}

// The first wanted layer with this split of the side along x and one of these of the side along y.
fn with_split(
    alloc: Global,
    wanted: &Wanted<'_>,
    effort: &mut Effort,
    x: &Split,
    ys: &[Split],
) -> Result<Option<Layer>, Memory>
    requires { IsLawfulSearch wanted.now }
    ensures { IfOk result (λ r. IfSome r (IsFor wanted.now)) }
{
    for y in ys {
        if effort.is_spent() {
            return Ok(None);
        }
        effort.look();
        if cases_of(x, y) == wanted.count {
            effort.test();
            if let Some(layer) = tested(alloc, wanted, x, y)? {
                return Ok(Some(layer));
            }
        }
    }
    Ok(None)
}

// The first wanted layer of a pass.
fn in_pass(
    alloc: Global,
    wanted: &Wanted<'_>,
    effort: &mut Effort,
    pass: Pass,
) -> Result<Option<Layer>, Memory>
    requires { IsLawfulSearch wanted.now }
    ensures { IfOk result (λ r. IfSome r (IsFor wanted.now)) }
{
    if effort.is_spent() {
        return Ok(None);
    }
    let xs = splits(alloc, wanted.inst, wanted.inst.l_side, pass.x)?;
    let ys = splits(alloc, wanted.inst, wanted.inst.w_side, pass.y)?;
    for x in xs.as_slice() {
        if let Some(layer) = with_split(alloc, wanted, effort, x, ys.as_slice())? {
            return Ok(Some(layer));
        }
    }
    Ok(None)
}

/// The first wanted layer of the three passes over the five blocks: first where the cuts of the side along x
/// add up to that side, and those of the side along y to at most theirs; then where those along y alone add
/// up to their side; then where neither do.
pub fn in_passes(
    alloc: Global,
    wanted: &Wanted<'_>,
    effort: &mut Effort,
) -> Result<Option<Layer>, Memory>
    requires { IsLawfulSearch wanted.now }
    ensures { IfOk result (λ r. IfSome r (IsFor wanted.now)) }
{
    for pass in PASSES {
        if let Some(layer) = in_pass(alloc, wanted, effort, pass)? {
            return Ok(Some(layer));
        }
    }
    Ok(None)
}
