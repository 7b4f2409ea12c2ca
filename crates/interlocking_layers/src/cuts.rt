ghost use Rattle.std.specs.Prelude.{◌≤◌, All, IfOk};

use plan_geometry::Inst;
use plan_memory::Memory;
use std::alloc::Global;

// Whether the place is a number of long or of short case sides away from the one end, or from the other.
fn is_cut(inst: Inst, side: u32, place: u32) -> bool
    requires { place ≤ side }
{
    place % inst.long == 0
        || place % inst.short == 0
        || (side - place) % inst.long == 0
        || (side - place) % inst.short == 0
}

/// The places at which blocks may end along a side of at most 4,000, in rising order: those that are a number
/// of long or of short case sides away from one of its ends.
pub fn cuts(alloc: Global, inst: Inst, side: u32) -> Result<Vec<u32>, Memory>
    requires { side ≤ 4000 }
    ensures { IfOk result (λ v. All (λ x. x ≤ side) v.items) }
{
    let mut cuts = Vec::new(alloc);
    for place in 0..side + 1 {
        if is_cut(inst, side, place) {
            cuts.push(place)?;
        }
    }
    Ok(cuts)
}
