ghost use Rattle.std.specs.Prelude.{◌≡◌, ◌*◌, ◌≤◌, ◌<◌, ◌↔◌, ℕ, IsTrue, IfOk};
ghost use Rattle.five_block.specs.FirstLevel.{IsFirstCut, ListsFirstCuts};

use plan_geometry::Inst;
use plan_memory::Memory;
use std::alloc::Global;

// Whether x is a multiple of the step.
fn is_multiple(x: u32, step: u32) -> bool
    requires some { 0 < step }
    ensures { IsTrue result ↔ (k : ℕ) × (x ≡ k * step) }
{
    x % step == 0
}

// Whether x is a number of long case sides from the one end, or from the other.
fn is_first_cut(inst: Inst, s: u32, x: u32) -> bool
    requires x_in { x ≤ s }
    ensures { IsTrue result ↔ IsFirstCut inst s x }
{
    if is_multiple(x, inst.long) {
        return true;
    }
    is_multiple(s - x, inst.long)
}

/// The cuts of a side, in rising order.
pub fn first_cuts(alloc: Global, inst: Inst, s: u32) -> Result<Vec<u32>, Memory>
    requires small { s ≤ 4000 }
    ensures { IfOk result (λ v. ListsFirstCuts inst s v.items) }
{
    let mut out = Vec::new(alloc);
    for x in 0..s + 1 {
        if is_first_cut(inst, s, x) {
            out.push(x)?;
        }
    }
    Ok(out)
}
