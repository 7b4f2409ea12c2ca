ghost use Rattle.plan_geometry.specs.Layout.{CaseFits};
ghost use Rattle.minimum_size.specs.LeastSide.{IsLeastSide};
ghost use Rattle.minimum_size.specs.Reduced.{IsReduced, HasSmallArea};
ghost use Rattle.std.specs.Prelude.{◌≡◌, ◌≤◌};

use crate::least_sides::least_side;
use partitions::same_sides;
use plan_geometry::Inst;

// The instance with these case sides and the least sides that keep all partitions.
fn shrunk(inst: Inst, long: u32, short: u32) -> Inst
    requires fits { CaseFits inst }
    requires positive { 1 ≤ short }
    requires ordered { short ≤ long }
    requires no_longer { long ≤ inst.long }
    requires no_shorter { short ≤ inst.short }
    ensures long { result.long ≡ long }
    ensures short { result.short ≡ short }
    ensures x_side { IsLeastSide inst.l_side inst.long inst.short long short result.l_side }
    ensures y_side { IsLeastSide inst.w_side inst.long inst.short long short result.w_side }
    ensures x_no_greater { result.l_side ≤ inst.l_side }
    ensures y_no_greater { result.w_side ≤ inst.w_side }
{
    let l_side = least_side(inst.l_side, inst.long, inst.short, long, short);
    let w_side = least_side(inst.w_side, inst.long, inst.short, long, short);
    Inst {
        l_side,
        w_side,
        long,
        short,
    }
}

/// The reduced instance: of all that have the same sides and no greater number, the one of the least long
/// case side, then short case side, then x side, then y side.
pub fn reduce(inst: Inst) -> Inst
    requires { CaseFits inst }
    ensures reduced { IsReduced inst result }
    ensures fits { CaseFits result }
    ensures area { HasSmallArea inst result }
{
    for long in 1..inst.long + 1 {
        for short in 1..long.min(inst.short) + 1 {
            let small = shrunk(inst, long, short);
            if same_sides(inst, small) {
                return small;
            }
        }
    }
    unreachable!()
}
