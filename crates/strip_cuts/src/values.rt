ghost use Rattle.std.specs.Prelude.{◌≤◌, ◌^◌};
ghost use Rattle.strip_cuts.specs.Cuts.{IsGreatest};

use partitions::most_short;
use plan_geometry::{Axis, Inst, side_along};

/// The greatest a * i + b * j over the partitions of the pallet's side along the axis into i long and j short case
/// sides. Beside each number of long sides the most short ones count most.
pub fn greatest(inst: Inst, axis: Axis, a: u32, b: u32) -> u64
    ensures value { IsGreatest axis inst a b result }
    ensures small { result ≤ 2 ^ 45 }
{
    let side = side_along(axis, inst);
    let mut best: u64 = 0;
    for i in 0..side / inst.long + 1 {
        let j = most_short(side, inst.long, inst.short, i);
        best = best.max(u64::from(a) * u64::from(i) + u64::from(b) * u64::from(j));
    }
    best
}
