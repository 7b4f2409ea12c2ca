ghost use Rattle.minimum_size.specs.LeastSide.{IsLeastSide};
ghost use Rattle.std.specs.Prelude.{◌≤◌};

use partitions::most_short;

/// The least side on which smaller case sides keep all partitions of a side.
pub fn least_side(side: u32, long: u32, short: u32, new_long: u32, new_short: u32) -> u32
    requires limited { side ≤ 4000 }
    requires positive { 1 ≤ short }
    requires ordered { short ≤ long }
    requires no_longer { new_long ≤ long }
    requires no_shorter { new_short ≤ short }
    ensures least { IsLeastSide side long short new_long new_short result }
    ensures no_greater { result ≤ side }
{
    let mut least = 0;
    for i in 0..side / long + 1 {
        let total = i * new_long + most_short(side, long, short, i) * new_short;
        if total > least {
            least = total;
        }
    }
    least
}
