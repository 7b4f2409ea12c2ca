ghost use Rattle.std.specs.Prelude.{◌+◌, ◌≤◌};

use crate::grids::Grid;
use plan_geometry::{Axis, Inst, side_along};

/// A move along an axis: what is at `from` comes to `to`.
#[derive(Clone, Copy, PartialEq, Eq, Debug)]
pub struct Shift {
    from: u32,
    to: u32,
    ghost small: { to ≤ 2000 },
}

impl Shift {
    /// Where a place at or after `from` comes to.
    pub fn moved(&self, place: u32) -> u32
        requires { place ≤ 8000 }
        ensures { result ≤ 10000 }
    {
        place.saturating_sub(self.from) + self.to
    }
}

/// The move along the axis after which the grids have equal margins on both sides, rounded down.
pub fn centring(axis: Axis, inst: Inst, grids: &[Grid]) -> Shift {
    let side = side_along(axis, inst);
    let mut low = side;
    let mut high = 0;
    for grid in grids {
        if !grid.is_empty() {
            low = low.min(grid.start(axis));
            high = high.max(grid.finish(axis, inst));
        }
    }
    Shift {
        from: low,
        to: side.saturating_sub(high.saturating_sub(low)) / 2,
    }
}
