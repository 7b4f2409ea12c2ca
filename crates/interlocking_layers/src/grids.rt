ghost use Rattle.std.specs.Prelude.{◌≤◌, ◌*◌};
ghost use Rattle.interlocking_layers.specs.Small.{IsSmallGrid};

use crate::spans::Span;
use crate::splits::Split;
use plan_geometry::{Axis, Inst, Way, extent_along};

/// A grid of cases of one way, and its corner of least x and y.
#[derive(Clone, Copy, PartialEq, Eq, Debug)]
pub struct Grid {
    pub x: u32,
    pub y: u32,
    pub columns: u32,
    pub rows: u32,
    pub way: Way,
    pub ghost small: { IsSmallGrid x y columns rows },
}

impl Grid {
    /// The better grid of a block: that of lying cases, or that of standing ones where it has more.
    fn better(inst: Inst, x: &Span, y: &Span) -> Grid {
        let (way, columns, rows) = if x.shorts * y.longs <= x.longs * y.shorts {
            (Way::Lying, x.longs, y.shorts)
        } else {
            (Way::Standing, x.shorts, y.longs)
        };
        Grid {
            x: x.first(columns * extent_along(Axis::X, inst, way)),
            y: y.first(rows * extent_along(Axis::Y, inst, way)),
            columns,
            rows,
            way,
        }
    }

    /// Where the grid begins along an axis.
    pub fn start(&self, axis: Axis) -> u32 {
        match axis {
            Axis::X => self.x,
            Axis::Y => self.y,
        }
    }

    /// Where the grid ends along an axis.
    pub fn finish(&self, axis: Axis, inst: Inst) -> u32 {
        let extent = extent_along(axis, inst, self.way);
        match axis {
            Axis::X => self.x + self.columns * extent,
            Axis::Y => self.y + self.rows * extent,
        }
    }

    /// Whether no case stands in it.
    pub fn is_empty(&self) -> bool {
        self.columns == 0 || self.rows == 0
    }
}

// How many cases the better grid of a block has.
fn better_count(x: &Span, y: &Span) -> u32
    ensures { result ≤ 16000000 }
{
    (x.longs * y.shorts).max(x.shorts * y.longs)
}

/// How many cases the better grids of the five blocks have that the splits of the two sides make.
pub fn cases_of(x: &Split, y: &Split) -> u32 {
    better_count(&x.below_high, &y.below_low)
        + better_count(&x.above_high, &y.below_high)
        + better_count(&x.below_low, &y.above_low)
        + better_count(&x.above_low, &y.above_high)
        + better_count(&x.between, &y.between)
}

/// The better grids of those blocks: lower left, lower right, upper left, upper right and the centre
/// (Bischoff and Dowsland 1982), the outer ones towards the pallet's middle.
pub fn grids_of(inst: Inst, x: &Split, y: &Split) -> [Grid; 5] {
    [
        Grid::better(inst, &x.below_high, &y.below_low),
        Grid::better(inst, &x.above_high, &y.below_high),
        Grid::better(inst, &x.below_low, &y.above_low),
        Grid::better(inst, &x.above_low, &y.above_high),
        Grid::better(inst, &x.between, &y.between),
    ]
}
