ghost use Rattle.std.specs.Prelude.{◌≡◌, ◌↔◌, IsTrue};
ghost use Rattle.block_tree.specs.Regions as spec;
ghost use Rattle.block_tree.specs.Parts.{IsCut, AreFiveCuts};

/// The L-region of the points (x, y) with x < big_x and y < big_y, except those with both x >= small_x
/// and y >= small_y. It is a rectangle where small_x = big_x or small_y = big_y, then of sides big_x and
/// big_y; else where small_x = 0, of sides big_x and small_y; else where small_y = 0, of sides small_x and
/// big_y.
#[derive(Clone, Copy, PartialEq, Eq, Debug)]
pub struct Region {
    pub big_x: u32,
    pub big_y: u32,
    pub small_x: u32,
    pub small_y: u32,
}

/// A cut of a region into two L-regions (after Lins, Lins and Morabito 2003): K1 of a rectangle, K2 to K4
/// of any other region.
#[derive(Clone, Copy, PartialEq, Eq, Debug)]
pub enum Cut {
    /// x1 <= x2 and y1 within the sides; the second part is turned by a half turn.
    K1 { x1: u32, x2: u32, y1: u32 },
    /// c <= small_x, h <= small_y; the second part is moved by (c, h).
    K2 { c: u32, h: u32 },
    /// small_x <= d <= big_x, h <= small_y; the second part is mirrored in x.
    K3 { d: u32, h: u32 },
    /// c <= small_x, small_y <= e <= big_y; the second part is mirrored in y.
    K4 { c: u32, e: u32 },
}

/// Whether the region is a rectangle.
pub fn is_rectangle(r: Region) -> bool
    ensures { result ≡ spec.is_rectangle r }
{
    r.small_x == r.big_x || r.small_y == r.big_y || r.small_x == 0 || r.small_y == 0
}

/// The side along x of a region that is a rectangle.
pub fn side_x(r: Region) -> u32
    ensures { result ≡ spec.side_x r }
{
    if r.small_x == r.big_x || r.small_y == r.big_y || r.small_x == 0 {
        r.big_x
    } else {
        r.small_x
    }
}

/// The side along y of a region that is a rectangle.
pub fn side_y(r: Region) -> u32
    ensures { result ≡ spec.side_y r }
{
    if r.small_x == r.big_x || r.small_y == r.big_y {
        r.big_y
    } else if r.small_x == 0 {
        r.small_y
    } else {
        r.big_y
    }
}

/// The region that is the rectangle of these sides.
pub fn rectangle(a: u32, b: u32) -> Region
    ensures { result ≡ spec.rectangle a b }
{
    Region {
        big_x: a,
        big_y: b,
        small_x: a,
        small_y: b,
    }
}

/// Whether the small numbers are at most the great ones.
pub fn is_ordered(r: Region) -> bool
    ensures { IsTrue result ↔ spec.IsOrdered r }
{
    r.small_x <= r.big_x && r.small_y <= r.big_y
}

/// Whether each number of the region is at most that of the part.
pub fn is_within(r: Region, part: Region) -> bool
    ensures { IsTrue result ↔ spec.Within r part }
{
    r.big_x <= part.big_x
        && r.big_y <= part.big_y
        && r.small_x <= part.small_x
        && r.small_y <= part.small_y
}

/// Whether these are cuts of a rectangle into five blocks.
pub fn are_five_cuts(r: Region, x1: u32, x2: u32, y1: u32, y2: u32) -> bool
    ensures { IsTrue result ↔ AreFiveCuts r x1 x2 y1 y2 }
{
    is_rectangle(r) && x1 <= x2 && x2 <= side_x(r) && y1 <= y2 && y2 <= side_y(r)
}

/// Whether the cut meets its condition.
pub fn is_cut(r: Region, cut: Cut) -> bool
    ensures { IsTrue result ↔ IsCut r cut }
{
    match cut {
        Cut::K1 { x1, x2, y1 } => is_rectangle(r) && x1 <= x2 && x2 <= side_x(r) && y1 <= side_y(r),
        Cut::K2 { c, h } => !is_rectangle(r) && c <= r.small_x && h <= r.small_y,
        Cut::K3 { d, h } => !is_rectangle(r) && r.small_x <= d && d <= r.big_x && h <= r.small_y,
        Cut::K4 { c, e } => !is_rectangle(r) && c <= r.small_x && r.small_y <= e && e <= r.big_y,
    }
}
