ghost use Rattle.std.specs.Prelude.{◌≡◌, ◌≤◌, ◌<◌, ◌^◌, length, slice_index};
ghost use Rattle.l_patterns.specs.Cuts as spec;

use plan_geometry::Inst;

/// The normal places of a side in rising order, and for each length up to the side where the greatest of
/// them up to there stands.
#[derive(Clone, Copy)]
pub struct Side<'a> {
    pub points: &'a [u32],
    pub places: &'a [u32],
}

/// An instance, and the normal places of both sides of its pallet.
#[derive(Clone, Copy)]
pub struct Sides<'a> {
    pub inst: Inst,
    pub x: Side<'a>,
    pub y: Side<'a>,
}

/// How many normal places there are up to a length.
pub fn count_up_to(side: Side<'_>, s: u32) -> usize
    requires within { s < length side.places.now }
    ensures value { result ≡ spec.count_up_to side.entry s }
    ensures small { result ≤ 2 ^ 32 }
{
    side.places[s as usize] as usize + 1
}

/// The greatest normal place up to a length.
pub fn round_down(side: Side<'_>, s: u32) -> u32
    requires within { s < length side.places.now }
    requires place { slice_index side.places.now s < length side.points.now }
    ensures { result ≡ spec.point side.entry (slice_index side.entry.places.now s) }
{
    side.points[side.places[s as usize] as usize]
}
