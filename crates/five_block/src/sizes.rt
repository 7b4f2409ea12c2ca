ghost use Rattle.std.specs.Prelude.{◌↔◌, IsTrue};
ghost use Rattle.five_block.specs.Five.{IsFiveSize};

use raster_points::Points;

/// Whether two sides have at most 2,500 pairs of normal places, and at most 200 places each.
pub fn is_five_size(px: &Points, py: &Points) -> bool
    ensures { IsTrue result ↔ IsFiveSize px.now.normal py.now.normal }
{
    let columns = px.normal().len();
    let rows = py.normal().len();
    columns <= 200 && rows <= 200 && columns * rows <= 2500
}
