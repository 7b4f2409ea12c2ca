ghost use Rattle.std.specs.Prelude.{◌↔◌, IsTrue};
ghost use Rattle.g4_patterns.specs.Four.{IsFourSize};

use raster_points::Points;

/// Whether two sides have at most 10,000 pairs of normal places, and at most 200 places each.
pub fn is_four_size(px: &Points, py: &Points) -> bool
    ensures { IsTrue result ↔ IsFourSize px.now.normal py.now.normal }
{
    let columns = px.normal().len();
    let rows = py.normal().len();
    columns <= 200 && rows <= 200 && columns * rows <= 10000
}
