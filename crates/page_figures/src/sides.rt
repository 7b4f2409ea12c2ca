ghost use Rattle.std.specs.Prelude.{◌≡◌};
ghost use Rattle.page_figures.specs.Sides.{sides_of as sides_in, across as across_of, along as along_of, way_text};

use order_reader::{Field, Order};
use plan_geometry::Way;

/// The sides of a pallet and of a case, and the case's height.
#[derive(Clone, Copy)]
pub struct Sides {
    pub pallet_x: u32,
    pub pallet_y: u32,
    pub long: u32,
    pub short: u32,
    pub height: u32,
}

/// The sides that an order gives.
pub fn sides_of(order: &Order) -> Sides
    ensures { result ≡ sides_in order.now }
{
    let (case_x, case_y) = (order.number(Field::CaseX), order.number(Field::CaseY));
    Sides {
        pallet_x: order.number(Field::PalletX),
        pallet_y: order.number(Field::PalletY),
        long: case_x.max(case_y),
        short: case_x.min(case_y),
        height: order.number(Field::CaseZ),
    }
}

/// How far a case reaches along x.
pub fn across(sides: Sides, way: Way) -> u32
    ensures { result ≡ across_of sides way }
{
    match way {
        Way::Lying => sides.long,
        Way::Standing => sides.short,
    }
}

/// How far a case reaches along y.
pub fn along(sides: Sides, way: Way) -> u32
    ensures { result ≡ along_of sides way }
{
    match way {
        Way::Lying => sides.short,
        Way::Standing => sides.long,
    }
}

/// The class of a case that lies or stands.
pub fn way_name(way: Way) -> &'static [u8]
    ensures { result.now ≡ way_text way }
{
    match way {
        Way::Lying => b"lying\"",
        Way::Standing => b"standing\"",
    }
}
