use crate::{Sides, put_forms, put_stack_figure, sides_of};
use layer_symmetry::Move;
use order_reader::Order;
use plan_entries::{Listed, Spots};
use plan_geometry::{Spot, Way};
use std::alloc::Global;
use std::test::Fail;

// A pallet of 5 by 4, and a case of 3 by 2 that is 2 high.
const SIDES: Sides = Sides {
    pallet_x: 5,
    pallet_y: 4,
    long: 3,
    short: 2,
    height: 2,
};

fn spot(x: u32, y: u32, way: Way) -> Spot {
    Spot { x, y, way }
}

fn listed(alloc: Global, spots: &[Spot]) -> Result<Listed, Fail> {
    Ok(Listed {
        turn: Move::Same,
        spots: Spots::new(Vec::from_slice(alloc, spots)?),
    })
}

// Two forms: of two cases along the front side, and of one case in the left corner at the back.
fn two_forms(alloc: Global) -> Result<Vec<Listed>, Fail> {
    let first = [spot(0, 0, Way::Lying), spot(3, 0, Way::Standing)];
    let second = [spot(0, 1, Way::Standing)];
    let mut layers = Vec::new(alloc);
    layers.push(listed(alloc, first.as_slice())?)?;
    layers.push(listed(alloc, second.as_slice())?)?;
    Ok(layers)
}

// In half units the pallet is 10 by 8, and each frame 2 more on every side.
// Form 1, case 1: 3 wide and 2 deep at 0, 0; it ends at y = 2, which is 2 below the upper side: y 4 in half units; its middle at 1.5, and 3 below the upper side.
// Case 2: 2 wide and 3 deep at 3, 0; it ends at y = 3, 1 below: y 2; its middle at 4, and 2.5 below.
// Form 2: 2 wide and 3 deep at 0, 1; it ends at y = 4, 0 below; its middle at 1, and 1.5 below.
const FORMS: &[u8] =
    b"<figure><svg role=\"img\" class=\"form\" viewBox=\"-2 -2 14 12\" font-size=\"2\"><title>Form 1</title><desc>The layer from above on a pallet of 5 by 4, its cases numbered</desc><path class=\"pallet\" d=\"M0 0h10v8H0z\"/>\n<rect class=\"lying\" x=\"0\" y=\"4\" width=\"6\" height=\"4\"/><text x=\"3\" y=\"6\">1</text>\n<rect class=\"standing\" x=\"6\" y=\"2\" width=\"4\" height=\"6\"/><text x=\"8\" y=\"5\">2</text>\n</svg><figcaption><b>Form 1</b> from above: 5 across, 4 up; the cases by their numbers</figcaption></figure>\n<figure><svg role=\"img\" class=\"form\" viewBox=\"-2 -2 14 12\" font-size=\"2\"><title>Form 2</title><desc>The layer from above on a pallet of 5 by 4, its cases numbered</desc><path class=\"pallet\" d=\"M0 0h10v8H0z\"/>\n<rect class=\"standing\" x=\"0\" y=\"0\" width=\"4\" height=\"6\"/><text x=\"2\" y=\"3\">1</text>\n</svg><figcaption><b>Form 2</b> from above: 5 across, 4 up; the cases by their numbers</figcaption></figure>\n";

#[test]
fn forms_from_above(rt: HostRuntime) -> Result<(), Fail> {
    let layers = two_forms(rt.alloc())?;
    let mut out = Vec::new(rt.alloc());
    put_forms(&mut out, SIDES, layers.as_slice())?;
    assert_eq!(rt; out.as_slice(), FORMS);
    Ok(())
}

// The frame: two layers are 40 high, the pallet's depth is 16 to the right and 12 up, the margin 5 / 4 + 1 = 2.
// Form 1 from the last case to the first: case 2 has its right side at x = 5 and shows it, as 2 more would not fit beside it; case 1 ends at x = 3, and 2 more would fit. Then the tops, 20 up.
// Form 2: its case begins at y = 1, which is 4 to the right and 3 up; another would fit beside it.
const STACK: &[u8] =
    b"<figure class=\"stack\"><svg role=\"img\" class=\"stack\" viewBox=\"-2 -54 70 56\"><title>The stack</title><desc>2 layers, seen from the front and the right</desc><defs>\n<symbol overflow=\"visible\" id=\"form-9-1\"><path class=\"slab\" d=\"M0 0h50l16 -12v-20h-50l-16 12z\"/>\n<path class=\"standing\" d=\"M50 -0l12 -9v-20l-12 9z\"/>\n<path class=\"standing\" d=\"M30 -0h20v-20h-20z\"/>\n<path class=\"lying\" d=\"M0 -0h30v-20h-30z\"/>\n<path class=\"lying\" d=\"M0 -20h30l8 -6h-30z\"/>\n<path class=\"standing\" d=\"M30 -20h20l12 -9h-20z\"/>\n</symbol>\n<symbol overflow=\"visible\" id=\"form-9-2\"><path class=\"slab\" d=\"M0 0h50l16 -12v-20h-50l-16 12z\"/>\n<path class=\"standing\" d=\"M4 -3h20v-20h-20z\"/>\n<path class=\"standing\" d=\"M4 -23h20l12 -9h-20z\"/>\n</symbol>\n</defs><path class=\"pallet\" d=\"M0 0h50l16 -12h-50z\"/>\n<use href=\"#form-9-1\" y=\"-0\"/>\n<use href=\"#form-9-2\" y=\"-20\"/>\n</svg><figcaption>The stack from the front and the right: 2 layers, the first at the bottom</figcaption></figure>\n";

#[test]
fn stack_of_two(rt: HostRuntime) -> Result<(), Fail> {
    let layers = two_forms(rt.alloc())?;
    let mut out = Vec::new(rt.alloc());
    put_stack_figure(&mut out, SIDES, 9, layers.as_slice(), [1, 2].as_slice())?;
    assert_eq!(rt; out.as_slice(), STACK);
    Ok(())
}

// Of 61 layers the lowest, of form 7, and the highest, of form 5, in the third place: 2 times 20 up, in a frame for three layers.
const BROKEN: &[u8] =
    b"<figure class=\"stack\"><svg role=\"img\" class=\"stack\" viewBox=\"-2 -74 70 76\"><title>The stack</title><desc>61 layers, seen from the front and the right</desc><defs>\n</defs><path class=\"pallet\" d=\"M0 0h50l16 -12h-50z\"/>\n<use href=\"#form-9-7\" y=\"-0\"/>\n<path class=\"break\" d=\"M0 -20v-20h50l16 -12v20l-16 12z\"/><text x=\"25\" y=\"-30\" font-size=\"2\" text-anchor=\"middle\" dominant-baseline=\"central\">59 layers between</text>\n<use href=\"#form-9-5\" y=\"-40\"/>\n</svg><figcaption>The stack from the front and the right: 61 layers, the first at the bottom</figcaption></figure>\n";

#[test]
fn stack_of_sixty_one(rt: HostRuntime) -> Result<(), Fail> {
    let mut numbers = [7; 61];
    numbers[60] = 5;
    let layers: Vec<Listed> = Vec::new(rt.alloc());
    let mut out = Vec::new(rt.alloc());
    put_stack_figure(&mut out, SIDES, 9, layers.as_slice(), numbers.as_slice())?;
    assert_eq!(rt; out.as_slice(), BROKEN);
    Ok(())
}

// Of 60 layers each has a line; there are one for the frame, one for the pallet, and the end of the figure's.
#[test]
fn stack_of_sixty(rt: HostRuntime) -> Result<(), Fail> {
    let numbers = [7; 60];
    let layers: Vec<Listed> = Vec::new(rt.alloc());
    let mut out = Vec::new(rt.alloc());
    put_stack_figure(&mut out, SIDES, 9, layers.as_slice(), numbers.as_slice())?;
    let mut lines = 0u64;
    for byte in out.as_slice() {
        if *byte == b'\n' {
            lines = lines.saturating_add(1);
        }
    }
    assert_eq!(rt; lines, 63);
    Ok(())
}

// A frame for no layer is as high as the pallet's depth, 12 up, with the margin.
const EMPTY: &[u8] =
    b"<figure class=\"stack\"><svg role=\"img\" class=\"stack\" viewBox=\"-2 -14 70 16\"><title>The stack</title><desc>0 layers, seen from the front and the right</desc><defs>\n</defs><path class=\"pallet\" d=\"M0 0h50l16 -12h-50z\"/>\n</svg><figcaption>The stack from the front and the right: 0 layers, the first at the bottom</figcaption></figure>\n";

#[test]
fn stack_of_none(rt: HostRuntime) -> Result<(), Fail> {
    let layers: Vec<Listed> = Vec::new(rt.alloc());
    let mut out = Vec::new(rt.alloc());
    let numbers: Vec<u32> = Vec::new(rt.alloc());
    put_stack_figure(&mut out, SIDES, 9, layers.as_slice(), numbers.as_slice())?;
    assert_eq!(rt; out.as_slice(), EMPTY);
    Ok(())
}

// The case's sides stand in the order the other way round.
#[test]
fn sides_of_an_order(rt: HostRuntime) -> Result<(), Fail> {
    let numbers = [5, 4, 2, 3, 2, 10, 20, 1000, 50, 0, 100, 0];
    let Ok(order) = Order::new(rt.alloc(), b"A", numbers) else {
        return Err("no order".into());
    };
    let sides = sides_of(&order);
    assert_eq!(rt; [sides.pallet_x, sides.pallet_y], [5, 4]);
    assert_eq!(rt; [sides.long, sides.short, sides.height], [3, 2, 2]);
    Ok(())
}
