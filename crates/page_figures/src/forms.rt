ghost use Rattle.std.specs.Prelude.{◌≡◌, ◌++◌};
ghost use Rattle.texts.specs.Puts.{Puts};
ghost use Rattle.page_figures.specs.Forms.{upper_edge as upper_edge_of, box_text, rect_text, rects_text, form_head, form_end, form_text, forms_text};

use crate::sides::{Sides, across, along, way_name};
use page_pieces::Piece::{Number, Text};
use page_pieces::put_pieces;
use plan_entries::Listed;
use plan_geometry::Spot;
use plan_memory::Memory;

fn put_box(
    out: &mut Vec<u8>,
    number: u64,
    way: &[u8],
    x: u32,
    y: u32,
    w: u32,
    d: u32,
) -> Result<(), Memory>
    ensures { Puts out.old.items out.new.items (box_text number way.now x y w d) result }
{
    put_pieces(
        out,
        &[
            Text(b"<rect class=\""),
            Text(way),
            Text(b" x=\""),
            Number(2 * x as u64),
            Text(b"\" y=\""),
            Number(2 * y as u64),
            Text(b"\" width=\""),
            Number(2 * w as u64),
            Text(b"\" height=\""),
            Number(2 * d as u64),
            Text(b"\"/><text x=\""),
            Number(2 * x as u64 + w as u64),
            Text(b"\" y=\""),
            Number(2 * y as u64 + d as u64),
            Text(b"\">"),
            Number(number),
            Text(b"</text>\n"),
        ],
    )
}

// How far the upper edge of a case is below the pallet's; 0 where the case ends beyond it.
#[tactic(auto, unfolding(crate::specs::Forms::upper_edge))]
fn upper_edge(sides: Sides, spot: Spot) -> u32
    ensures { result ≡ upper_edge_of sides spot }
{
    let end = u64::from(spot.y) + u64::from(along(sides, spot.way));
    u64::from(sides.pallet_y).saturating_sub(end) as u32
}

#[tactic(auto, using(texts::proofs::Growth::grows_after), unfolding(crate::specs::Forms::rect_text))]
fn put_rect(out: &mut Vec<u8>, sides: Sides, number: u64, spot: Spot) -> Result<(), Memory>
    ensures { Puts out.old.items out.new.items (rect_text sides number spot) result }
{
    let (wide, deep) = (across(sides, spot.way), along(sides, spot.way));
    let y = upper_edge(sides, spot);
    put_box(out, number, way_name(spot.way), spot.x, y, wide, deep)?;
    Ok(())
}

#[tactic(auto, using(texts::proofs::Growth::grows_after), unfolding(crate::specs::Forms::rects_text))]
fn put_rects(out: &mut Vec<u8>, sides: Sides, spots: &[Spot]) -> Result<(), Memory>
    ensures { Puts out.old.items out.new.items (rects_text sides spots.now) result }
{
    for (place, spot) in spots.iter().enumerate() {
        put_rect(out, sides, place as u64 + 1, *spot)?;
    }
    Ok(())
}

#[tactic(auto, using(texts::proofs::Growth::grows_after), unfolding(crate::specs::Forms::form_head))]
fn put_form_head(out: &mut Vec<u8>, sides: Sides, number: u64) -> Result<(), Memory>
    ensures { Puts out.old.items out.new.items (form_head sides number) result }
{
    put_pieces(
        out,
        &[
            Text(b"<figure><svg role=\"img\" class=\"form\" viewBox=\"-2 -2 "),
            Number(2 * sides.pallet_x as u64 + 4),
            Text(b" "),
            Number(2 * sides.pallet_y as u64 + 4),
            Text(b"\" font-size=\""),
            Number(sides.short as u64),
            Text(b"\"><title>Form "),
            Number(number),
            Text(b"</title><desc>The layer from above on a pallet of "),
            Number(sides.pallet_x as u64),
            Text(b" by "),
            Number(sides.pallet_y as u64),
            Text(b", its cases numbered</desc><path class=\"pallet\" d=\"M0 0h"),
            Number(2 * sides.pallet_x as u64),
            Text(b"v"),
            Number(2 * sides.pallet_y as u64),
            Text(b"H0z\"/>\n"),
        ],
    )
}

#[tactic(auto, using(texts::proofs::Growth::grows_after), unfolding(crate::specs::Forms::form_end))]
fn put_form_end(out: &mut Vec<u8>, sides: Sides, number: u64) -> Result<(), Memory>
    ensures { Puts out.old.items out.new.items (form_end sides number) result }
{
    put_pieces(
        out,
        &[
            Text(b"</svg><figcaption><b>Form "),
            Number(number),
            Text(b"</b> from above: "),
            Number(sides.pallet_x as u64),
            Text(b" across, "),
            Number(sides.pallet_y as u64),
            Text(b" up; the cases by their numbers</figcaption></figure>\n"),
        ],
    )
}

#[tactic(auto, using(texts::proofs::Growth::grows_after), unfolding(crate::specs::Forms::form_text))]
fn put_form(out: &mut Vec<u8>, sides: Sides, number: u64, listed: &Listed) -> Result<(), Memory>
    ensures { Puts out.old.items out.new.items (form_text sides number listed.now) result }
{
    put_form_head(out, sides, number)?;
    put_rects(out, sides, listed.spots.as_slice())?;
    put_form_end(out, sides, number)
}

/// Appends each form from above.
#[tactic(auto, using(texts::proofs::Growth::grows_after), unfolding(crate::specs::Forms::forms_text))]
pub fn put_forms(out: &mut Vec<u8>, sides: Sides, layers: &[Listed]) -> Result<(), Memory>
    ensures { Puts out.old.items out.new.items (forms_text sides layers.now) result }
{
    for (place, listed) in layers.iter().enumerate() {
        put_form(out, sides, place as u64 + 1, listed)?;
    }
    Ok(())
}
