ghost use Rattle.std.specs.Prelude.{◌≡◌, ◌++◌};
ghost use Rattle.texts.specs.Puts.{Puts};
ghost use Rattle.page_figures.specs.Slabs.{front_text, front_of_case, side_text, outer_side, faces_of_case, faces_text, lid_text, top_of_case, tops_text, slab_head, slab_text, slabs_text};

use crate::sides::{Sides, across, along, way_name};
use page_pieces::Piece::{Number, Text};
use page_pieces::put_pieces;
use plan_entries::Listed;
use plan_geometry::Spot;
use plan_memory::Memory;
use texts::put_text;

fn put_front(out: &mut Vec<u8>, way: &[u8], x: u32, y: u32, w: u32, h: u32) -> Result<(), Memory>
    ensures { Puts out.old.items out.new.items (front_text way.now x y w h) result }
{
    put_pieces(
        out,
        &[
            Text(b"<path class=\""),
            Text(way),
            Text(b" d=\"M"),
            Number(10 * x as u64 + 4 * y as u64),
            Text(b" -"),
            Number(3 * y as u64),
            Text(b"h"),
            Number(10 * w as u64),
            Text(b"v-"),
            Number(10 * h as u64),
            Text(b"h-"),
            Number(10 * w as u64),
            Text(b"z\"/>\n"),
        ],
    )
}

#[tactic(auto, using(texts::proofs::Growth::grows_after), unfolding(crate::specs::Slabs::front_of_case))]
fn put_front_of_case(out: &mut Vec<u8>, sides: Sides, spot: Spot) -> Result<(), Memory>
    ensures { Puts out.old.items out.new.items (front_of_case sides spot) result }
{
    let wide = across(sides, spot.way);
    put_front(out, way_name(spot.way), spot.x, spot.y, wide, sides.height)?;
    Ok(())
}

fn put_side(
    out: &mut Vec<u8>,
    way: &[u8],
    x: u32,
    y: u32,
    w: u32,
    d: u32,
    h: u32,
) -> Result<(), Memory>
    ensures { Puts out.old.items out.new.items (side_text way.now x y w d h) result }
{
    put_pieces(
        out,
        &[
            Text(b"<path class=\""),
            Text(way),
            Text(b" d=\"M"),
            Number(10 * x as u64 + 10 * w as u64 + 4 * y as u64),
            Text(b" -"),
            Number(3 * y as u64),
            Text(b"l"),
            Number(4 * d as u64),
            Text(b" -"),
            Number(3 * d as u64),
            Text(b"v-"),
            Number(10 * h as u64),
            Text(b"l-"),
            Number(4 * d as u64),
            Text(b" "),
            Number(3 * d as u64),
            Text(b"z\"/>\n"),
        ],
    )
}

// Appends the right side of a case that has no room for another beside it.
#[tactic(auto, using(texts::proofs::Growth::grows_after), unfolding(crate::specs::Slabs::outer_side))]
fn put_outer_side(out: &mut Vec<u8>, sides: Sides, spot: Spot) -> Result<(), Memory>
    ensures { Puts out.old.items out.new.items (outer_side sides spot) result }
{
    let (wide, deep) = (across(sides, spot.way), along(sides, spot.way));
    let next = u64::from(spot.x) + u64::from(wide) + u64::from(sides.short);
    if u64::from(sides.pallet_x) < next {
        put_side(
            out,
            way_name(spot.way),
            spot.x,
            spot.y,
            wide,
            deep,
            sides.height,
        )?;
    }
    Ok(())
}

#[tactic(auto, using(texts::proofs::Growth::grows_after), unfolding(crate::specs::Slabs::faces_of_case))]
fn put_faces_of_case(out: &mut Vec<u8>, sides: Sides, spot: Spot) -> Result<(), Memory>
    ensures { Puts out.old.items out.new.items (faces_of_case sides spot) result }
{
    put_outer_side(out, sides, spot)?;
    put_front_of_case(out, sides, spot)
}

// Appends the faces from the last case to the first, so that those in front come last.
#[tactic(auto, using(texts::proofs::Growth::grows_after), unfolding(crate::specs::Slabs::faces_text))]
fn put_faces(out: &mut Vec<u8>, sides: Sides, spots: &[Spot]) -> Result<(), Memory>
    ensures { Puts out.old.items out.new.items (faces_text sides spots.now) result }
{
    for place in (0..spots.len()).rev() {
        put_faces_of_case(out, sides, spots[place])?;
    }
    Ok(())
}

fn put_lid(
    out: &mut Vec<u8>,
    way: &[u8],
    x: u32,
    y: u32,
    w: u32,
    d: u32,
    z: u32,
) -> Result<(), Memory>
    ensures { Puts out.old.items out.new.items (lid_text way.now x y w d z) result }
{
    put_pieces(
        out,
        &[
            Text(b"<path class=\""),
            Text(way),
            Text(b" d=\"M"),
            Number(10 * x as u64 + 4 * y as u64),
            Text(b" -"),
            Number(3 * y as u64 + 10 * z as u64),
            Text(b"h"),
            Number(10 * w as u64),
            Text(b"l"),
            Number(4 * d as u64),
            Text(b" -"),
            Number(3 * d as u64),
            Text(b"h-"),
            Number(10 * w as u64),
            Text(b"z\"/>\n"),
        ],
    )
}

#[tactic(auto, using(texts::proofs::Growth::grows_after), unfolding(crate::specs::Slabs::top_of_case))]
fn put_top_of_case(out: &mut Vec<u8>, sides: Sides, spot: Spot) -> Result<(), Memory>
    ensures { Puts out.old.items out.new.items (top_of_case sides spot) result }
{
    let (wide, deep) = (across(sides, spot.way), along(sides, spot.way));
    put_lid(
        out,
        way_name(spot.way),
        spot.x,
        spot.y,
        wide,
        deep,
        sides.height,
    )?;
    Ok(())
}

#[tactic(auto, using(texts::proofs::Growth::grows_after), unfolding(crate::specs::Slabs::tops_text))]
fn put_tops(out: &mut Vec<u8>, sides: Sides, spots: &[Spot]) -> Result<(), Memory>
    ensures { Puts out.old.items out.new.items (tops_text sides spots.now) result }
{
    for spot in spots {
        put_top_of_case(out, sides, *spot)?;
    }
    Ok(())
}

#[tactic(auto, using(texts::proofs::Growth::grows_after), unfolding(crate::specs::Slabs::slab_head))]
fn put_slab_head(out: &mut Vec<u8>, sides: Sides, sheet: u32, number: u64) -> Result<(), Memory>
    ensures { Puts out.old.items out.new.items (slab_head sides sheet number) result }
{
    put_pieces(
        out,
        &[
            Text(b"<symbol overflow=\"visible\" id=\"form-"),
            Number(sheet as u64),
            Text(b"-"),
            Number(number),
            Text(b"\"><path class=\"slab\" d=\"M0 0h"),
            Number(10 * sides.pallet_x as u64),
            Text(b"l"),
            Number(4 * sides.pallet_y as u64),
            Text(b" -"),
            Number(3 * sides.pallet_y as u64),
            Text(b"v-"),
            Number(10 * sides.height as u64),
            Text(b"h-"),
            Number(10 * sides.pallet_x as u64),
            Text(b"l-"),
            Number(4 * sides.pallet_y as u64),
            Text(b" "),
            Number(3 * sides.pallet_y as u64),
            Text(b"z\"/>\n"),
        ],
    )
}

#[tactic(auto, using(texts::proofs::Growth::grows_after), unfolding(crate::specs::Slabs::slab_text))]
fn put_slab(
    out: &mut Vec<u8>,
    sides: Sides,
    sheet: u32,
    number: u64,
    listed: &Listed,
) -> Result<(), Memory>
    ensures { Puts out.old.items out.new.items (slab_text sides sheet number listed.now) result }
{
    put_slab_head(out, sides, sheet, number)?;
    put_faces(out, sides, listed.spots.as_slice())?;
    put_tops(out, sides, listed.spots.as_slice())?;
    put_text(out, b"</symbol>\n")
}

/// Appends each form as a symbol of the oblique view.
#[tactic(auto, using(texts::proofs::Growth::grows_after), unfolding(crate::specs::Slabs::slabs_text))]
pub fn put_slabs(
    out: &mut Vec<u8>,
    sides: Sides,
    sheet: u32,
    layers: &[Listed],
) -> Result<(), Memory>
    ensures { Puts out.old.items out.new.items (slabs_text sides sheet layers.now) result }
{
    for (place, listed) in layers.iter().enumerate() {
        put_slab(out, sides, sheet, place as u64 + 1, listed)?;
    }
    Ok(())
}
