ghost use Rattle.std.specs.Prelude.{◌≡◌, ◌≤◌, length};
ghost use Rattle.texts.specs.Lines.{ended, spaced, text_of};
ghost use Rattle.texts.specs.Puts.{Puts};
ghost use Rattle.listing_text.specs.Text.{way_word as way_word_of, case_words, case_lines, turn_words, layer_lines, listed_lines, layer_count_words, layers_text};

use layer_symmetry::Move;
use plan_entries::{Layers, Listed};
use plan_geometry::{Spot, Way};
use plan_memory::Memory;
use texts::{put_named, put_text};

// The end of the line of a case that lies or stands.
fn put_way(out: &mut Vec<u8>, way: Way) -> Result<(), Memory>
    ensures { Puts out.old.items out.new.items (ended (way_word_of way)) result }
{
    match way {
        Way::Lying => put_text(out, b"L\n"),
        Way::Standing => put_text(out, b"S\n"),
    }
}

// Appends the line of a case.
#[tactic(auto, using(texts::proofs::Growth::grows_after))]
fn put_case(out: &mut Vec<u8>, spot: Spot) -> Result<(), Memory>
    ensures { Puts out.old.items out.new.items (ended (spaced (case_words spot))) result }
{
    put_named(out, b"", u64::from(spot.x))?;
    put_named(out, b" ", u64::from(spot.y))?;
    put_text(out, b" ")?;
    put_way(out, spot.way)
}

// Appends a line for each case.
#[tactic(auto, using(texts::proofs::Growth::grows_after))]
fn put_cases(out: &mut Vec<u8>, spots: &[Spot]) -> Result<(), Memory>
    ensures { Puts out.old.items out.new.items (text_of (case_lines spots.now)) result }
{
    for spot in spots {
        put_case(out, *spot)?;
    }
    Ok(())
}

// Appends the first line of the layer of a number.
#[tactic(auto, using(texts::proofs::Growth::grows_after))]
fn put_turn(out: &mut Vec<u8>, number: u32, turn: Move) -> Result<(), Memory>
    ensures { Puts out.old.items out.new.items (ended (spaced (turn_words number turn))) result }
{
    put_named(out, b"layer ", u64::from(number))?;
    put_text(out, b" ")?;
    put_text(out, turn.name().as_bytes())?;
    put_text(out, b"\n")
}

// Appends the lines of the layer of a number.
#[tactic(auto, using(texts::proofs::Growth::grows_after))]
fn put_layer(out: &mut Vec<u8>, number: u32, listed: &Listed) -> Result<(), Memory>
    ensures { Puts out.old.items out.new.items (text_of (layer_lines number listed.now)) result }
{
    put_turn(out, number, listed.turn)?;
    put_cases(out, listed.spots.as_slice())
}

// Appends the lines of layers, numbered from 1.
#[tactic(auto, using(texts::proofs::Growth::grows_after))]
fn put_listed(out: &mut Vec<u8>, layers: &[Listed]) -> Result<(), Memory>
    requires { length layers.now ≤ 8 }
    ensures { Puts out.old.items out.new.items (text_of (listed_lines 1 layers.now)) result }
{
    for (place, listed) in layers.iter().enumerate() {
        put_layer(out, place as u32 + 1, listed)?;
    }
    Ok(())
}

/// Appends the text of at most eight layers: how many there are, and for each its number from 1, its move and
/// its cases. After `Memory` the old text still stands in front.
#[tactic(auto, using(texts::proofs::Growth::grows_after))]
pub fn put_layers(out: &mut Vec<u8>, layers: &Layers) -> Result<(), Memory>
    requires { length layers.now ≤ 8 }
    ensures { Puts out.old.items out.new.items (layers_text layers.now) result }
{
    let layers = layers.as_slice();
    put_named(out, b"layers ", layers.len() as u64)?;
    put_text(out, b"\n")?;
    put_listed(out, layers)
}
