// The layers of a stack that have a form.
ghost use Rattle.std.specs.Prelude.{◌≡◌, ◌++◌, IfOk, OnOk, length, ◌<◌};
ghost use Rattle.std.specs.List.{flat_map};
ghost use Rattle.texts.specs.Puts.{Puts};
ghost use Rattle.page_stacks.specs.Places.{place_if, places_of as places_in, behind_comma, listed};

use page_pieces::Piece::{Number, Text};
use page_pieces::put_pieces;
use plan_memory::Memory;
use std::alloc::Global;

// Adds the place where the number is the one that is asked for.
fn add_place(places: &mut Vec<u64>, asked: u32, place: u64, number: u32) -> Result<(), Memory>
    ensures { OnOk result (places.new.items ≡ places.old.items ++ place_if asked place number) }
{
    if number == asked {
        places.push(place)?;
    }
    Ok(())
}

// The places at which the numbers have this one, from 1.
pub fn places_of(alloc: Global, asked: u32, numbers: &[u32]) -> Result<Vec<u64>, Memory>
    ensures { IfOk result (λ places. places.items ≡ places_in asked numbers.now) }
{
    let mut places = Vec::new(alloc);
    for (place, number) in numbers.iter().enumerate() {
        add_place(&mut places, asked, place as u64 + 1, *number)?;
    }
    Ok(places)
}

fn put_behind_comma(out: &mut Vec<u8>, number: u64) -> Result<(), Memory>
    ensures { Puts out.old.items out.new.items (behind_comma number) result }
{
    put_pieces(out, &[Text(b", "), Number(number)])
}

// Appends numbers, each behind a comma.
fn put_behind_commas(out: &mut Vec<u8>, numbers: &[u64]) -> Result<(), Memory>
    ensures { Puts out.old.items out.new.items (flat_map behind_comma numbers.now) result }
{
    for number in numbers {
        put_behind_comma(out, *number)?;
    }
    Ok(())
}

// Appends numbers with commas between them.
#[tactic(auto, using(texts::proofs::Growth::grows_after))]
pub fn put_listed(out: &mut Vec<u8>, numbers: &[u64]) -> Result<(), Memory>
    ensures { Puts out.old.items out.new.items (listed numbers.now) result }
{
    match numbers {
        [] => Ok(()),
        [first, more @ ..] => {
            put_pieces(out, &[Number(*first)])?;
            put_behind_commas(out, more)
        }
    }
}
