ghost use Rattle.std.specs.Prelude.{◌≡◌, ◌++◌, OnOk, OnErr, map, option_map};
ghost use Rattle.texts.specs.Lines.{ended, spaced, text_of};
ghost use Rattle.texts.specs.Puts.{Puts};
ghost use Rattle.pallet_choice.specs.Text.{count_told, bound_told, chosen_words, rival_line, tail_text, told_by};

use crate::choices::{Choice, Score};
use plan_memory::Memory;
use texts::{put_named, put_text};

// Appends the line of the chosen entry.
#[tactic(auto, using(texts::proofs::Growth::grows_after))]
fn put_entry(out: &mut Vec<u8>, score: Score) -> Result<(), Memory>
    ensures { Puts out.old.items out.new.items (ended (spaced (chosen_words (Some (count_told score))))) result }
{
    put_named(out, b"chosen ", u64::from(score.number))?;
    put_named(out, b" count ", u64::from(score.count))?;
    put_text(out, b"\n")
}

// Appends the line of the chosen entry, or of none.
fn put_chosen(out: &mut Vec<u8>, chosen: Option<Score>) -> Result<(), Memory>
    ensures { Puts out.old.items out.new.items (ended (spaced (chosen_words (option_map count_told chosen)))) result }
{
    match chosen {
        Some(score) => put_entry(out, score),
        None => put_text(out, b"chosen none\n"),
    }
}

// Appends the line of a rival.
#[tactic(auto, using(texts::proofs::Growth::grows_after))]
fn put_rival(out: &mut Vec<u8>, score: Score) -> Result<(), Memory>
    ensures { Puts out.old.items out.new.items (ended (rival_line (bound_told score))) result }
{
    put_named(out, b"rival ", u64::from(score.number))?;
    put_named(out, b" bound ", u64::from(score.bound))?;
    put_text(out, b"\n")
}

// Appends a line for each rival.
#[tactic(auto, using(texts::proofs::Growth::grows_after))]
fn put_rivals(out: &mut Vec<u8>, rivals: &[Score]) -> Result<(), Memory>
    ensures { Puts out.old.items out.new.items (text_of (map rival_line (map bound_told rivals.now))) result }
{
    for score in rivals {
        put_rival(out, *score)?;
    }
    Ok(())
}

// Appends the text of a choice, or a part of it.
#[tactic(auto, using(texts::proofs::Growth::grows_after))]
fn put_all(out: &mut Vec<u8>, choice: &Choice) -> Result<(), Memory>
    ensures { Puts out.old.items out.new.items (tail_text (told_by choice.now)) result }
{
    put_chosen(out, choice.chosen)?;
    put_rivals(out, &choice.rivals)
}

/// Appends the text of a choice: the chosen entry's number and count, or that there is none, and a line for each rival
/// with its number and bound. After `Memory` `out` is as before. `get_choice` gets it back (`put_tails_are_got`) where
/// the numbers are from 1 to 256, those of the rivals rise, and counts and bounds are from 1 to 1,000.
#[tactic(auto, using(texts::proofs::Growth::cut_back))]
pub fn put_choice(out: &mut Vec<u8>, choice: &Choice) -> Result<(), Memory>
    ensures ok { OnOk result (out.new.items ≡ out.old.items ++ tail_text (told_by choice.now)) }
    ensures err { OnErr result (out.new.items ≡ out.old.items) }
{
    let len = out.len();
    match put_all(out, choice) {
        Ok(()) => Ok(()),
        Err(memory) => {
            out.truncate(len);
            Err(memory)
        }
    }
}
