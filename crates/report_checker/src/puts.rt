ghost use Rattle.std.specs.Prelude.{◌≡◌, ◌++◌, OnOk, OnErr};
ghost use Rattle.texts.specs.Puts.{Puts};
ghost use Rattle.texts.specs.Lines.{ended, spaced};
ghost use Rattle.report_checker.specs.Text.{verdict_words, verdict_text};

use crate::verdicts::{Clause, Verdict};
use plan_memory::Memory;
use texts::{put_named, put_text};

// Appends the line of a clause that fails.
#[tactic(auto, using(texts::proofs::Growth::grows_after))]
fn put_no(out: &mut Vec<u8>, number: u32, clause: Clause, item: u32) -> Result<(), Memory>
    ensures { Puts out.old.items out.new.items (ended (spaced (verdict_words number (Verdict.No clause item)))) result }
{
    put_named(out, b"entry ", u64::from(number))?;
    put_text(out, b" no ")?;
    put_text(out, clause.name().as_bytes())?;
    put_named(out, b" ", u64::from(item))?;
    put_text(out, b"\n")
}

// Appends the line of a verdict that is one word.
#[tactic(auto, using(texts::proofs::Growth::grows_after))]
fn put_line(out: &mut Vec<u8>, number: u32, verdict: Verdict) -> Result<(), Memory>
    ensures { Puts out.old.items out.new.items (verdict_text number verdict) result }
{
    match verdict {
        Verdict::Yes => {
            put_named(out, b"entry ", u64::from(number))?;
            put_text(out, b" yes\n")
        }
        Verdict::Refused => {
            put_named(out, b"entry ", u64::from(number))?;
            put_text(out, b" refused\n")
        }
        Verdict::No { clause, item } => put_no(out, number, clause, item),
    }
}

/// Appends the line of an entry's verdict: `entry N yes`, `entry N refused`, or `entry N no C I` with the name of the
/// clause and the item. After `Memory` `out` is as before.
#[tactic(auto, using(texts::proofs::Growth::cut_back))]
pub fn put_verdict(out: &mut Vec<u8>, number: u32, verdict: Verdict) -> Result<(), Memory>
    ensures ok { OnOk result (out.new.items ≡ out.old.items ++ verdict_text number verdict) }
    ensures err { OnErr result (out.new.items ≡ out.old.items) }
{
    let len = out.len();
    match put_line(out, number, verdict) {
        Ok(()) => Ok(()),
        Err(memory) => {
            out.truncate(len);
            Err(memory)
        }
    }
}
