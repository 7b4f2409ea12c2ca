// What a trial found, as a text.
ghost use Rattle.std.specs.Prelude.{◌≡◌, ◌++◌, OnOk, OnErr};
ghost use Rattle.texts.specs.Puts.{Puts};
ghost use Rattle.made_orders.specs.Summaries.{line_text, summary_text};

use plan_memory::Memory;
use texts::{put_named, put_text};

/// What a trial found among the made orders of a number.
#[derive(Clone, Copy, PartialEq, Eq, Debug)]
pub struct Summary {
    /// The number from which the orders were made.
    pub number: u32,
    /// How many rows there are.
    pub rows: u32,
    /// How many of them have a plan.
    pub planned: u32,
    /// How many cases the planned layers have together.
    pub cases: u32,
    /// How many plans have a count that is known to be the greatest.
    pub optimal: u32,
    /// How many plans have a stack.
    pub stacks: u32,
    /// How many entries were checked with the verdict yes.
    pub yes: u32,
}

/// Appends the seven lines of a summary. After `Memory` `out` is as before.
#[tactic(auto, using(texts::proofs::Growth::cut_back))]
pub fn put_summary(out: &mut Vec<u8>, summary: &Summary) -> Result<(), Memory>
    ensures ok { OnOk result (out.new.items ≡ out.old.items ++ summary_text summary.now) }
    ensures err { OnErr result (out.new.items ≡ out.old.items) }
{
    let len = out.len();
    match put_lines(out, summary) {
        Ok(()) => Ok(()),
        Err(memory) => {
            out.truncate(len);
            Err(memory)
        }
    }
}

// Appends the lines of a summary, or some of them.
#[tactic(auto, using(texts::proofs::Growth::grows_after), unfolding(crate::specs::Summaries::summary_text))]
fn put_lines(out: &mut Vec<u8>, summary: &Summary) -> Result<(), Memory>
    ensures { Puts out.old.items out.new.items (summary_text summary.now) result }
{
    put_line(out, b"trial ", summary.number)?;
    put_line(out, b"rows ", summary.rows)?;
    put_line(out, b"planned ", summary.planned)?;
    put_line(out, b"cases ", summary.cases)?;
    put_line(out, b"optimal ", summary.optimal)?;
    put_line(out, b"stacks ", summary.stacks)?;
    put_line(out, b"yes ", summary.yes)
}

// Appends a name, a number and the line's end.
#[tactic(auto, using(texts::proofs::Growth::grows_after), unfolding(crate::specs::Summaries::line_text))]
fn put_line(out: &mut Vec<u8>, name: &[u8], number: u32) -> Result<(), Memory>
    ensures { Puts out.old.items out.new.items (line_text name.now number) result }
{
    put_named(out, name, u64::from(number))?;
    put_text(out, b"\n")
}
