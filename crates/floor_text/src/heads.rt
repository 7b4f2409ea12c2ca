ghost use Rattle.std.specs.Prelude.{◌≡◌, ◌++◌, OnOk, OnErr, IfOk};
ghost use Rattle.texts.specs.Gives.{GivesOrLeaves};
ghost use Rattle.texts.specs.Lines.{whole_lines, unfinished};
ghost use Rattle.report_text.specs.Lines.{behind_line};
ghost use Rattle.floor_text.specs.Text.{head_line as first_line, head_text};

use plan_memory::Memory;
use texts::{LinesLeft, count_lines, next_line, put_text};

/// The first line of a floor's text.
pub fn head_line() -> &'static [u8]
    ensures { result.now ≡ head_text }
{
    b"pallet-floor 1\n"
}

/// Appends the first line of a floor's text. After `Memory` `out` is as before.
#[tactic(auto, using(texts::proofs::Growth::cut_back))]
pub fn put_floor_head(out: &mut Vec<u8>) -> Result<(), Memory>
    ensures ok { OnOk result (out.new.items ≡ out.old.items ++ head_text) }
    ensures err { OnErr result (out.new.items ≡ out.old.items) }
{
    let len = out.len();
    match put_text(out, head_line()) {
        Ok(()) => Ok(()),
        Err(memory) => {
            out.truncate(len);
            Err(memory)
        }
    }
}

// The bytes after the first line.
pub(crate) fn after_head(bytes: &[u8]) -> Result<&[u8], LinesLeft>
    ensures read { GivesOrLeaves (λ x. whole_lines x.now) result (behind_line first_line (whole_lines bytes.now)) }
    ensures rest { IfOk result (λ x. unfinished x.now ≡ unfinished bytes.now) }
{
    let Some((line, rest)) = next_line(bytes) else {
        return Err(LinesLeft { count: 0 });
    };
    if line == b"pallet-floor 1".as_slice() {
        Ok(rest)
    } else {
        Err(LinesLeft {
            count: count_lines(bytes),
        })
    }
}
