ghost use Rattle.std.specs.Prelude.{◌≡◌, ◌++◌, ◌≤◌, OnOk, OnErr};
ghost use Rattle.texts.specs.Puts.{Puts};
ghost use Rattle.cert_text.specs.declared.forms.Form.TheVariants as forms;
ghost use Rattle.report_text.specs.Reports.{head_text, done_text};

use plan_memory::Memory;
use texts::{put_named, put_text};

/// The first line of a report in today's form.
pub fn head_line() -> &'static [u8]
    ensures { result.now ≡ head_text forms.Two }
{
    b"pallet-report 2\n"
}

/// Appends the first line of a report in today's form. After `Memory` `out` is as before.
#[tactic(auto, using(texts::proofs::Growth::cut_back))]
pub fn put_head(out: &mut Vec<u8>) -> Result<(), Memory>
    ensures ok { OnOk result (out.new.items ≡ out.old.items ++ head_text forms.Two) }
    ensures err { OnErr result (out.new.items ≡ out.old.items) }
{
    let len = out.len();
    match put_text(out, head_line()) {
        Ok(()) => Ok(()),
        Err(memory) => {
            out.truncate(len);
            Err(memory)
        }
    }
}

// Appends the last line of a report, or a part of it.
#[tactic(auto, using(texts::proofs::Growth::grows_after))]
fn put_done_line(out: &mut Vec<u8>, count: u32) -> Result<(), Memory>
    ensures { Puts out.old.items out.new.items (done_text count) result }
{
    put_named(out, b"done ", u64::from(count))?;
    put_text(out, b"\n")
}

/// Appends the last line of a report of so many entries. After `Memory` `out` is as before.
#[tactic(auto, using(texts::proofs::Growth::cut_back))]
pub fn put_done(out: &mut Vec<u8>, count: u32) -> Result<(), Memory>
    ensures ok { OnOk result (out.new.items ≡ out.old.items ++ done_text count) }
    ensures err { OnErr result (out.new.items ≡ out.old.items) }
{
    let len = out.len();
    match put_done_line(out, count) {
        Ok(()) => Ok(()),
        Err(memory) => {
            out.truncate(len);
            Err(memory)
        }
    }
}
