ghost use Rattle.std.specs.Prelude.{◌≤◌, ◌++◌, decimal};
ghost use Rattle.texts.specs.Puts.{Puts};

use plan_io::put_number;
use plan_memory::Memory;

/// Appends a text. After `Memory` the old text still stands in front.
pub fn put_text(out: &mut Vec<u8>, text: &[u8]) -> Result<(), Memory>
    ensures { Puts out.old.items out.new.items text.now result }
{
    match out.extend_from_slice(text) {
        Ok(()) => Ok(()),
        Err(_) => Err(Memory),
    }
}

/// Appends a text and a number. After `Memory` the old text still stands in front.
#[tactic(auto, using(crate::proofs::Growth::grows_after))]
pub fn put_named(out: &mut Vec<u8>, name: &[u8], number: u64) -> Result<(), Memory>
    requires { number ≤ 9999999999 }
    ensures { Puts out.old.items out.new.items (name.now ++ decimal number) result }
{
    put_text(out, name)?;
    put_number(out, number)
}
