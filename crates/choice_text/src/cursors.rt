ghost use Rattle.plan_entries.specs.declared.entries.Entry.{Entry};

use cert_text::Form;
use plan_entries::Entry;
use plan_memory::Memory;
use report_text::entry_from;
use std::alloc::Global;
use std::marker::Model;
use texts::Stop;

/// The entries of a choice's text that are still to be read. Contracts see the list of these entries.
#[derive(Drop)]
pub struct Entries<'a> {
    left: u32,
    rest: &'a [u8],
}

impl<'a> Model for Entries<'a> {
    ghost use Rattle.std.specs.Prelude.{List};
    ghost use Rattle.plan_entries.specs.declared.entries.Entry.{Entry};

    ghost Value = { List Entry };

    ghost use Rattle.choice_text.specs.Cursors.{entries_in, AreInFront};

    ghost view = { λ a. entries_in a.left a.rest.now };

    ghost invariant = { λ a. AreInFront a.left a.rest.now };
}

impl<'a> Entries<'a> {
    ghost use Rattle.std.specs.Prelude.{◌≡◌, length};
    ghost use Rattle.choice_text.specs.Cursors.{entries_in, AreInFront};
    ghost use Rattle.choice_text.specs.Answers.{YieldsEntry};

    // So many entries, which are in front of the bytes.
    pub(crate) fn new(left: u32, rest: &'a [u8]) -> Entries<'a>
        requires { AreInFront left rest.now }
        ensures { result ≡ entries_in left rest.now }
    {
        Entries { left, rest }
    }

    /// How many entries are still to be read.
    pub fn left(&self) -> u32
        ensures { result ≡ length self.now }
    {
        self.left
    }

    /// The next entry; None exactly where none is left. After `Memory` the same entries are left.
    pub fn next(&mut self, alloc: Global) -> Result<Option<Entry>, Memory>
        ensures { YieldsEntry self.old self.new result }
    {
        if self.left == 0 {
            return Ok(None);
        }
        match entry_from(alloc, self.rest, Form::Two) {
            Ok((entry, rest)) => {
                self.left -= 1;
                self.rest = rest;
                Ok(Some(entry))
            }
            Err(Stop::Memory) => Err(Memory),
            Err(Stop::Left(_)) => unreachable!(),
        }
    }
}
