ghost use Rattle.floor_text.specs.declared.rows.FloorRow.{FloorRow};

use crate::readers::row_from;
use crate::rows::FloorRow;
use plan_memory::Memory;
use std::alloc::Global;
use std::marker::Model;
use texts::Stop;

/// The rows of a floor's text that are still to be read. Contracts see the list of these rows.
#[derive(Drop)]
pub struct Rows<'a> {
    before: u32,
    left: u32,
    rest: &'a [u8],
}

impl<'a> Model for Rows<'a> {
    ghost use Rattle.std.specs.Prelude.{List};
    ghost use Rattle.floor_text.specs.declared.rows.FloorRow.{FloorRow};

    ghost Value = { List FloorRow };

    ghost use Rattle.floor_text.specs.Cursors.{rows_in, AreInFront};

    ghost view = { λ a. rows_in a.left a.before a.rest.now };

    ghost invariant = { λ a. AreInFront a.left a.before a.rest.now };
}

impl<'a> Rows<'a> {
    ghost use Rattle.std.specs.Prelude.{◌≡◌, length};
    ghost use Rattle.floor_text.specs.Cursors.{rows_in, AreInFront};
    ghost use Rattle.floor_text.specs.Answers.{YieldsRow};

    // So many rows, which are in front of the bytes, from the first on.
    pub(crate) fn new(left: u32, rest: &'a [u8]) -> Rows<'a>
        requires { AreInFront left 0 rest.now }
        ensures { result ≡ rows_in left 0 rest.now }
    {
        Rows {
            before: 0,
            left,
            rest,
        }
    }

    /// How many rows are still to be read.
    pub fn left(&self) -> u32
        ensures { result ≡ length self.now }
    {
        self.left
    }

    /// The next row; None exactly where none is left. After `Memory` the same rows are left.
    pub fn next(&mut self, alloc: Global) -> Result<Option<FloorRow>, Memory>
        ensures { YieldsRow self.old self.new result }
    {
        if self.left == 0 {
            return Ok(None);
        }
        match row_from(alloc, self.rest, self.before) {
            Ok((row, rest)) => {
                self.before += 1;
                self.left -= 1;
                self.rest = rest;
                Ok(Some(row))
            }
            Err(Stop::Memory) => Err(Memory),
            Err(Stop::Left(_)) => unreachable!(),
        }
    }
}
