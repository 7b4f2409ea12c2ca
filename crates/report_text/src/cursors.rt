ghost use Rattle.std.specs.Prelude.{◌≡◌, ℕ, ◌++◌, List, length, IfOk};
ghost use Rattle.plan_entries.specs.Ranges.{IsInRange};
ghost use Rattle.plan_entries.specs.declared.entries.Entry.{Entry};
ghost use Rattle.report_text.specs.Text.{entry_text, BeginsWithEntry};

use crate::entries::entry_from;
use cert_text::Form;
use plan_entries::Entry;
use plan_memory::Memory;
use std::alloc::Global;
use std::marker::Model;
use texts::Stop;

/// The entries of a report's text that are still to be read. Contracts see the form, and the list of these entries.
#[derive(Drop)]
pub struct Entries<'a> {
    form: Form,
    before: u32,
    left: u32,
    rest: &'a [u8],
}

impl<'a> Model for Entries<'a> {
    ghost use Rattle.report_text.specs.Reports.{Report};

    ghost Value = { Report };

    ghost use Rattle.report_text.specs.Cursors.{entries_in, IsRest};

    ghost view = { λ a. record { form = a.form; entries = entries_in a.form a.left a.before a.rest.now } };

    ghost invariant = { λ a. IsRest a.form a.left a.before a.rest.now };
}

// The entry whose text is at the front, and the bytes behind it.
fn entry_of_text(alloc: Global, form: Form, bytes: &[u8]) -> Result<(Entry, &[u8]), Memory>
    requires { BeginsWithEntry form bytes.now }
    ensures { (e : Entry) (behind : List ℕ) → IsInRange form e → bytes.now ≡ entry_text form e ++ behind → IfOk result (λ x. (x.0 ≡ e) × (x.1.now ≡ behind)) }
{
    match entry_from(alloc, bytes, form) {
        Ok((entry, rest)) => Ok((entry, rest)),
        Err(Stop::Memory) => Err(Memory),
        Err(Stop::Left(_)) => unreachable!(),
    }
}

impl<'a> Entries<'a> {
    ghost use Rattle.report_text.specs.Cursors.{entries_in, IsRest};
    ghost use Rattle.report_text.specs.ReportAnswers.{Yields};

    // So many entries, from the first on.
    pub(crate) fn new(form: Form, left: u32, rest: &'a [u8]) -> Entries<'a>
        requires { IsRest form left 0 rest.now }
        ensures form { result.form ≡ form }
        ensures entries { result.entries ≡ entries_in form left 0 rest.now }
    {
        Entries {
            form,
            before: 0,
            left,
            rest,
        }
    }

    /// The form of the report.
    pub fn form(&self) -> Form
        ensures { result ≡ self.now.form }
    {
        self.form
    }

    /// How many entries are still to be read.
    pub fn left(&self) -> u32
        ensures { result ≡ length self.now.entries }
    {
        self.left
    }

    /// The next entry; None exactly where none is left. After `Memory` the same entries are left.
    pub fn next(&mut self, alloc: Global) -> Result<Option<Entry>, Memory>
        ensures { Yields self.old self.new result }
    {
        if self.left == 0 {
            return Ok(None);
        }
        let (entry, rest) = entry_of_text(alloc, self.form, self.rest)?;
        self.before += 1;
        self.left -= 1;
        self.rest = rest;
        Ok(Some(entry))
    }
}
