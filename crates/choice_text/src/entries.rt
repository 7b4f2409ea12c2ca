ghost use Rattle.std.specs.Prelude.{◌≡◌, IfOk};
ghost use Rattle.texts.specs.Gives.{Gives};
ghost use Rattle.texts.specs.Lines.{whole_lines, unfinished};
ghost use Rattle.choice_text.specs.Lines.{all_entries_at, entries_counted};

use crate::cursors::Entries;
use crate::lines::entry_follows;
use cert_text::Form;
use report_text::entry_from;
use std::alloc::Global;
use texts::Stop;

/// The most entries of a choice.
const MOST_ENTRIES: u32 = 256;

// How many entries follow one after another, and the bytes after them.
fn count_entries(alloc: Global, bytes: &[u8]) -> Result<(u32, &[u8]), Stop>
    ensures read { Gives (λ x. (x.0, whole_lines x.1.now)) result (entries_counted (whole_lines bytes.now)) }
    ensures rest { IfOk result (λ x. unfinished x.1.now ≡ unfinished bytes.now) }
{
    let mut rest = bytes;
    for before in 0..MOST_ENTRIES {
        if !entry_follows(rest, before + 1) {
            return Ok((before, rest));
        }
        let (_entry, after) = entry_from(alloc, rest, Form::Two)?;
        rest = after;
    }
    Ok((MOST_ENTRIES, rest))
}

// The entries that follow one after another, and the bytes after them.
pub(crate) fn entries_at(alloc: Global, bytes: &[u8]) -> Result<(Entries<'_>, &[u8]), Stop>
    ensures read { Gives (λ x. (x.0, whole_lines x.1.now)) result (all_entries_at (whole_lines bytes.now)) }
    ensures rest { IfOk result (λ x. unfinished x.1.now ≡ unfinished bytes.now) }
{
    let (count, rest) = count_entries(alloc, bytes)?;
    Ok((Entries::new(count, bytes), rest))
}
