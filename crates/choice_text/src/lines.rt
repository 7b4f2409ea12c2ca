ghost use Rattle.std.specs.Prelude.{◌≡◌, codes, IfOk};
ghost use Rattle.texts.specs.Grammar.{first_by};
ghost use Rattle.texts.specs.Gives.{GivesOrLeaves};
ghost use Rattle.texts.specs.Lines.{whole_lines, unfinished};
ghost use Rattle.choice_text.specs.Words.{numbered_of};
ghost use Rattle.choice_text.specs.Lines.{entry_follows as entry_in_front};

use texts::{LinesLeft, count_lines, is_end, next_line, skip_word, this_number_word};

// The number, if the line is the word and it.
#[tactic(auto, unfolding(crate::specs::Words::numbered_at, crate::specs::Words::numbered_of))]
fn numbered_line(line: &[u8], word: &[u8], number: u32) -> Option<u64>
    ensures { result ≡ numbered_of word.now number line.now }
{
    let rest = skip_word(Some(line), word)?;
    let (number, rest) = this_number_word(rest, u64::from(number))?;
    if is_end(rest) { Some(number) } else { None }
}

/// Whether the first line is that of the entry of this number.
pub fn entry_follows(bytes: &[u8], number: u32) -> bool
    ensures { result ≡ entry_in_front number (whole_lines bytes.now) }
{
    match next_line(bytes) {
        Some((line, _)) => numbered_line(line, b"entry", number).is_some(),
        None => false,
    }
}

/// The number of entries, by the last line of a text that has this number, and the bytes after it. At any other line it
/// answers how many lines are left, that one among them.
pub fn done_at(bytes: &[u8], count: u32) -> Result<(u64, &[u8]), LinesLeft>
    ensures read { GivesOrLeaves (λ x. (x.0, whole_lines x.1.now)) result (first_by (numbered_of (codes "done") count) (whole_lines bytes.now)) }
    ensures rest { IfOk result (λ x. unfinished x.1.now ≡ unfinished bytes.now) }
{
    let Some((line, rest)) = next_line(bytes) else {
        return Err(LinesLeft { count: 0 });
    };
    match numbered_line(line, b"done", count) {
        Some(number) => Ok((number, rest)),
        None => Err(LinesLeft {
            count: count_lines(bytes),
        }),
    }
}
