ghost use Rattle.texts.specs.Gives.{GivesLine};
ghost use Rattle.std.specs.Prelude.{◌≡◌};
ghost use Rattle.cert_text.specs.Ranges.{are_rising as are_rising_value};
ghost use Rattle.cert_text.specs.Words.{row_of, lines_of};

use line_tables::LINES_END;
use std::alloc::Global;
use texts::{LineStop, is_end, number_words, skip_word};
use weightings::MOST_WEIGHT;

// The weights of a row of so many cells.
#[tactic(auto, unfolding(crate::specs::Words::row_at, crate::specs::Words::row_of))]
pub(crate) fn row_line(alloc: Global, x_side: u32, line: &[u8]) -> Result<Vec<u32>, LineStop>
    ensures { GivesLine (λ v. v.items) result (row_of x_side line.now) }
{
    let Some(rest) = skip_word(Some(line), b"row") else {
        return Err(LineStop::Fault);
    };
    let (cells, rest) = number_words(alloc, rest, x_side, MOST_WEIGHT)?;
    if is_end(rest) {
        Ok(cells)
    } else {
        Err(LineStop::Fault)
    }
}

// Whether each number is below the next.
fn are_rising(lines: &[u32]) -> bool
    ensures { result ≡ are_rising_value lines.now }
{
    lines.is_sorted_by(|line, next| *line < *next)
}

// The lines of an axis, so many, behind the word for them.
#[tactic(auto, unfolding(crate::specs::Words::lines_at, crate::specs::Words::lines_of))]
pub(crate) fn axis_line(
    alloc: Global,
    name: &[u8],
    count: u32,
    line: &[u8],
) -> Result<Vec<u32>, LineStop>
    ensures { GivesLine (λ v. v.items) result (lines_of name.now count line.now) }
{
    let Some(rest) = skip_word(Some(line), name) else {
        return Err(LineStop::Fault);
    };
    let (lines, rest) = number_words(alloc, rest, count, LINES_END - 1)?;
    if are_rising(lines.as_slice()) && is_end(rest) {
        Ok(lines)
    } else {
        Err(LineStop::Fault)
    }
}
