ghost use Rattle.std.specs.Prelude.{◌≡◌, ◌≤◌, IfOk};
ghost use Rattle.texts.specs.Grammar.{first_by};
ghost use Rattle.texts.specs.Gives.{GivesOrLeaves, GivesOption};
ghost use Rattle.texts.specs.Lines.{whole_lines, unfinished, words_left};
ghost use Rattle.texts.specs.Words.{word_by};
ghost use Rattle.report_text.specs.NextWords.{done_of, next_kind_of, next_number as next_number_of, next_of};
ghost use Rattle.report_text.specs.ReportLines.{form_of};

use cert_text::Form;
use texts::{LinesLeft, count_lines, is_end, next_line, next_word, skip_word, this_number_word};

/// What the line behind some entries of a report says.
#[derive(Clone, Copy, PartialEq, Eq, Debug)]
pub enum Next {
    /// There are no more.
    Done,
    /// An entry follows.
    More,
}

fn kind_word(words: Option<&[u8]>) -> Option<(Next, Option<&[u8]>)>
    ensures { GivesOption (λ x. (x.0, words_left x.1)) result (word_by next_kind_of (words_left words.entry)) }
{
    let (word, rest) = next_word(words)?;
    if word == b"done".as_slice() {
        Some((Next::Done, rest))
    } else if word == b"entry".as_slice() {
        Some((Next::More, rest))
    } else {
        None
    }
}

// The number behind the first word.
fn next_number(before: u32, next: Next) -> u64
    ensures { result ≡ next_number_of before next }
{
    match next {
        Next::Done => u64::from(before),
        Next::More => u64::from(before) + 1,
    }
}

// What the line behind so many entries says.
#[tactic(auto, unfolding(crate::specs::NextWords::next_at, crate::specs::NextWords::next_of))]
fn next_entry_line(before: u32, line: &[u8]) -> Option<Next>
    ensures { result ≡ next_of before line.now }
{
    let (next, rest) = kind_word(Some(line))?;
    let (_, rest) = this_number_word(rest, next_number(before, next))?;
    if is_end(rest) { Some(next) } else { None }
}

// How many entries there are, by the line behind them.
#[tactic(auto, unfolding(crate::specs::NextWords::done_at, crate::specs::NextWords::done_of))]
fn done_line(before: u32, line: &[u8]) -> Option<u64>
    ensures { result ≡ done_of before line.now }
{
    let rest = skip_word(Some(line), b"done")?;
    let (number, rest) = this_number_word(rest, u64::from(before))?;
    if is_end(rest) { Some(number) } else { None }
}

fn form_line(line: &[u8]) -> Option<Form>
    ensures { result ≡ form_of line.now }
{
    if line == b"pallet-report 1".as_slice() {
        Some(Form::One)
    } else if line == b"pallet-report 2".as_slice() {
        Some(Form::Two)
    } else {
        None
    }
}

pub(crate) fn next_at(before: u32, bytes: &[u8]) -> Result<(Next, &[u8]), LinesLeft>
    ensures read { GivesOrLeaves (λ x. (x.0, whole_lines x.1.now)) result (first_by (next_of before) (whole_lines bytes.now)) }
    ensures rest { IfOk result (λ x. unfinished x.1.now ≡ unfinished bytes.now) }
{
    let Some((line, rest)) = next_line(bytes) else {
        return Err(LinesLeft { count: 0 });
    };
    match next_entry_line(before, line) {
        Some(next) => Ok((next, rest)),
        None => Err(LinesLeft {
            count: count_lines(bytes),
        }),
    }
}

pub(crate) fn done_at(before: u32, bytes: &[u8]) -> Result<(u64, &[u8]), LinesLeft>
    ensures read { GivesOrLeaves (λ x. (x.0, whole_lines x.1.now)) result (first_by (done_of before) (whole_lines bytes.now)) }
    ensures rest { IfOk result (λ x. unfinished x.1.now ≡ unfinished bytes.now) }
{
    let Some((line, rest)) = next_line(bytes) else {
        return Err(LinesLeft { count: 0 });
    };
    match done_line(before, line) {
        Some(number) => Ok((number, rest)),
        None => Err(LinesLeft {
            count: count_lines(bytes),
        }),
    }
}

pub(crate) fn form_at(bytes: &[u8]) -> Result<(Form, &[u8]), LinesLeft>
    ensures read { GivesOrLeaves (λ x. (x.0, whole_lines x.1.now)) result (first_by form_of (whole_lines bytes.now)) }
    ensures rest { IfOk result (λ x. unfinished x.1.now ≡ unfinished bytes.now) }
{
    let Some((line, rest)) = next_line(bytes) else {
        return Err(LinesLeft { count: 0 });
    };
    match form_line(line) {
        Some(form) => Ok((form, rest)),
        None => Err(LinesLeft {
            count: count_lines(bytes),
        }),
    }
}
