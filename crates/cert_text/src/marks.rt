ghost use Rattle.std.specs.Prelude.{◌≡◌, IfOk, map, option_map};
ghost use Rattle.std.specs.List.{list_all};
ghost use Rattle.texts.specs.Gives.{GivesLine};
ghost use Rattle.cert_text.specs.Text.{mark_byte as byte_of};
ghost use Rattle.cert_text.specs.Words.{is_mark, mark_of as mark_at, are_marks as are_marks_in, tree_of};

use crate::limits::MOST_MARKS;
use std::alloc::{AllocError, Global};
use texts::LineStop;
use weightings::{Mark, Marks};

// The byte that stands for a mark.
pub(crate) fn mark_byte(mark: Mark) -> u8
    ensures { result ≡ byte_of mark }
{
    match mark {
        Mark::Branch => b'B',
        Mark::Leaf => b'.',
    }
}

// The mark for which a byte stands.
fn mark_of(byte: u8) -> Mark
    ensures { result ≡ mark_at byte }
{
    if byte == b'B' {
        Mark::Branch
    } else {
        Mark::Leaf
    }
}

// Whether each byte stands for a mark.
fn all_marks(bytes: &[u8]) -> bool
    ensures { result ≡ list_all is_mark bytes.now }
{
    bytes.iter().all(|b| *b == b'B' || *b == b'.')
}

// Whether the bytes are the marks of a tree.
fn are_marks(bytes: &[u8]) -> bool
    ensures { result ≡ are_marks_in bytes.now }
{
    !bytes.is_empty() && (bytes.len() <= MOST_MARKS && all_marks(bytes))
}

// The marks for which the bytes stand.
fn marks_of(alloc: Global, bytes: &[u8]) -> Result<Vec<Mark>, AllocError>
    ensures { IfOk result (λ v. v.items ≡ map mark_at bytes.now) }
{
    bytes.iter().map(|b| mark_of(*b)).collect(alloc)
}

// The bytes behind the first word of the line of a tree.
#[tactic(auto, unfolding(crate::specs::Words::tree_of))]
fn tree_bytes(line: &[u8]) -> Option<&[u8]>
    ensures { option_map (λ x. map mark_at x.now) result ≡ tree_of line.now }
{
    if line.len() < 5 {
        return None;
    }
    let (front, marks) = line.split_at(5);
    if front == b"tree ".as_slice() && are_marks(marks) {
        Some(marks)
    } else {
        None
    }
}

// The marks in the line of a tree.
pub(crate) fn tree_line(alloc: Global, line: &[u8]) -> Result<Marks, LineStop>
    ensures { GivesLine (λ t. t) result (tree_of line.now) }
{
    let Some(bytes) = tree_bytes(line) else {
        return Err(LineStop::Fault);
    };
    let marks = marks_of(alloc, bytes)?;
    Ok(Marks::new(marks))
}
