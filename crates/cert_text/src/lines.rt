ghost use Rattle.std.specs.Prelude.{true, ◌≡◌, ◌++◌, ℕ, List, length, IfOk};
ghost use Rattle.texts.specs.Grammar.{first_by};
ghost use Rattle.texts.specs.Gives.{Gives, GivesOrLeaves};
ghost use Rattle.texts.specs.Lines.{whole_lines, unfinished};
ghost use Rattle.texts.specs.Spelling.{FaultsAt, IsInFront};
ghost use Rattle.weightings.specs.declared.certs.Cert.{Cert};
ghost use Rattle.cert_text.specs.Words.{is_weight_line, weight_line_of, row_of, lines_of, tree_of, cut_of, head_of};
ghost use Rattle.cert_text.specs.Lines.{rows_from, weighting_of, weighting_from, cuts_from, body_of, cert_at};
ghost use Rattle.cert_text.specs.Ranges.{InRange};
ghost use Rattle.cert_text.specs.Text.{cert_lines, cert_text};
ghost use Rattle.cert_text.specs.Answers.{GivesCert, IfLine};

use crate::forms::Form;
use crate::marks::tree_line;
use crate::rows::{axis_line, row_line};
use crate::words::{Head, WeightLine, cut_line, head_line, weight_line};
use line_tables::LineTable;
use std::alloc::Global;
use texts::{LineStop, LinesLeft, Stop, count_lines, next_line};
use weightings::{Cert, Marks, StripCert, StripCut, WeightTable, Weighting};

/// Why no certificate was got.
#[derive(Clone, Copy, PartialEq, Eq, Debug)]
pub enum CertFault {
    /// Memory was refused.
    Memory,
    /// The first line, from 1, with which no certificate's text goes on.
    Line(u32),
}

fn head_at(form: Form, bytes: &[u8]) -> Result<(Head, &[u8]), LinesLeft>
    ensures read { GivesOrLeaves (λ x. (x.0, whole_lines x.1.now)) result (first_by (head_of form) (whole_lines bytes.now)) }
    ensures rest { IfOk result (λ x. unfinished x.1.now ≡ unfinished bytes.now) }
{
    let Some((line, rest)) = next_line(bytes) else {
        return Err(LinesLeft { count: 0 });
    };
    match head_line(form, line) {
        Some(head) => Ok((head, rest)),
        None => Err(LinesLeft {
            count: count_lines(bytes),
        }),
    }
}

fn weight_line_at(form: Form, bytes: &[u8]) -> Result<(WeightLine, &[u8]), LinesLeft>
    ensures read { GivesOrLeaves (λ x. (x.0, whole_lines x.1.now)) result (first_by (weight_line_of form) (whole_lines bytes.now)) }
    ensures rest { IfOk result (λ x. unfinished x.1.now ≡ unfinished bytes.now) }
{
    let Some((line, rest)) = next_line(bytes) else {
        return Err(LinesLeft { count: 0 });
    };
    match weight_line(form, line) {
        Some(found) => Ok((found, rest)),
        None => Err(LinesLeft {
            count: count_lines(bytes),
        }),
    }
}

fn row_at(alloc: Global, x_side: u32, bytes: &[u8]) -> Result<(Vec<u32>, &[u8]), Stop>
    ensures read { Gives (λ x. (x.0.items, whole_lines x.1.now)) result (first_by (row_of x_side) (whole_lines bytes.now)) }
    ensures rest { IfOk result (λ x. unfinished x.1.now ≡ unfinished bytes.now) }
{
    let Some((line, rest)) = next_line(bytes) else {
        return Err(Stop::Left(0));
    };
    match row_line(alloc, x_side, line) {
        Ok(row) => Ok((row, rest)),
        Err(LineStop::Memory) => Err(Stop::Memory),
        Err(LineStop::Fault) => Err(Stop::Left(count_lines(bytes))),
    }
}

fn rows_at(alloc: Global, x_side: u32, count: u32, bytes: &[u8]) -> Result<(Vec<u32>, &[u8]), Stop>
    ensures read { Gives (λ x. (x.0.items, whole_lines x.1.now)) result (rows_from x_side count (whole_lines bytes.now)) }
    ensures rest { IfOk result (λ x. unfinished x.1.now ≡ unfinished bytes.now) }
{
    let mut cells = Vec::new(alloc);
    let mut rest = bytes;
    for _place in 0..count {
        let (mut row, after) = row_at(alloc, x_side, rest)?;
        cells.append(&mut row)?;
        rest = after;
    }
    Ok((cells, rest))
}

// The table of so many rows.
#[tactic(auto, unfolding(crate::specs::Lines::weighting_of))]
fn table_at(
    alloc: Global,
    form: Form,
    x: u32,
    y: u32,
    bytes: &[u8],
) -> Result<(Weighting, &[u8]), Stop>
    requires { is_weight_line form (WeightLine.Table x y) ≡ true }
    ensures read { Gives (λ w. (w.0, whole_lines w.1.now)) result (weighting_of (WeightLine.Table x y) (whole_lines bytes.now)) }
    ensures rest { IfOk result (λ w. unfinished w.1.now ≡ unfinished bytes.now) }
{
    let (cells, rest) = rows_at(alloc, x, y, bytes)?;
    match WeightTable::new(x, y, cells) {
        Some(table) => Ok((Weighting::Table(table), rest)),
        None => unreachable!(),
    }
}

fn lines_at<'a>(
    alloc: Global,
    name: &[u8],
    count: u32,
    bytes: &'a [u8],
) -> Result<(Vec<u32>, &'a [u8]), Stop>
    ensures read { Gives (λ x. (x.0.items, whole_lines x.1.now)) result (first_by (lines_of name.now count) (whole_lines bytes.now)) }
    ensures rest { IfOk result (λ x. unfinished x.1.now ≡ unfinished bytes.now) }
{
    let Some((line, rest)) = next_line(bytes) else {
        return Err(Stop::Left(0));
    };
    match axis_line(alloc, name, count, line) {
        Ok(lines) => Ok((lines, rest)),
        Err(LineStop::Memory) => Err(Stop::Memory),
        Err(LineStop::Fault) => Err(Stop::Left(count_lines(bytes))),
    }
}

// The table on so many columns and rows.
#[tactic(auto, unfolding(crate::specs::Lines::weighting_of))]
fn line_table_at(
    alloc: Global,
    form: Form,
    column_count: u32,
    row_count: u32,
    bytes: &[u8],
) -> Result<(Weighting, &[u8]), Stop>
    requires { is_weight_line form (WeightLine.Lines column_count row_count) ≡ true }
    ensures read { Gives (λ w. (w.0, whole_lines w.1.now)) result (weighting_of (WeightLine.Lines column_count row_count) (whole_lines bytes.now)) }
    ensures rest { IfOk result (λ w. unfinished w.1.now ≡ unfinished bytes.now) }
{
    let (columns, rest) = lines_at(alloc, b"columns", column_count, bytes)?;
    let (rows, rest) = lines_at(alloc, b"rows", row_count, rest)?;
    let (quarter, rest) = rows_at(alloc, column_count.div_ceil(2), row_count.div_ceil(2), rest)?;
    match LineTable::new(alloc, columns, rows, quarter)? {
        Some(table) => Ok((Weighting::Lines(table), rest)),
        None => unreachable!(),
    }
}

#[tactic(auto, unfolding(crate::specs::Lines::weighting_of, crate::specs::Lines::weighting_from))]
fn weighting_at(alloc: Global, form: Form, bytes: &[u8]) -> Result<(Weighting, &[u8]), Stop>
    ensures read { Gives (λ x. (x.0, whole_lines x.1.now)) result (weighting_from form (whole_lines bytes.now)) }
    ensures rest { IfOk result (λ x. unfinished x.1.now ≡ unfinished bytes.now) }
{
    let (line, rest) = weight_line_at(form, bytes)?;
    match line {
        WeightLine::Area => Ok((Weighting::Area, rest)),
        WeightLine::Colour { k, c } => Ok((Weighting::Colour { k, c }, rest)),
        WeightLine::Comb { p, a, r, b } => Ok((Weighting::Comb { p, a, r, b }, rest)),
        WeightLine::Table { x, y } => table_at(alloc, form, x, y, rest),
        WeightLine::Lines { columns, rows } => line_table_at(alloc, form, columns, rows, rest),
    }
}

fn tree_at(alloc: Global, bytes: &[u8]) -> Result<(Marks, &[u8]), Stop>
    ensures read { Gives (λ x. (x.0, whole_lines x.1.now)) result (first_by tree_of (whole_lines bytes.now)) }
    ensures rest { IfOk result (λ x. unfinished x.1.now ≡ unfinished bytes.now) }
{
    let Some((line, rest)) = next_line(bytes) else {
        return Err(Stop::Left(0));
    };
    match tree_line(alloc, line) {
        Ok(tree) => Ok((tree, rest)),
        Err(LineStop::Memory) => Err(Stop::Memory),
        Err(LineStop::Fault) => Err(Stop::Left(count_lines(bytes))),
    }
}

fn cut_at(place: u32, bytes: &[u8]) -> Result<(StripCut, &[u8]), LinesLeft>
    ensures read { GivesOrLeaves (λ x. (x.0, whole_lines x.1.now)) result (first_by (cut_of place) (whole_lines bytes.now)) }
    ensures rest { IfOk result (λ x. unfinished x.1.now ≡ unfinished bytes.now) }
{
    let Some((line, rest)) = next_line(bytes) else {
        return Err(LinesLeft { count: 0 });
    };
    match cut_line(line, place) {
        Some(cut) => Ok((cut, rest)),
        None => Err(LinesLeft {
            count: count_lines(bytes),
        }),
    }
}

fn cuts_at(alloc: Global, count: u32, bytes: &[u8]) -> Result<(Vec<StripCut>, &[u8]), Stop>
    ensures read { Gives (λ x. (x.0.items, whole_lines x.1.now)) result (cuts_from count 0 (whole_lines bytes.now)) }
    ensures rest { IfOk result (λ x. unfinished x.1.now ≡ unfinished bytes.now) }
{
    let mut cuts = Vec::new(alloc);
    let mut rest = bytes;
    for place in 0..count {
        let (cut, after) = cut_at(place, rest)?;
        cuts.push(cut)?;
        rest = after;
    }
    Ok((cuts, rest))
}

#[tactic(auto, unfolding(crate::specs::Lines::body_of))]
fn body_at(alloc: Global, form: Form, head: Head, bytes: &[u8]) -> Result<(Cert, &[u8]), Stop>
    ensures read { Gives (λ x. (x.0, whole_lines x.1.now)) result (body_of form head (whole_lines bytes.now)) }
    ensures rest { IfOk result (λ x. unfinished x.1.now ≡ unfinished bytes.now) }
{
    match head {
        Head::Weighted => {
            let (weighting, rest) = weighting_at(alloc, form, bytes)?;
            let (tree, rest) = tree_at(alloc, rest)?;
            Ok((Cert::Weighted { weighting, tree }, rest))
        }
        Head::Strip { count } => {
            let (cuts, rest) = cuts_at(alloc, count, bytes)?;
            Ok((Cert::Strip(StripCert::new(cuts)), rest))
        }
        Head::GivenArea => Ok((Cert::GivenArea, bytes)),
    }
}

/// The certificate whose text of the form is at the front, and the bytes behind it; or how many lines were left
/// at the first fault.
#[tactic(auto, unfolding(crate::specs::Lines::cert_at))]
pub fn cert_from(alloc: Global, bytes: &[u8], form: Form) -> Result<(Cert, &[u8]), Stop>
    ensures read { Gives (λ x. (x.0, whole_lines x.1.now)) result (cert_at form (whole_lines bytes.now)) }
    ensures rest { IfOk result (λ x. unfinished x.1.now ≡ unfinished bytes.now) }
{
    let (head, rest) = head_at(form, bytes)?;
    body_at(alloc, form, head, rest)
}

/// The certificate whose text of the form is at the front, and the text's length. `CertFault::Line` exactly where
/// no text is at the front, with the first line, from 1, with which none goes on.
pub fn get_cert(alloc: Global, bytes: &[u8], form: Form) -> Result<(Cert, usize), CertFault>
    // What is got is in range, and its text is at the front.
    ensures found { IfOk result (λ x. IsInFront cert_lines (InRange form) bytes.now x.0 x.1) }
    // Where some text is at the front, its certificate is got, unless memory is refused.
    ensures only { (c : Cert) (behind : List ℕ) → InRange form c → bytes.now ≡ cert_text c ++ behind → GivesCert c (length (cert_text c)) result }
    // A fault names the first line with which no text goes on.
    ensures fault { IfLine result (FaultsAt cert_lines (InRange form) bytes.now) }
{
    match cert_from(alloc, bytes, form) {
        Ok((cert, rest)) => {
            let len = bytes.len() - rest.len();
            Ok((cert, len))
        }
        Err(Stop::Memory) => Err(CertFault::Memory),
        Err(Stop::Left(left)) => {
            let line = count_lines(bytes) - left + 1;
            Err(CertFault::Line(line as u32))
        }
    }
}
