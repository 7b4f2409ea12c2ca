ghost use Rattle.std.specs.Prelude.{◌≡◌, ◌&&◌, nat_le, nat_lt, Some, None};
ghost use Rattle.texts.specs.Gives.{GivesOption};
ghost use Rattle.texts.specs.Lines.{words_left};
ghost use Rattle.texts.specs.Words.{word_by};
ghost use Rattle.cert_text.specs.Ranges.{are_sides as are_sides_value, are_counts as are_counts_value};
ghost use Rattle.cert_text.specs.Words.{is_weight_line as is_weight_line_value, kind_of, weight_line_of_kind, weight_line_of, cut_kind_of, cut_of_kind, cut_of, head_kind_of, head_of_kind, head_of};

use crate::forms::{Form, has_tables, most_cuts};
use crate::limits::{MOST_QUANTITY, MOST_SIDE};
use line_tables::MOST_LISTED;
use texts::{is_end, next_word, number_word, skip_word, this_number_word};
use weightings::{MOST_CELLS, StripCut};

/// What the first line of a certificate says.
#[derive(Clone, Copy, PartialEq, Eq, Debug)]
pub enum Head {
    Weighted,
    Strip { count: u32 },
    GivenArea,
}

/// The second word of the first line of a certificate.
#[derive(Clone, Copy, PartialEq, Eq, Debug)]
pub enum HeadKind {
    Weighted,
    Strip,
    GivenArea,
}

/// What the first line of a weighting says.
#[derive(Clone, Copy, PartialEq, Eq, Debug)]
pub enum WeightLine {
    Area,
    Colour { k: u32, c: u32 },
    Comb { p: u32, a: u32, r: u32, b: u32 },
    Table { x: u32, y: u32 },
    Lines { columns: u32, rows: u32 },
}

/// The second word of the first line of a weighting.
#[derive(Clone, Copy, PartialEq, Eq, Debug)]
pub enum Kind {
    Area,
    Colour,
    Comb,
    Table,
    Lines,
}

/// The third word of the line of a cut.
#[derive(Clone, Copy, PartialEq, Eq, Debug)]
pub enum CutKind {
    Area,
    X,
    Y,
}

// The greatest side, as a number in a text.
const MOST_NUMBER: u64 = MOST_SIDE as u64;

// Whether a colour has a text.
pub(crate) fn is_colour(k: u32, c: u32) -> bool
    ensures { result ≡ (nat_le 1 k && (nat_le k 4000 && nat_lt c k)) }
{
    1 <= k && (k <= MOST_SIDE && c < k)
}

// Whether a comb has a text.
pub(crate) fn is_comb(p: u32, a: u32, r: u32, b: u32) -> bool
    ensures { result ≡ (nat_le 1 p && (nat_le p 4000 && (nat_lt a p && (nat_le 1 r && (nat_le r 4000 && nat_lt b r))))) }
{
    1 <= p && (p <= MOST_SIDE && (a < p && (1 <= r && (r <= MOST_SIDE && b < r))))
}

// Whether a table of these sides has a text.
pub(crate) fn are_sides(x: u32, y: u32) -> bool
    ensures { result ≡ are_sides_value x y }
{
    1 <= x
        && (x <= MOST_SIDE
            && (1 <= y && (y <= MOST_SIDE && u64::from(x) * u64::from(y) <= MOST_CELLS)))
}

// Whether a table on so many columns and rows has a text.
pub(crate) fn are_counts(columns: u32, rows: u32) -> bool
    ensures { result ≡ are_counts_value columns rows }
{
    1 <= columns
        && (columns <= MOST_SIDE
            && (1 <= rows
                && (rows <= MOST_SIDE
                    && (columns.div_ceil(2) * rows.div_ceil(2)) as usize <= MOST_LISTED)))
}

// Whether the first line of a weighting is within the form's ranges.
fn is_weight_line(form: Form, line: WeightLine) -> bool
    ensures { result ≡ is_weight_line_value form line }
{
    match line {
        WeightLine::Area => true,
        WeightLine::Colour { k, c } => is_colour(k, c),
        WeightLine::Comb { p, a, r, b } => is_comb(p, a, r, b),
        WeightLine::Table { x, y } => has_tables(form) && are_sides(x, y),
        WeightLine::Lines { columns, rows } => has_tables(form) && are_counts(columns, rows),
    }
}

fn kind_word(words: Option<&[u8]>) -> Option<(Kind, Option<&[u8]>)>
    ensures { GivesOption (λ x. (x.0, words_left x.1)) result (word_by kind_of (words_left words.entry)) }
{
    let (word, rest) = next_word(words)?;
    if word == b"area".as_slice() {
        Some((Kind::Area, rest))
    } else if word == b"colour".as_slice() {
        Some((Kind::Colour, rest))
    } else if word == b"comb".as_slice() {
        Some((Kind::Comb, rest))
    } else if word == b"table".as_slice() {
        Some((Kind::Table, rest))
    } else if word == b"lines".as_slice() {
        Some((Kind::Lines, rest))
    } else {
        None
    }
}

// The numbers of a colour.
#[tactic(auto, unfolding(crate::specs::Words::weight_line_of_kind))]
fn colour_words(form: Form, words: Option<&[u8]>) -> Option<(WeightLine, Option<&[u8]>)>
    ensures { GivesOption (λ x. (x.0, words_left x.1)) result (weight_line_of_kind form Kind.Colour (words_left words.entry)) }
{
    let (k, rest) = number_word(words, MOST_NUMBER)?;
    let (c, rest) = number_word(rest, MOST_NUMBER)?;
    let line = WeightLine::Colour {
        k: k as u32,
        c: c as u32,
    };
    if is_weight_line(form, line) {
        Some((line, rest))
    } else {
        None
    }
}

// The numbers of a comb.
#[tactic(auto, unfolding(crate::specs::Words::weight_line_of_kind))]
fn comb_words(form: Form, words: Option<&[u8]>) -> Option<(WeightLine, Option<&[u8]>)>
    ensures { GivesOption (λ x. (x.0, words_left x.1)) result (weight_line_of_kind form Kind.Comb (words_left words.entry)) }
{
    let (p, rest) = number_word(words, MOST_NUMBER)?;
    let (a, rest) = number_word(rest, MOST_NUMBER)?;
    let (r, rest) = number_word(rest, MOST_NUMBER)?;
    let (b, rest) = number_word(rest, MOST_NUMBER)?;
    let line = WeightLine::Comb {
        p: p as u32,
        a: a as u32,
        r: r as u32,
        b: b as u32,
    };
    if is_weight_line(form, line) {
        Some((line, rest))
    } else {
        None
    }
}

// The sides of a table.
#[tactic(auto, unfolding(crate::specs::Words::weight_line_of_kind))]
fn table_words(form: Form, words: Option<&[u8]>) -> Option<(WeightLine, Option<&[u8]>)>
    ensures { GivesOption (λ x. (x.0, words_left x.1)) result (weight_line_of_kind form Kind.Table (words_left words.entry)) }
{
    let (x, rest) = number_word(words, MOST_NUMBER)?;
    let (y, rest) = number_word(rest, MOST_NUMBER)?;
    let line = WeightLine::Table {
        x: x as u32,
        y: y as u32,
    };
    if is_weight_line(form, line) {
        Some((line, rest))
    } else {
        None
    }
}

// How many columns and rows a table on lines has.
#[tactic(auto, unfolding(crate::specs::Words::weight_line_of_kind))]
fn count_words(form: Form, words: Option<&[u8]>) -> Option<(WeightLine, Option<&[u8]>)>
    ensures { GivesOption (λ x. (x.0, words_left x.1)) result (weight_line_of_kind form Kind.Lines (words_left words.entry)) }
{
    let (columns, rest) = number_word(words, MOST_NUMBER)?;
    let (rows, rest) = number_word(rest, MOST_NUMBER)?;
    let line = WeightLine::Lines {
        columns: columns as u32,
        rows: rows as u32,
    };
    if is_weight_line(form, line) {
        Some((line, rest))
    } else {
        None
    }
}

#[tactic(auto, unfolding(crate::specs::Words::weight_line_of_kind))]
fn kind_words(form: Form, kind: Kind, words: Option<&[u8]>) -> Option<(WeightLine, Option<&[u8]>)>
    ensures { GivesOption (λ x. (x.0, words_left x.1)) result (weight_line_of_kind form kind (words_left words.entry)) }
{
    match kind {
        Kind::Area => Some((WeightLine::Area, words)),
        Kind::Colour => colour_words(form, words),
        Kind::Comb => comb_words(form, words),
        Kind::Table => table_words(form, words),
        Kind::Lines => count_words(form, words),
    }
}

// The first line of a weighting.
#[tactic(auto, unfolding(crate::specs::Words::weight_line_at, crate::specs::Words::weight_line_of))]
pub(crate) fn weight_line(form: Form, line: &[u8]) -> Option<WeightLine>
    ensures { result ≡ weight_line_of form line.now }
{
    let rest = skip_word(Some(line), b"weighting")?;
    let (kind, rest) = kind_word(rest)?;
    let (found, rest) = kind_words(form, kind, rest)?;
    if is_end(rest) { Some(found) } else { None }
}

fn cut_kind_word(words: Option<&[u8]>) -> Option<(CutKind, Option<&[u8]>)>
    ensures { GivesOption (λ x. (x.0, words_left x.1)) result (word_by cut_kind_of (words_left words.entry)) }
{
    let (word, rest) = next_word(words)?;
    if word == b"area".as_slice() {
        Some((CutKind::Area, rest))
    } else if word == b"x".as_slice() {
        Some((CutKind::X, rest))
    } else if word == b"y".as_slice() {
        Some((CutKind::Y, rest))
    } else {
        None
    }
}

#[tactic(auto, unfolding(crate::specs::Words::cut_of_kind))]
fn cut_words(kind: CutKind, words: Option<&[u8]>) -> Option<(StripCut, Option<&[u8]>)>
    ensures { GivesOption (λ x. (x.0, words_left x.1)) result (cut_of_kind kind (words_left words.entry)) }
{
    match kind {
        CutKind::Area => Some((StripCut::Area, words)),
        CutKind::X => {
            let (a, rest) = number_word(words, MOST_NUMBER)?;
            let (b, rest) = number_word(rest, MOST_NUMBER)?;
            let (q, rest) = number_word(rest, MOST_QUANTITY)?;
            Some((
                StripCut::X {
                    a: a as u32,
                    b: b as u32,
                    q,
                },
                rest,
            ))
        }
        CutKind::Y => {
            let (a, rest) = number_word(words, MOST_NUMBER)?;
            let (b, rest) = number_word(rest, MOST_NUMBER)?;
            let (q, rest) = number_word(rest, MOST_QUANTITY)?;
            Some((
                StripCut::Y {
                    a: a as u32,
                    b: b as u32,
                    q,
                },
                rest,
            ))
        }
    }
}

// The line of the cut at a place.
#[tactic(auto, unfolding(crate::specs::Words::cut_at, crate::specs::Words::cut_of))]
pub(crate) fn cut_line(line: &[u8], place: u32) -> Option<StripCut>
    ensures { result ≡ cut_of place line.now }
{
    let rest = skip_word(Some(line), b"cut")?;
    let (_, rest) = this_number_word(rest, u64::from(place))?;
    let (kind, rest) = cut_kind_word(rest)?;
    let (cut, rest) = cut_words(kind, rest)?;
    if is_end(rest) { Some(cut) } else { None }
}

fn head_kind_word(words: Option<&[u8]>) -> Option<(HeadKind, Option<&[u8]>)>
    ensures { GivesOption (λ x. (x.0, words_left x.1)) result (word_by head_kind_of (words_left words.entry)) }
{
    let (word, rest) = next_word(words)?;
    if word == b"weighted".as_slice() {
        Some((HeadKind::Weighted, rest))
    } else if word == b"strip".as_slice() {
        Some((HeadKind::Strip, rest))
    } else if word == b"given-area".as_slice() {
        Some((HeadKind::GivenArea, rest))
    } else {
        None
    }
}

#[tactic(auto, unfolding(crate::specs::Words::head_of_kind))]
fn head_words(form: Form, kind: HeadKind, words: Option<&[u8]>) -> Option<(Head, Option<&[u8]>)>
    ensures { GivesOption (λ x. (x.0, words_left x.1)) result (head_of_kind form kind (words_left words.entry)) }
{
    match kind {
        HeadKind::Weighted => Some((Head::Weighted, words)),
        HeadKind::GivenArea => Some((Head::GivenArea, words)),
        HeadKind::Strip => {
            let (count, rest) = number_word(words, u64::from(most_cuts(form)))?;
            if count >= 2 {
                Some((
                    Head::Strip {
                        count: count as u32,
                    },
                    rest,
                ))
            } else {
                None
            }
        }
    }
}

// The first line of a certificate.
#[tactic(auto, unfolding(crate::specs::Words::head_at, crate::specs::Words::head_of))]
pub(crate) fn head_line(form: Form, line: &[u8]) -> Option<Head>
    ensures { result ≡ head_of form line.now }
{
    let rest = skip_word(Some(line), b"cert")?;
    let (kind, rest) = head_kind_word(rest)?;
    let (head, rest) = head_words(form, kind, rest)?;
    if is_end(rest) { Some(head) } else { None }
}
