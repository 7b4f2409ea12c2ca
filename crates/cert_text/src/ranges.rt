ghost use Rattle.std.specs.Prelude.{◌≡◌, ◌↔◌, IsTrue};
ghost use Rattle.std.specs.List.{list_all};
ghost use Rattle.cert_text.specs.Ranges.{is_weighting as is_weighting_value, is_tree as is_tree_value, is_cut as is_cut_value, are_cuts as are_cuts_value, in_range, InRange};

use crate::forms::{Form, has_tables, most_cuts};
use crate::limits::{MOST_MARKS, MOST_QUANTITY, MOST_SIDE};
use crate::words::{are_counts, are_sides, is_colour, is_comb};
use line_tables::LineTable;
use weightings::{Cert, Mark, StripCut, WeightTable, Weighting};

// Whether a table has a text in the form.
fn is_table(form: Form, table: &WeightTable) -> bool
    ensures { result ≡ is_weighting_value form (Weighting.Table table.now) }
{
    let x = table.x_side();
    let y = table.y_side();
    has_tables(form) && are_sides(x, y)
}

// Whether a table on lines has a text in the form: each has, where the form has tables.
fn is_line_table(form: Form, table: &LineTable) -> bool
    ensures { result ≡ is_weighting_value form (Weighting.Lines table.now) }
{
    let (columns, rows) = (table.columns(), table.rows());
    has_tables(form) && are_counts(columns.len() as u32, rows.len() as u32)
}

// Whether a weighting has a text in the form.
fn is_weighting(form: Form, weighting: &Weighting) -> bool
    ensures { result ≡ is_weighting_value form weighting.now }
{
    match *weighting {
        Weighting::Area => true,
        Weighting::Colour { k, c } => is_colour(k, c),
        Weighting::Comb { p, a, r, b } => is_comb(p, a, r, b),
        Weighting::Table(ref table) => is_table(form, table),
        Weighting::Lines(ref table) => is_line_table(form, table),
    }
}

// Whether marks have a text.
fn is_tree(marks: &[Mark]) -> bool
    ensures { result ≡ is_tree_value marks.now }
{
    !marks.is_empty() && marks.len() <= MOST_MARKS
}

// Whether a cut has a text.
fn is_cut(cut: StripCut) -> bool
    ensures { result ≡ is_cut_value cut }
{
    match cut {
        StripCut::Area => true,
        StripCut::X { a, b, q } | StripCut::Y { a, b, q } => {
            a <= MOST_SIDE && (b <= MOST_SIDE && q <= MOST_QUANTITY)
        }
    }
}

// Whether each cut has a text.
fn all_cuts(cuts: &[StripCut]) -> bool
    ensures { result ≡ list_all is_cut_value cuts.now }
{
    cuts.iter().all(|cut| is_cut(*cut))
}

// Whether the cuts have a text in the form.
fn are_cuts(form: Form, cuts: &[StripCut]) -> bool
    ensures { result ≡ are_cuts_value form cuts.now }
{
    2 <= cuts.len() && (cuts.len() <= most_cuts(form) as usize && all_cuts(cuts))
}

// Whether the certificate has a text in the form, as a test.
fn has_text(form: Form, cert: &Cert) -> bool
    ensures { result ≡ in_range form cert.now }
{
    match cert {
        Cert::Weighted { weighting, tree } => {
            is_weighting(form, weighting) && is_tree(tree.as_slice())
        }
        Cert::Strip(strip) => are_cuts(form, strip.cuts()),
        Cert::GivenArea => true,
    }
}

/// Whether the certificate has a text in the form.
pub fn is_in_range(cert: &Cert, form: Form) -> bool
    ensures { IsTrue result ↔ InRange form cert.now }
{
    has_text(form, cert)
}
