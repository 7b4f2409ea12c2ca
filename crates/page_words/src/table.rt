ghost use Rattle.texts.specs.Puts.{Puts};
ghost use Rattle.page_words.specs.Table.{sheet_head, pallet_row, case_sides, case_row, gap_row, height_limit, limits_row, rules_row, sizes_rows, asked_rows, order_table};

use crate::kilograms::put_kilograms;
use crate::rules::put_rules_asked;
use order_reader::{Field, Order};
use page_pieces::Piece::{Id, Number, Text};
use page_pieces::put_pieces;
use plan_memory::Memory;
use texts::put_text;

/// Opens the sheet of a row at its place in the report.
#[tactic(auto, unfolding(crate::specs::Table::sheet_head))]
pub(crate) fn put_sheet_head(
    out: &mut Vec<u8>,
    sheet: u32,
    number: u32,
    id: &[u8],
) -> Result<(), Memory>
    ensures { Puts out.old.items out.new.items (sheet_head sheet number id.now) result }
{
    put_pieces(
        out,
        &[
            Text(b"<section class=\"sheet\" id=\"sheet-"),
            Number(sheet as u64),
            Text(b"\">\n<h2>Row "),
            Number(number as u64),
            Text(b": <b>"),
            Id(id),
            Text(b"</b></h2>\n"),
        ],
    )
}

#[tactic(auto, unfolding(crate::specs::Table::pallet_row))]
fn put_pallet(out: &mut Vec<u8>, pallet_x: u32, pallet_y: u32) -> Result<(), Memory>
    ensures { Puts out.old.items out.new.items (pallet_row pallet_x pallet_y) result }
{
    put_pieces(
        out,
        &[
            Text(b"<tr><th scope=\"row\">Pallet</th><td>"),
            Number(pallet_x as u64),
            Text(b" by "),
            Number(pallet_y as u64),
            Text(b"</td></tr>\n"),
        ],
    )
}

// Appends the row of the case as far as its height.
#[tactic(auto, unfolding(crate::specs::Table::case_sides))]
fn put_case_sides(out: &mut Vec<u8>, case_x: u32, case_y: u32, case_z: u32) -> Result<(), Memory>
    ensures { Puts out.old.items out.new.items (case_sides case_x case_y case_z) result }
{
    put_pieces(
        out,
        &[
            Text(b"<tr><th scope=\"row\">Case</th><td>"),
            Number(case_x as u64),
            Text(b" by "),
            Number(case_y as u64),
            Text(b", "),
            Number(case_z as u64),
            Text(b" high, "),
        ],
    )
}

#[tactic(auto, using(texts::proofs::Growth::grows_after), unfolding(crate::specs::Table::case_row))]
fn put_case(
    out: &mut Vec<u8>,
    case_x: u32,
    case_y: u32,
    case_z: u32,
    weight: u32,
) -> Result<(), Memory>
    ensures { Puts out.old.items out.new.items (case_row case_x case_y case_z weight) result }
{
    put_case_sides(out, case_x, case_y, case_z)?;
    put_kilograms(out, weight as u64)?;
    put_text(out, b" kg</td></tr>\n")?;
    Ok(())
}

#[tactic(auto, unfolding(crate::specs::Table::gap_row))]
fn put_gap(out: &mut Vec<u8>, gap: u32) -> Result<(), Memory>
    ensures { Puts out.old.items out.new.items (gap_row gap) result }
{
    put_pieces(
        out,
        &[
            Text(b"<tr><th scope=\"row\">Gap between cases</th><td>"),
            Number(gap as u64),
            Text(b"</td></tr>\n"),
        ],
    )
}

// Appends the row of the stack's limits as far as its height.
#[tactic(auto, unfolding(crate::specs::Table::height_limit))]
fn put_height_limit(out: &mut Vec<u8>, height: u32) -> Result<(), Memory>
    ensures { Puts out.old.items out.new.items (height_limit height) result }
{
    put_pieces(
        out,
        &[
            Text(b"<tr><th scope=\"row\">Stack at most</th><td>"),
            Number(height as u64),
            Text(b" high, "),
        ],
    )
}

#[tactic(auto, using(texts::proofs::Growth::grows_after), unfolding(crate::specs::Table::limits_row))]
fn put_limits(out: &mut Vec<u8>, height: u32, weight: u32) -> Result<(), Memory>
    ensures { Puts out.old.items out.new.items (limits_row height weight) result }
{
    put_height_limit(out, height)?;
    put_kilograms(out, weight as u64)?;
    put_text(out, b" kg of cases</td></tr>\n")?;
    Ok(())
}

#[tactic(auto, using(texts::proofs::Growth::grows_after), unfolding(crate::specs::Table::rules_row))]
fn put_rules_row(out: &mut Vec<u8>, order: &Order) -> Result<(), Memory>
    ensures { Puts out.old.items out.new.items (rules_row order.now) result }
{
    put_text(out, b"<tr><th scope=\"row\">Rules asked for</th><td>")?;
    put_rules_asked(out, order)?;
    put_text(out, b"</td></tr>\n")?;
    Ok(())
}

// Appends the rows of what stands on the pallet.
#[tactic(auto, using(texts::proofs::Growth::grows_after), unfolding(crate::specs::Table::sizes_rows))]
fn put_sizes(out: &mut Vec<u8>, order: &Order) -> Result<(), Memory>
    ensures { Puts out.old.items out.new.items (sizes_rows order.now) result }
{
    let (pallet_x, pallet_y) = (order.number(Field::PalletX), order.number(Field::PalletY));
    let (case_x, case_y) = (order.number(Field::CaseX), order.number(Field::CaseY));
    let (case_z, weight) = (order.number(Field::CaseZ), order.number(Field::Weight));
    put_pallet(out, pallet_x, pallet_y)?;
    put_case(out, case_x, case_y, case_z, weight)?;
    put_gap(out, order.gap())?;
    Ok(())
}

// Appends the rows of what the stack has to keep.
#[tactic(auto, using(texts::proofs::Growth::grows_after), unfolding(crate::specs::Table::asked_rows))]
fn put_asked(out: &mut Vec<u8>, order: &Order) -> Result<(), Memory>
    ensures { Puts out.old.items out.new.items (asked_rows order.now) result }
{
    let (height, weight) = (
        order.number(Field::MaxHeight),
        order.number(Field::MaxWeight),
    );
    put_limits(out, height, weight)?;
    put_rules_row(out, order)?;
    Ok(())
}

// Appends the table of what was ordered.
#[tactic(auto, using(texts::proofs::Growth::grows_after), unfolding(crate::specs::Table::order_table))]
pub(crate) fn put_table(out: &mut Vec<u8>, order: &Order) -> Result<(), Memory>
    ensures { Puts out.old.items out.new.items (order_table order.now) result }
{
    put_text(out, b"<table><caption>The order</caption>\n")?;
    put_sizes(out, order)?;
    put_asked(out, order)?;
    put_text(out, b"</table>\n")?;
    Ok(())
}
