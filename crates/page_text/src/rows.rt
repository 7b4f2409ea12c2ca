ghost use Rattle.texts.specs.Puts.{Puts};
ghost use Rattle.page_text.specs.Rows.{row_head, greatest_cell, layers_cell, stack_cell, planned_row, refused_row, row_text};

use page_pieces::Piece::{Id, Number, Text};
use page_pieces::put_pieces;
use plan_entries::{Entry, Plan, Status};
use plan_memory::Memory;
use stack_builder::StackAnswer;
use texts::put_text;

// Appends the row's number, the link to its sheet and the cases of a layer.
#[tactic(auto, using(texts::proofs::Growth::grows_after), unfolding(crate::specs::Rows::row_head))]
fn put_row_head(
    out: &mut Vec<u8>,
    sheet: u32,
    number: u32,
    id: &[u8],
    count: u32,
) -> Result<(), Memory>
    ensures { Puts out.old.items out.new.items (row_head sheet number id.now count) result }
{
    put_pieces(
        out,
        &[
            Text(b"<tr><td>"),
            Number(number as u64),
            Text(b"</td><th scope=\"row\"><a href=\"#sheet-"),
            Number(sheet as u64),
            Text(b"\">"),
            Id(id),
            Text(b"</a></th><td>"),
            Number(count as u64),
            Text(b"</td>"),
        ],
    )
}

// Appends what is known of other layers.
#[tactic(auto, unfolding(crate::specs::Rows::greatest_cell))]
fn put_greatest_cell(out: &mut Vec<u8>, status: Status, bound: u32) -> Result<(), Memory>
    ensures { Puts out.old.items out.new.items (greatest_cell status bound) result }
{
    match status {
        Status::Optimal => put_text(out, b"<td class=\"proved\">proved</td>"),
        Status::StillOpen => put_pieces(
            out,
            &[
                Text(b"<td class=\"open\">at most "),
                Number(bound as u64),
                Text(b"</td>"),
            ],
        ),
    }
}

// Appends how many layers a stack has.
#[tactic(auto, unfolding(crate::specs::Rows::layers_cell))]
fn put_layers_cell(out: &mut Vec<u8>, count: usize) -> Result<(), Memory>
    ensures { Puts out.old.items out.new.items (layers_cell count) result }
{
    match count {
        0 => put_text(out, b"<td>none</td></tr>\n"),
        1 => put_text(out, b"<td>1 layer</td></tr>\n"),
        _ => put_pieces(
            out,
            &[
                Text(b"<td>"),
                Number(count as u64),
                Text(b" layers</td></tr>\n"),
            ],
        ),
    }
}

// Appends how many layers the stack has, or that there is none.
#[tactic(auto, unfolding(crate::specs::Rows::stack_cell))]
fn put_stack_cell(out: &mut Vec<u8>, stack: &StackAnswer) -> Result<(), Memory>
    ensures { Puts out.old.items out.new.items (stack_cell stack.now) result }
{
    match stack {
        StackAnswer::Stack(numbers) => {
            put_layers_cell(out, numbers.as_slice().len())?;
            Ok(())
        }
        StackAnswer::Unmet(_) => put_text(out, b"<td class=\"unmet\">rules unmet</td></tr>\n"),
    }
}

// Appends the row of a plan.
#[tactic(auto, using(texts::proofs::Growth::grows_after), unfolding(crate::specs::Rows::planned_row))]
fn put_planned_row(out: &mut Vec<u8>, sheet: u32, plan: &Plan) -> Result<(), Memory>
    ensures { Puts out.old.items out.new.items (planned_row sheet plan.now) result }
{
    put_row_head(out, sheet, plan.number, plan.order.id(), plan.count)?;
    put_greatest_cell(out, plan.status, plan.bound)?;
    put_stack_cell(out, &plan.stack)
}

// Appends the row of a refused row.
#[tactic(auto, unfolding(crate::specs::Rows::refused_row))]
fn put_refused_row(out: &mut Vec<u8>, sheet: u32, number: u32) -> Result<(), Memory>
    ensures { Puts out.old.items out.new.items (refused_row sheet number) result }
{
    put_pieces(
        out,
        &[
            Text(b"<tr><td>"),
            Number(number as u64),
            Text(b"</td><th scope=\"row\"><a href=\"#sheet-"),
            Number(sheet as u64),
            Text(b"\">refused</a></th><td colspan=\"3\">no plan</td></tr>\n"),
        ],
    )
}

/// Appends the summary's row of an entry, whose sheet has this number.
#[tactic(auto, unfolding(crate::specs::Rows::row_text))]
pub(crate) fn put_row(out: &mut Vec<u8>, sheet: u32, entry: &Entry) -> Result<(), Memory>
    ensures { Puts out.old.items out.new.items (row_text sheet entry.now) result }
{
    match entry {
        Entry::Planned(plan) => put_planned_row(out, sheet, plan),
        Entry::Refused { number, .. } => put_refused_row(out, sheet, *number),
    }
}
