ghost use Rattle.std.specs.Prelude.{◌≡◌, ◌≤◌};
ghost use Rattle.texts.specs.Puts.{Puts};
ghost use Rattle.page_words.specs.Counts.{cases_a_layer, most_words, count_line, thousandths_covered as thousandths_of, cover_by as cover_words, percent_words, cover_line};

use order_reader::{Field, Order};
use page_pieces::Piece::{Number, Text};
use page_pieces::put_pieces;
use plan_entries::Status;
use plan_memory::Memory;
use texts::put_text;

// Appends the number of cases.
#[tactic(auto, unfolding(crate::specs::Counts::cases_a_layer))]
fn put_cases(out: &mut Vec<u8>, count: u32) -> Result<(), Memory>
    ensures { Puts out.old.items out.new.items (cases_a_layer count) result }
{
    if count == 1 {
        put_pieces(out, &[Number(count as u64), Text(b" case a layer")])
    } else {
        put_pieces(out, &[Number(count as u64), Text(b" cases a layer")])
    }
}

// Appends what is known of every other layer.
#[tactic(auto, unfolding(crate::specs::Counts::most_words))]
fn put_most(out: &mut Vec<u8>, status: Status, bound: u32) -> Result<(), Memory>
    ensures { Puts out.old.items out.new.items (most_words status bound) result }
{
    match status {
        Status::Optimal => put_text(out, b"</b>; none can have more</p>\n"),
        Status::StillOpen => put_pieces(
            out,
            &[
                Text(b"</b>; none can have more than "),
                Number(bound as u64),
                Text(b"</p>\n"),
            ],
        ),
    }
}

// Appends the count of a layer, and what is known of it.
#[tactic(auto, using(texts::proofs::Growth::grows_after), unfolding(crate::specs::Counts::count_line))]
pub(crate) fn put_count(
    out: &mut Vec<u8>,
    count: u32,
    bound: u32,
    status: Status,
) -> Result<(), Memory>
    ensures { Puts out.old.items out.new.items (count_line count bound status) result }
{
    put_text(out, b"<p class=\"count\"><b>")?;
    put_cases(out, count)?;
    put_most(out, status, bound)
}

// The area of so many cases, in thousandths of the pallet's, rounded down.
fn thousandths_covered(order: &Order, count: u32) -> u64
    requires { count ≤ 1000 }
    ensures { result ≡ thousandths_of order.now count }
{
    let (case_x, case_y) = (order.number(Field::CaseX), order.number(Field::CaseY));
    let (pallet_x, pallet_y) = (order.number(Field::PalletX), order.number(Field::PalletY));
    let covered = 1000 * count as u64 * case_x as u64 * case_y as u64;
    covered / (pallet_x as u64 * pallet_y as u64)
}

fn cover_by(count: u32) -> &'static [u8]
    ensures { result.now ≡ cover_words count }
{
    if count == 1 {
        b"<p>It covers "
    } else {
        b"<p>They cover "
    }
}

// Appends a percentage with one place.
#[tactic(auto, unfolding(crate::specs::Counts::percent_words))]
fn put_percent(out: &mut Vec<u8>, thousandths: u64) -> Result<(), Memory>
    ensures { Puts out.old.items out.new.items (percent_words thousandths) result }
{
    put_pieces(
        out,
        &[
            Number(thousandths / 10),
            Text(b"."),
            Number(thousandths % 10),
            Text(b" percent of the pallet (rounded down).</p>\n"),
        ],
    )
}

// Appends how much of the pallet the cases of a layer cover.
#[tactic(auto, using(texts::proofs::Growth::grows_after), unfolding(crate::specs::Counts::cover_line))]
pub(crate) fn put_cover(out: &mut Vec<u8>, order: &Order, count: u32) -> Result<(), Memory>
    requires { count ≤ 1000 }
    ensures { Puts out.old.items out.new.items (cover_line order.now count) result }
{
    put_text(out, cover_by(count))?;
    put_percent(out, thousandths_covered(order, count))?;
    Ok(())
}
