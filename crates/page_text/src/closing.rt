ghost use Rattle.texts.specs.Puts.{Puts};
ghost use Rattle.page_text.specs.Closing.{counts_text, table_head, table_text, foot_text, summary_text};

use crate::counts::Counts;
use page_pieces::Piece::{Number, Text};
use page_pieces::put_pieces;
use plan_memory::Memory;
use texts::put_text;

// Appends how many entries of each kind there are.
#[tactic(auto, unfolding(crate::specs::Closing::counts_text))]
fn put_counts(out: &mut Vec<u8>, counts: Counts) -> Result<(), Memory>
    ensures { Puts out.old.items out.new.items (counts_text counts) result }
{
    put_pieces(
        out,
        &[
            Text(
                b"<section id=\"summary\"><h1>Pallet pattern sheets</h1>\n<dl class=\"counts\"><div><dt>Orders</dt><dd>",
            ),
            Number(counts.orders as u64),
            Text(b"</dd></div><div><dt>Planned</dt><dd>"),
            Number(counts.planned as u64),
            Text(b"</dd></div><div><dt>Layer proved greatest</dt><dd>"),
            Number(counts.greatest as u64),
            Text(b"</dd></div><div><dt>Greatest still open</dt><dd>"),
            Number(counts.still_open as u64),
            Text(b"</dd></div><div><dt>Rules unmet</dt><dd>"),
            Number(counts.unmet as u64),
            Text(b"</dd></div><div><dt>Refused</dt><dd>"),
            Number(counts.refused as u64),
            Text(b"</dd></div></dl>\n"),
        ],
    )
}

// Begins the table.
#[tactic(auto, unfolding(crate::specs::Closing::table_head))]
fn put_table_head(out: &mut Vec<u8>) -> Result<(), Memory>
    ensures { Puts out.old.items out.new.items table_head result }
{
    put_pieces(
        out,
        &[
            Text(b"<table><caption>The orders, and where their sheets are</caption>\n"),
            Text(
                b"<tr><th scope=\"col\">Row</th><th scope=\"col\">Order</th><th scope=\"col\">Cases a layer</th>",
            ),
            Text(b"<th scope=\"col\">Greatest</th><th scope=\"col\">Stack</th></tr>\n"),
        ],
    )
}

// Appends the table of these rows.
#[tactic(auto, using(texts::proofs::Growth::grows_after), unfolding(crate::specs::Closing::table_text))]
fn put_table(out: &mut Vec<u8>, rows: &[u8]) -> Result<(), Memory>
    ensures { Puts out.old.items out.new.items (table_text rows.now) result }
{
    put_table_head(out)?;
    put_text(out, rows)?;
    put_text(out, b"</table>\n</section>\n")
}

// Appends that the page judges nothing, and the end of the page.
#[tactic(auto, unfolding(crate::specs::Closing::foot_text))]
fn put_foot(out: &mut Vec<u8>) -> Result<(), Memory>
    ensures { Puts out.old.items out.new.items foot_text result }
{
    put_pieces(
        out,
        &[
            Text(
                b"<footer><p>This page shows what the report says, and says nothing of whether it is right: ",
            ),
            Text(b"<code>pallet check</code> tells that.</p></footer>\n</main>\n</body></html>\n"),
        ],
    )
}

/// Appends the summary of so many entries and of these rows, and the end of the page.
#[tactic(auto, using(texts::proofs::Growth::grows_after), unfolding(crate::specs::Closing::summary_text))]
pub(crate) fn put_summary(out: &mut Vec<u8>, counts: Counts, rows: &[u8]) -> Result<(), Memory>
    ensures { Puts out.old.items out.new.items (summary_text counts rows.now) result }
{
    put_counts(out, counts)?;
    put_table(out, rows)?;
    put_foot(out)
}
