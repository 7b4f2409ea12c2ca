ghost use Rattle.std.specs.Prelude.{◌≡◌, ◌++◌, List, OnOk};
ghost use Rattle.plan_entries.specs.Ranges.{IsInRange};
ghost use Rattle.cert_text.specs.declared.forms.Form.TheVariants.{Two};
ghost use Rattle.plan_entries.specs.declared.entries.Entry.{Entry};
ghost use Rattle.page_text.specs.Page.{top_text, sheet_text, closing_text, IsSummaryOf};

use crate::closing::put_summary;
use crate::sheets::put_planned_sheet;
use crate::styles::put_opening_rest;
use crate::summary::Summary;
use page_words::put_refused_sheet;
use plan_entries::Entry;
use plan_memory::Memory;
use texts::put_text;

/// Appends what stands before the sheets: the head of the page with all its styles.
#[tactic(auto, using(texts::proofs::Growth::grows_after))]
pub fn put_top(out: &mut Vec<u8>) -> Result<(), Memory>
    ensures { OnOk result (out.new.items ≡ out.old.items ++ top_text) }
{
    put_text(out, b"<!DOCTYPE html>\n")?;
    put_opening_rest(out)?;
    Ok(())
}

/// Appends the sheet of this number, of an entry.
#[tactic(auto, unfolding(crate::specs::Page::sheet_text))]
pub fn put_sheet(out: &mut Vec<u8>, number: u32, entry: &Entry) -> Result<(), Memory>
    requires { IsInRange Two entry.now }
    ensures { OnOk result (out.new.items ≡ out.old.items ++ sheet_text number entry.now) }
{
    match entry {
        Entry::Planned(plan) => put_planned_sheet(out, number, plan)?,
        Entry::Refused { number: row, fault } => put_refused_sheet(out, number, *row, *fault)?,
    }
    Ok(())
}

/// Appends the summary, and the end of the page.
#[tactic(auto, unfolding(crate::specs::Page::IsSummaryOf, crate::specs::Page::closing_text))]
pub fn put_closing(out: &mut Vec<u8>, summary: &Summary) -> Result<(), Memory>
    ensures { OnOk result ((es : List Entry) → IsSummaryOf summary.now es → out.new.items ≡ out.old.items ++ closing_text es) }
{
    put_summary(out, summary.counts, &summary.rows)?;
    Ok(())
}
