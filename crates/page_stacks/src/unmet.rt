// The rules that no stack meets.
ghost use Rattle.std.specs.Prelude.{◌≡◌, ◌++◌};
ghost use Rattle.std.specs.List.{flat_map};
ghost use Rattle.texts.specs.Puts.{Puts};
ghost use Rattle.page_stacks.specs.Unmet.{alone_words as words_of_alone, unmet_line, unmet_text};

use page_pieces::Piece::Text;
use page_pieces::put_pieces;
use page_words::put_rule;
use plan_memory::Memory;
use stack_builder::UnmetRule;
use texts::put_text;

// What is said of a rule that no two forms meet, and of one that some two meet.
fn alone_words(alone: bool) -> &'static [u8]
    ensures { result.now ≡ words_of_alone alone }
{
    if alone {
        b"no two of the forms shown meet it, and none does on itself"
    } else {
        b"some two of the forms shown, or one on itself, meet it, but none meet all rules together"
    }
}

#[tactic(auto, using(texts::proofs::Growth::grows_after), unfolding(crate::specs::Unmet::unmet_line))]
fn put_unmet_line(out: &mut Vec<u8>, unmet: UnmetRule) -> Result<(), Memory>
    ensures { Puts out.old.items out.new.items (unmet_line unmet) result }
{
    put_text(out, b"<li>")?;
    put_rule(out, unmet.rule)?;
    put_pieces(
        out,
        &[
            Text(b": "),
            Text(alone_words(unmet.alone)),
            Text(b"</li>\n"),
        ],
    )
}

fn put_unmet_lines(out: &mut Vec<u8>, told: &[UnmetRule]) -> Result<(), Memory>
    ensures { Puts out.old.items out.new.items (flat_map unmet_line told.now) result }
{
    for unmet in told {
        put_unmet_line(out, *unmet)?;
    }
    Ok(())
}

// Appends the rules that no stack meets, and what is known of each.
#[tactic(auto, using(texts::proofs::Growth::grows_after), unfolding(crate::specs::Unmet::unmet_text))]
pub fn put_unmet(out: &mut Vec<u8>, told: &[UnmetRule]) -> Result<(), Memory>
    ensures { Puts out.old.items out.new.items (unmet_text told.now) result }
{
    put_text(
        out,
        b"<h3>No stack meets the rules</h3>\n<ul class=\"unmet\">\n",
    )?;
    put_unmet_lines(out, told)?;
    put_text(
        out,
        b"</ul>\n<p>This is said of the forms shown here. Nothing is said of layers that are not shown.</p>\n",
    )
}
