ghost use Rattle.texts.specs.Puts.{Puts};
ghost use Rattle.page_text.specs.Styles.{head_text, light_colours, dark_colours, colours, page_styles, word_styles, figure_styles, shapes, print_styles, all_styles, body_head, opening_rest};

use page_pieces::Piece::Text;
use page_pieces::put_pieces;
use plan_memory::Memory;

// What a browser has to know before the styles.
#[tactic(auto, unfolding(crate::specs::Styles::head_text))]
fn put_head(out: &mut Vec<u8>) -> Result<(), Memory>
    ensures { Puts out.old.items out.new.items head_text result }
{
    put_pieces(
        out,
        &[
            Text(b"<html lang=\"en\"><head><meta charset=\"utf-8\">\n"),
            Text(b"<meta name=\"viewport\" content=\"width=device-width,initial-scale=1\">\n"),
            Text(b"<title>Pallet pattern sheets</title>\n"),
            Text(b"<style>\n"),
        ],
    )
}

// Colours for paper and for a light screen: a lying case is light and a standing one dark.
#[tactic(auto, unfolding(crate::specs::Styles::light_colours))]
fn put_light_colours(out: &mut Vec<u8>) -> Result<(), Memory>
    ensures { Puts out.old.items out.new.items light_colours result }
{
    put_pieces(
        out,
        &[
            Text(
                b":root{color-scheme:light dark;--ground:#fff;--ink:#111;--soft:#555;--line:#999;\n",
            ),
            Text(
                b"--lying:#ffd97a;--on-lying:#111;--standing:#2f6fb3;--on-standing:#fff;--edge:#111;\n",
            ),
            Text(
                b"--wood:#b98d52;--side:#f1ece2;--link:#0b4ea2;--proved:#0b5d1e;--open:#8a4b00;--unmet:#a40000}\n",
            ),
        ],
    )
}

// Colours for a dark screen.
#[tactic(auto, unfolding(crate::specs::Styles::dark_colours))]
fn put_dark_colours(out: &mut Vec<u8>) -> Result<(), Memory>
    ensures { Puts out.old.items out.new.items dark_colours result }
{
    put_pieces(
        out,
        &[
            Text(
                b"@media screen and (prefers-color-scheme:dark){:root{--ground:#15181c;--ink:#eee;--soft:#aaa;--line:#666;\n",
            ),
            Text(b"--lying:#f0c865;--standing:#2f6fb3;--edge:#000;\n"),
            Text(
                b"--wood:#c9a26b;--side:#3a3d42;--link:#8ab8f0;--proved:#7fd08f;--open:#f0b060;--unmet:#ff8a80}}\n",
            ),
        ],
    )
}

// All colours.
#[tactic(auto, using(texts::proofs::Growth::grows_after), unfolding(crate::specs::Styles::colours))]
fn put_colours(out: &mut Vec<u8>) -> Result<(), Memory>
    ensures { Puts out.old.items out.new.items colours result }
{
    put_light_colours(out)?;
    put_dark_colours(out)
}

// The summary stands last in the text and is shown first; the link to it is seen when it is reached by a key.
#[tactic(auto, unfolding(crate::specs::Styles::page_styles))]
fn put_page_styles(out: &mut Vec<u8>) -> Result<(), Memory>
    ensures { Puts out.old.items out.new.items page_styles result }
{
    put_pieces(
        out,
        &[
            Text(b"*{box-sizing:border-box}\n"),
            Text(
                b"body{margin:0;background:var(--ground);color:var(--ink);font:1rem/1.4 system-ui,sans-serif}\n",
            ),
            Text(
                b"main{display:flex;flex-direction:column;gap:2.5rem;max-width:75rem;margin:auto;padding:1rem}\n",
            ),
            Text(b"#summary{order:-1}\n"),
            Text(b"a{color:var(--link)}\n"),
            Text(b"body>a{position:absolute;left:-99rem}\n"),
            Text(b"body>a:focus{left:0;padding:1rem;background:var(--ground)}\n"),
            Text(b"h1,h2,p,table{margin:0 0 .8rem}\n"),
            Text(b"footer{color:var(--soft)}\n"),
        ],
    )
}

// Tables with thin lines, and the two counts in letters that are read from three metres.
#[tactic(auto, unfolding(crate::specs::Styles::word_styles))]
fn put_word_styles(out: &mut Vec<u8>) -> Result<(), Memory>
    ensures { Puts out.old.items out.new.items word_styles result }
{
    put_pieces(
        out,
        &[
            Text(b"table{border-collapse:collapse}\n"),
            Text(b"caption{text-align:left;font-weight:bold;padding:.2rem 0}\n"),
            Text(
                b"th,td{border:1px solid var(--line);padding:.2rem .6rem;text-align:left;vertical-align:top}\n",
            ),
            Text(b".counts{display:flex;flex-wrap:wrap;gap:.5rem 2rem;margin:0 0 1rem}\n"),
            Text(b".counts dd{margin:0;font-size:2rem;font-weight:bold;line-height:1.1}\n"),
            Text(
                b".proved{color:var(--proved)}.open{color:var(--open)}.unmet,.refused h2{color:var(--unmet)}\n",
            ),
            Text(b"h2{font-size:1.6rem}.count,.total{font-size:2.2rem;line-height:1.2}\n"),
        ],
    )
}

// The first form is the largest, and each number stands in the middle of its case.
#[tactic(auto, unfolding(crate::specs::Styles::figure_styles))]
fn put_figure_styles(out: &mut Vec<u8>) -> Result<(), Memory>
    ensures { Puts out.old.items out.new.items figure_styles result }
{
    put_pieces(
        out,
        &[
            Text(
                b".forms{display:flex;flex-wrap:wrap;gap:1rem;align-items:flex-end;margin:0 0 1rem}\n",
            ),
            Text(
                b"figure{margin:0;flex:1 1 15rem;max-width:24rem}.forms figure:first-child{flex:1 1 100%;max-width:none}\n",
            ),
            Text(
                b"svg{display:block;width:100%;max-width:100%;max-height:18rem}.forms figure:first-child svg{max-height:32rem}\n",
            ),
            Text(
                b"rect,path,line{stroke:var(--edge);stroke-width:1.5px;vector-effect:non-scaling-stroke}\n",
            ),
            Text(
                b"svg.form text{text-anchor:middle;dominant-baseline:central;font-weight:bold;fill:var(--on-lying)}\n",
            ),
            Text(b"svg.form .standing+text{fill:var(--on-standing)}\n"),
            Text(
                b".lying{fill:var(--lying)}.standing{fill:var(--standing)}.slab{fill:var(--side)}\n",
            ),
            Text(b".pallet{fill:none;stroke:var(--wood);stroke-width:4px}\n"),
            Text(
                b".break{fill:var(--side);stroke:var(--ink);stroke-dasharray:6 4}\nfigure.stack{max-width:none}figure.stack svg{max-height:32rem}\n",
            ),
        ],
    )
}

// How the page, its words and its figures are laid out.
#[tactic(auto, using(texts::proofs::Growth::grows_after), unfolding(crate::specs::Styles::shapes))]
fn put_shapes(out: &mut Vec<u8>) -> Result<(), Memory>
    ensures { Puts out.old.items out.new.items shapes result }
{
    put_page_styles(out)?;
    put_word_styles(out)?;
    put_figure_styles(out)
}

// On paper each sheet has a page of its own, the summary is the last, and a link looks like the text around it.
#[tactic(auto, unfolding(crate::specs::Styles::print_styles))]
fn put_print_styles(out: &mut Vec<u8>) -> Result<(), Memory>
    ensures { Puts out.old.items out.new.items print_styles result }
{
    put_pieces(
        out,
        &[
            Text(b"@page{size:A4;margin:12mm}\n"),
            Text(b"@media print{html{font-size:9.5pt}main{display:block;padding:0}\n"),
            Text(b".sheet,#summary{break-before:page}a{color:inherit;text-decoration:none}\n"),
            Text(b"h2,h3,p,ul,table{margin:0 0 1.5mm}figure,tr{break-inside:avoid}\n"),
            Text(b".lying,.standing,.slab{print-color-adjust:exact}\n"),
            Text(b"figure{flex:1 1 20mm}svg{max-height:34mm}figure.stack svg{max-height:38mm}\n"),
            Text(b".forms figure:first-child svg{max-height:69mm}}\n"),
        ],
    )
}

// All styles of the page; none is taken from elsewhere.
#[tactic(auto, using(texts::proofs::Growth::grows_after), unfolding(crate::specs::Styles::all_styles))]
fn put_all_styles(out: &mut Vec<u8>) -> Result<(), Memory>
    ensures { Puts out.old.items out.new.items all_styles result }
{
    put_colours(out)?;
    put_shapes(out)?;
    put_print_styles(out)
}

// The end of the styles, and a link to the summary, which stands at the end.
#[tactic(auto, unfolding(crate::specs::Styles::body_head))]
fn put_body_head(out: &mut Vec<u8>) -> Result<(), Memory>
    ensures { Puts out.old.items out.new.items body_head result }
{
    put_pieces(
        out,
        &[
            Text(b"</style></head><body>\n"),
            Text(b"<a href=\"#summary\">Summary</a>\n"),
            Text(b"<main>\n"),
        ],
    )
}

/// What stands behind the first line, up to the first sheet.
#[tactic(auto, using(texts::proofs::Growth::grows_after), unfolding(crate::specs::Styles::opening_rest))]
pub(crate) fn put_opening_rest(out: &mut Vec<u8>) -> Result<(), Memory>
    ensures { Puts out.old.items out.new.items opening_rest result }
{
    put_head(out)?;
    put_all_styles(out)?;
    put_body_head(out)
}
