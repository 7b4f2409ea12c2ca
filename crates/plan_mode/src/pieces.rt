// What is written for each entry, and before and behind them.
ghost use Rattle.std.specs.Prelude.{◌≡◌, ◌≤◌, ◌++◌, OnOk, IfOk, List, ℕ, length};
ghost use Rattle.plan_geometry.specs.Layout.{IsLayout, IsInOrder};
ghost use Rattle.partitions.specs.Partitions.{SameSides};
ghost use Rattle.layout_map.specs.Chains.{IsMapped};
ghost use Rattle.order_reader.specs.Instances.{IsGivenOf};
ghost use Rattle.cert_text.specs.declared.forms.Form.TheVariants.{Two};
ghost use Rattle.plan_entries.specs.Entries.{first_spots};
ghost use Rattle.plan_entries.specs.Ranges.{IsInRange};
ghost use Rattle.plan_soundness.specs.Sound.{IsSound};
ghost use Rattle.report_text.specs.Reports.{done_text};
ghost use Rattle.plan_mode.specs.Pieces.{IsSoundEntry, IsDrawingOf, IsTailOf, IsPieceOf, head_of};

use layer_drawing::put_drawing;
use layout_map::map_layer;
use plan_entries::{Entry, Plan};
use plan_geometry::{Inst, Layer, Spot};
use plan_memory::Memory;
use report_text::{put_done, put_entry, put_head};
use std::alloc::Global;

// The first line.
pub(crate) fn head(alloc: Global, draw: bool) -> Result<Vec<u8>, Memory>
    ensures { IfOk result (λ text. text.items ≡ head_of draw) }
{
    let mut text = Vec::new(alloc);
    if draw {
        text.extend_from_slice(b"pallet-drawing 1\n")?;
    } else {
        put_head(&mut text)?;
    }
    Ok(text)
}

// The last line.
pub(crate) fn done(alloc: Global, count: u32) -> Result<Vec<u8>, Memory>
    ensures { IfOk result (λ text. text.items ≡ done_text count) }
{
    let mut text = Vec::new(alloc);
    put_done(&mut text, count)?;
    Ok(text)
}

// The cases of the first listed layer.
fn first_cases(plan: &Plan) -> &[Spot]
    ensures { result.now ≡ first_spots plan.now.layers }
{
    match plan.layers.as_slice() {
        [first, ..] => first.spots.as_slice(),
        [] => &[],
    }
}

// The layer of these cases, which are a layout in order.
#[tactic(auto, using(crate::proofs::FirstLayer::same_order))]
fn layer_of(inst: Inst, spots: Vec<Spot>) -> Layer
    requires layout { IsLayout inst spots.items }
    requires in_order { IsInOrder spots.items }
    ensures inst { result.inst ≡ inst }
    ensures spots { result.spots ≡ spots.items }
{
    match Layer::new(inst, spots) {
        Some(layer) => layer,
        None => unreachable!(),
    }
}

// The first listed layer, on the order's instance.
fn first_layer(alloc: Global, plan: &Plan) -> Result<Layer, Memory>
    requires { IsSound plan.now }
    ensures given { IfOk result (λ layer. IsGivenOf plan.now.order layer.inst) }
    ensures same { IfOk result (λ layer. SameSides layer.inst plan.now.reduced) }
    ensures spots { IfOk result (λ layer. layer.spots ≡ first_spots plan.now.layers) }
{
    let given = plan.order.inst();
    let spots = first_cases(plan).to_vec(alloc)?;
    Ok(layer_of(given, spots))
}

// Appends the drawing of a plan.
fn put_plan_drawing(alloc: Global, out: &mut Vec<u8>, plan: &Plan) -> Result<(), Memory>
    requires { IsSound plan.now }
    ensures { OnOk result ((drawing : List ℕ) × IsDrawingOf plan.now drawing × (out.new.items ≡ out.old.items ++ drawing)) }
{
    let layer = first_layer(alloc, plan)?;
    let mapped = map_layer(alloc, &layer, plan.reduced)?;
    put_drawing(alloc, out, &mapped)
}

// Appends what stands behind the text of an entry.
#[tactic(auto, using(crate::proofs::EntryFacts::no_tail))]
fn put_tail(alloc: Global, draw: bool, out: &mut Vec<u8>, entry: &Entry) -> Result<(), Memory>
    requires { IsSoundEntry entry.now }
    ensures { OnOk result ((tail : List ℕ) × IsTailOf draw entry.now tail × (out.new.items ≡ out.old.items ++ tail)) }
{
    if !draw {
        return Ok(());
    }
    match entry {
        Entry::Planned(plan) => put_plan_drawing(alloc, out, plan),
        Entry::Refused { .. } => Ok(()),
    }
}

// What is written for an entry.
pub(crate) fn piece(alloc: Global, draw: bool, entry: &Entry) -> Result<Vec<u8>, Memory>
    requires in_range { IsInRange Two entry.now }
    requires sound { IsSoundEntry entry.now }
    ensures { IfOk result (λ text. IsPieceOf draw entry.now text.items) }
{
    let mut text = Vec::new(alloc);
    if put_entry(&mut text, entry).is_err() {
        return Err(Memory);
    }
    put_tail(alloc, draw, &mut text, entry)?;
    Ok(text)
}
