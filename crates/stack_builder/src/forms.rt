ghost use Rattle.std.specs.Prelude.{◌≡◌, ◌↔◌, IfOk, IsTrue};
ghost use Rattle.stack_builder.specs.Pairs.{AreVariants};

use layer_symmetry::{Move, variants};
use plan_geometry::{Layer, Spot};
use plan_memory::Memory;
use std::alloc::Global;

fn same_spots(a: &[Spot], b: &[Spot]) -> bool
    ensures { IsTrue result ↔ (a.now ≡ b.now) }
{
    a == b
}

// Whether the two layers are the same.
fn same_layers(a: &Layer, b: &Layer) -> bool
    ensures { IsTrue result ↔ (a.now ≡ b.now) }
{
    a.inst() == b.inst() && same_spots(a.spots(), b.spots())
}

// Whether the two lists of variants are the same.
fn same_lists(a: &[(Move, Layer)], b: &[(Move, Layer)]) -> bool
    ensures { IsTrue result ↔ (a.now ≡ b.now) }
{
    if a.len() != b.len() {
        return false;
    }
    for k in 0..a.len() {
        if a[k].0 != b[k].0 || !same_layers(&a[k].1, &b[k].1) {
            return false;
        }
    }
    true
}

/// Whether these are all the variants of a layer, in order.
pub fn are_variants(alloc: Global, listed: &[(Move, Layer)]) -> Result<bool, Memory>
    ensures { IfOk result (λ b. IsTrue b ↔ AreVariants listed.now) }
{
    if listed.is_empty() {
        return Ok(false);
    }
    let all = variants(alloc, &listed[0].1)?;
    Ok(same_lists(all.as_slice(), listed))
}
