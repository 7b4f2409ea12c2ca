ghost use Rattle.std.specs.Prelude.{IfOk, IfSome};
ghost use Rattle.interlocking_layers.specs.Wanted.{IsLawfulSearch, IsFor};

use crate::wanted::Wanted;
use layer_symmetry::variants;
use plan_geometry::{Layer, Spot};
use plan_memory::Memory;
use stack_builder::interlocks;
use std::alloc::Global;

/// The layer of these cases, if they are a layout, as many as wanted, and one of the layer's forms goes upon
/// it under all rules.
pub fn accepted(
    alloc: Global,
    wanted: &Wanted<'_>,
    spots: Vec<Spot>,
) -> Result<Option<Layer>, Memory>
    requires { IsLawfulSearch wanted.now }
    ensures { IfOk result (λ r. IfSome r (IsFor wanted.now)) }
{
    let Some(layer) = Layer::new(wanted.inst, spots) else {
        return Ok(None);
    };
    if layer.count() != wanted.count {
        return Ok(None);
    }
    let forms = variants(alloc, &layer)?;
    if interlocks(wanted.inst, wanted.gap, wanted.rules, forms.as_slice()) {
        Ok(Some(layer))
    } else {
        Ok(None)
    }
}
