ghost use Rattle.std.specs.Prelude.{◌≤◌, All, IfOk, IfSome};
ghost use Rattle.contact_rules.specs.Real.{IsGapOf};
ghost use Rattle.contact_rules.specs.Rules.{IsLawfulRule};
ghost use Rattle.interlocking_layers.specs.Forms.{IsInterlockingLayer};

use crate::effort::Effort;
use crate::search::in_passes;
use crate::wanted::Wanted;
use contact_rules::Rule;
use plan_geometry::{Inst, Layer};
use plan_memory::Memory;
use std::alloc::Global;

/// A layer of `count` cases, from 1 to 1,000, one of whose forms goes upon the layer itself under all rules;
/// the instance's numbers each contain the gap. Layers of five blocks, each a grid (Bischoff and Dowsland
/// 1982), are tried one after another, and the first that serves is the answer. None where none of those that
/// are tried within the limits of this crate serves: another layer still may.
pub fn interlocking_layer(
    alloc: Global,
    inst: Inst,
    gap: u32,
    rules: &[Rule],
    count: u32,
) -> Result<Option<Layer>, Memory>
    requires gap { IsGapOf inst gap }
    requires rules { All IsLawfulRule rules.now }
    requires some { 1 ≤ count }
    requires few { count ≤ 1000 }
    ensures { IfOk result (λ r. IfSome r (IsInterlockingLayer inst gap rules.now count)) }
{
    let wanted = Wanted {
        inst,
        gap,
        rules,
        count,
    };
    in_passes(alloc, &wanted, &mut Effort::new(count))
}
