ghost use Rattle.std.specs.Prelude.{All};
ghost use Rattle.contact_rules.specs.Rules.{IsLawfulRule};

use crate::interlocking_layer;
use contact_rules::{Rule, meets};
use layer_symmetry::{Move, variants};
use plan_geometry::{Inst, Layer, Spot, Way};
use std::alloc::Global;
use std::test::Fail;

fn lying(x: u32, y: u32) -> Spot {
    Spot {
        x,
        y,
        way: Way::Lying,
    }
}

fn standing(x: u32, y: u32) -> Spot {
    Spot {
        x,
        y,
        way: Way::Standing,
    }
}

// The answer for a pallet and a case of these real sides.
fn found(
    alloc: Global,
    sides: [u32; 4],
    gap: u32,
    rules: &[Rule],
    count: u32,
) -> Result<Option<Layer>, Fail>
    requires { All IsLawfulRule rules.now }
{
    let given = sides.map(|side| side.saturating_add(gap));
    let inst = Inst::new(given[0], given[1], given[2], given[3]).ok_or("sides")?;
    if inst.short <= gap || inst.l_side <= gap || inst.w_side <= gap {
        return Err("gap".into());
    }
    if count < 1 || 1000 < count {
        return Err("count".into());
    }
    Ok(interlocking_layer(alloc, inst, gap, rules, count)?)
}

#[test]
fn diagonal_alone(rt: HostRuntime) -> Result<(), Fail> {
    let rules = [Rule::Contact(50), Rule::Support, Rule::Cut(60)];
    let layer = found(rt.alloc(), [10, 10, 5, 2], 0, &rules, 10)?.ok_or("none")?;
    let columns = [
        lying(0, 0),
        lying(5, 0),
        lying(0, 2),
        lying(5, 2),
        lying(0, 4),
        lying(5, 4),
        lying(0, 6),
        lying(5, 6),
        lying(0, 8),
        lying(5, 8),
    ];
    assert!(rt; layer.spots() == columns.as_slice());
    let forms = variants(rt.alloc(), &layer)?;
    assert_eq!(rt; forms.len(), 2);
    assert!(rt; forms[1].0 == Move::Diagonal);
    assert!(rt; !meets(Rule::Support, &layer, &layer, 0));
    Ok(())
}

#[test]
fn gap_of_five(rt: HostRuntime) -> Result<(), Fail> {
    let rules = [Rule::Contact(80), Rule::Support];
    let layer = found(rt.alloc(), [1200, 800, 395, 255], 5, &rules, 9)?.ok_or("none")?;
    let apart = [
        lying(12, 2),
        standing(412, 2),
        standing(672, 2),
        standing(932, 2),
        lying(12, 262),
        standing(412, 402),
        standing(672, 402),
        standing(932, 402),
        lying(12, 522),
    ];
    assert!(rt; layer.spots() == apart.as_slice());
    Ok(())
}

#[test]
fn second_pass(rt: HostRuntime) -> Result<(), Fail> {
    let rules = [Rule::Contact(70), Rule::Support];
    let layer = found(rt.alloc(), [10, 18, 9, 3], 0, &rules, 6)?.ok_or("none")?;
    let blocks = [
        standing(0, 0),
        standing(3, 0),
        standing(6, 0),
        lying(0, 9),
        lying(0, 12),
        lying(0, 15),
    ];
    assert!(rt; layer.spots() == blocks.as_slice());
    Ok(())
}

#[test]
fn third_pass(rt: HostRuntime) -> Result<(), Fail> {
    let rules = [Rule::Contact(70), Rule::Support];
    let layer = found(rt.alloc(), [10, 12, 8, 4], 0, &rules, 3)?.ok_or("none")?;
    let blocks = [standing(1, 0), standing(5, 0), lying(1, 8)];
    assert!(rt; layer.spots() == blocks.as_slice());
    Ok(())
}

#[test]
fn none(rt: HostRuntime) -> Result<(), Fail> {
    let lone = found(rt.alloc(), [2, 2, 2, 2], 0, &[Rule::Support], 1)?;
    assert!(rt; lone.is_none());
    let grid = found(rt.alloc(), [1200, 800, 400, 300], 0, &[Rule::Support], 8)?;
    assert!(rt; grid.is_none());
    let cut = [Rule::Contact(100), Rule::Support, Rule::Cut(19)];
    let round = found(rt.alloc(), [5, 5, 3, 2], 0, &cut, 4)?;
    assert!(rt; round.is_none());
    let whole = [Rule::Contact(100), Rule::Support, Rule::Cut(99)];
    let apart = found(rt.alloc(), [5, 5, 2, 2], 1, &whole, 4)?;
    assert!(rt; apart.is_none());
    Ok(())
}
