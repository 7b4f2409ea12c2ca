ghost use Rattle.std.specs.Prelude.{◌≡◌, ◌≤◌, length, All, IfOk};
ghost use Rattle.order_reader.specs.Instances.{IsGivenOf};

use crate::{
    StackAnswer, UnmetRule, UnmetRules, VariantNumbers, interlocks, layers_allowed, order_rules,
    stack,
};
use contact_rules::Rule;
use layer_symmetry::{Move, variants};
use order_reader::Order;
use plan_geometry::{Layer, Spot, Way};
use std::alloc::Global;
use std::test::Fail;

fn crosses_threads<T: Send + Sync>() {}

fn at(x: u32, y: u32, way: Way) -> Spot {
    Spot { x, y, way }
}

// The variants of a layer of the order.
fn variants_of(alloc: Global, order: &Order, spots: Vec<Spot>) -> Result<Vec<(Move, Layer)>, Fail>
    ensures given { IfOk result (λ v. All (λ p. IsGivenOf order.now p.1.inst) v.items) }
    ensures few { IfOk result (λ v. length v.items ≤ 8) }
{
    let Some(layer) = Layer::new(order.inst(), spots) else {
        return Err("no layout".into());
    };
    let all = variants(alloc, &layer)?;
    Ok(all)
}

fn order(alloc: Global, numbers: [u32; 12]) -> Result<Order, Fail> {
    match Order::new(alloc, b"A", numbers) {
        Ok(order) => Ok(order),
        Err(_) => Err("refused".into()),
    }
}

// Four cases of 3 by 2 on a pallet of 5 by 5.
fn pinwheel(alloc: Global) -> Result<Vec<Spot>, Fail> {
    let mut spots = Vec::new(alloc);
    spots.push(at(0, 0, Way::Lying))?;
    spots.push(at(3, 0, Way::Standing))?;
    spots.push(at(0, 2, Way::Standing))?;
    spots.push(at(2, 3, Way::Lying))?;
    Ok(spots)
}

#[test]
fn threads(_rt: HostRuntime) -> Result<(), Fail> {
    crosses_threads::<StackAnswer>();
    crosses_threads::<VariantNumbers>();
    crosses_threads::<UnmetRules>();
    crosses_threads::<UnmetRule>();
    Ok(())
}

#[test]
fn two_layers(rt: HostRuntime) -> Result<(), Fail> {
    let asked = order(rt.alloc(), [5, 5, 3, 2, 1, 10, 2, 1000, 100, 1, 20, 0])?;
    let listed = variants_of(rt.alloc(), &asked, pinwheel(rt.alloc())?)?;
    match stack(rt.alloc(), &asked, &listed, 2)? {
        StackAnswer::Stack(numbers) => assert!(rt; numbers.as_slice() == [1, 2].as_slice()),
        StackAnswer::Unmet(_) => return Err("unmet".into()),
    }
    Ok(())
}

#[test]
fn cut_alone(rt: HostRuntime) -> Result<(), Fail> {
    let asked = order(rt.alloc(), [5, 5, 3, 2, 1, 10, 2, 1000, 100, 1, 19, 0])?;
    let listed = variants_of(rt.alloc(), &asked, pinwheel(rt.alloc())?)?;
    let mut marks = Vec::new(rt.alloc());
    marks.push(UnmetRule {
        rule: Rule::Contact(100),
        alone: false,
    })?;
    marks.push(UnmetRule {
        rule: Rule::Support,
        alone: false,
    })?;
    marks.push(UnmetRule {
        rule: Rule::Cut(19),
        alone: true,
    })?;
    let expected = StackAnswer::Unmet(UnmetRules::new(marks));
    let answer = stack(rt.alloc(), &asked, &listed, 2)?;
    assert!(rt; answer.is_same(&expected));
    Ok(())
}

#[test]
fn support_alone(rt: HostRuntime) -> Result<(), Fail> {
    let asked = order(rt.alloc(), [2, 2, 2, 2, 1, 1, 3, 1000, 0, 1, 100, 0])?;
    let mut spots = Vec::new(rt.alloc());
    spots.push(at(0, 0, Way::Lying))?;
    let listed = variants_of(rt.alloc(), &asked, spots)?;
    let mut marks = Vec::new(rt.alloc());
    marks.push(UnmetRule {
        rule: Rule::Support,
        alone: true,
    })?;
    let expected = StackAnswer::Unmet(UnmetRules::new(marks));
    let three = stack(rt.alloc(), &asked, &listed, 3)?;
    assert!(rt; three.is_same(&expected));
    let mut one = Vec::new(rt.alloc());
    one.push(1)?;
    let lone = StackAnswer::Stack(VariantNumbers::new(one));
    let single = stack(rt.alloc(), &asked, &listed, 1)?;
    assert!(rt; single.is_same(&lone));
    Ok(())
}

#[test]
fn gap(rt: HostRuntime) -> Result<(), Fail> {
    let asked = order(rt.alloc(), [5, 5, 2, 2, 1, 1, 2, 1000, 100, 1, 99, 1])?;
    let mut spots = Vec::new(rt.alloc());
    spots.push(at(0, 0, Way::Lying))?;
    spots.push(at(3, 0, Way::Lying))?;
    spots.push(at(0, 3, Way::Lying))?;
    spots.push(at(3, 3, Way::Lying))?;
    let listed = variants_of(rt.alloc(), &asked, spots)?;
    assert_eq!(rt; listed.len(), 1);
    let mut marks = Vec::new(rt.alloc());
    marks.push(UnmetRule {
        rule: Rule::Contact(100),
        alone: false,
    })?;
    marks.push(UnmetRule {
        rule: Rule::Support,
        alone: true,
    })?;
    marks.push(UnmetRule {
        rule: Rule::Cut(99),
        alone: true,
    })?;
    let expected = StackAnswer::Unmet(UnmetRules::new(marks));
    let answer = stack(rt.alloc(), &asked, &listed, 2)?;
    assert!(rt; answer.is_same(&expected));
    Ok(())
}

// Whether some variant upon the first meets the rules of the order.
fn first_interlocks(alloc: Global, asked: &Order, spots: Vec<Spot>) -> Result<bool, Fail> {
    let listed = variants_of(alloc, asked, spots)?;
    let rules = order_rules(alloc, asked)?;
    Ok(interlocks(
        asked.inst(),
        asked.gap(),
        rules.as_slice(),
        listed.as_slice(),
    ))
}

#[test]
fn pinwheels_interlock(rt: HostRuntime) -> Result<(), Fail> {
    let met = order(rt.alloc(), [5, 5, 3, 2, 1, 10, 2, 1000, 100, 1, 20, 0])?;
    assert!(rt; first_interlocks(rt.alloc(), &met, pinwheel(rt.alloc())?)?);
    let unmet = order(rt.alloc(), [5, 5, 3, 2, 1, 10, 2, 1000, 100, 1, 19, 0])?;
    assert!(rt; !first_interlocks(rt.alloc(), &unmet, pinwheel(rt.alloc())?)?);
    Ok(())
}

#[test]
fn rules_of_orders(rt: HostRuntime) -> Result<(), Fail> {
    let all = order(rt.alloc(), [5, 5, 3, 2, 1, 10, 2, 1000, 70, 1, 60, 0])?;
    let rules = order_rules(rt.alloc(), &all)?;
    assert!(rt; rules.as_slice() == [Rule::Contact(70), Rule::Support, Rule::Cut(60)].as_slice());
    let none = order(rt.alloc(), [5, 5, 3, 2, 1, 10, 2, 1000, 0, 0, 100, 0])?;
    assert!(rt; order_rules(rt.alloc(), &none)?.is_empty());
    Ok(())
}

// A layer of the order as if it were its only variant.
fn lone_variant(alloc: Global, order: &Order, spots: Vec<Spot>) -> Result<Vec<(Move, Layer)>, Fail>
    ensures given { IfOk result (λ v. All (λ p. IsGivenOf order.now p.1.inst) v.items) }
    ensures few { IfOk result (λ v. length v.items ≤ 8) }
{
    let Some(layer) = Layer::new(order.inst(), spots) else {
        return Err("no layout".into());
    };
    let mut listed = Vec::new(alloc);
    if listed.push((Move::Same, layer)).is_err() {
        return Err("no memory".into());
    }
    Ok(listed)
}

// The pinwheel listed without its mirror image: not all the variants of a layer.
#[test]
fn part_of_the_variants(rt: HostRuntime) -> Result<(), Fail> {
    let asked = order(rt.alloc(), [5, 5, 3, 2, 1, 10, 2, 1000, 100, 1, 20, 0])?;
    let listed = lone_variant(rt.alloc(), &asked, pinwheel(rt.alloc())?)?;
    let mut marks = Vec::new(rt.alloc());
    marks.push(UnmetRule {
        rule: Rule::Contact(100),
        alone: false,
    })?;
    marks.push(UnmetRule {
        rule: Rule::Support,
        alone: true,
    })?;
    marks.push(UnmetRule {
        rule: Rule::Cut(20),
        alone: true,
    })?;
    let expected = StackAnswer::Unmet(UnmetRules::new(marks));
    let answer = stack(rt.alloc(), &asked, &listed, 2)?;
    assert!(rt; answer.is_same(&expected));
    Ok(())
}

#[test]
fn allowed(rt: HostRuntime) -> Result<(), Fail> {
    let heavy = order(rt.alloc(), [5, 5, 3, 2, 1, 10, 3, 95, 0, 0, 100, 0])?;
    assert_eq!(rt; layers_allowed(&heavy, 4), 2);
    let none = order(rt.alloc(), [5, 5, 3, 2, 1, 10, 3, 39, 0, 0, 100, 0])?;
    assert_eq!(rt; layers_allowed(&none, 4), 0);
    let listed = variants_of(rt.alloc(), &none, pinwheel(rt.alloc())?)?;
    match stack(rt.alloc(), &none, &listed, 0)? {
        StackAnswer::Stack(numbers) => assert!(rt; numbers.as_slice().is_empty()),
        StackAnswer::Unmet(_) => return Err("unmet".into()),
    }
    Ok(())
}
