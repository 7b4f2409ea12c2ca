use crate::{answer_from, layers_from, put_answer, put_layers};
use layer_symmetry::Move;
use order_reader::Order;
use plan_entries::{Layers, Listed, Spots};
use plan_geometry::{Spot, Way};
use stack_builder::{StackAnswer, VariantNumbers};
use std::alloc::Global;
use std::test::Fail;
use texts::Stop;

const LAYERS: &[u8] =
    b"layers 2\nlayer 1 same\n0 0 L\n3 0 S\n0 2 S\n2 3 L\nlayer 2 mirror-x\n0 0 S\n2 0 L\n3 2 S\n0 3 L\n";

const UNMET: &[u8] = b"allowed 10000\nunmet\nrule contact together\nrule cut alone\n";

fn spot(x: u32, y: u32, way: Way) -> Spot {
    Spot { x, y, way }
}

// Two layers of four cases of 3 by 2 on a pallet of 5 by 5.
fn two_layers(alloc: Global) -> Result<Layers, Fail> {
    let lying = Way::Lying;
    let standing = Way::Standing;
    let first = [
        spot(0, 0, lying),
        spot(3, 0, standing),
        spot(0, 2, standing),
        spot(2, 3, lying),
    ];
    let second = [
        spot(0, 0, standing),
        spot(2, 0, lying),
        spot(3, 2, standing),
        spot(0, 3, lying),
    ];
    let mut layers = Vec::new(alloc);
    layers.push(Listed {
        turn: Move::Same,
        spots: Spots::new(Vec::from_slice(alloc, first.as_slice())?),
    })?;
    layers.push(Listed {
        turn: Move::MirrorX,
        spots: Spots::new(Vec::from_slice(alloc, second.as_slice())?),
    })?;
    Ok(Layers::new(layers))
}

#[test]
fn layers_put(rt: HostRuntime) -> Result<(), Fail> {
    let layers = two_layers(rt.alloc())?;
    let mut out = Vec::new(rt.alloc());
    assert!(rt; layers.as_slice().len() <= 8);
    put_layers(&mut out, &layers)?;
    assert_eq!(rt; out.as_slice(), LAYERS);
    Ok(())
}

// How many lines were left at the fault, or 1,000 where layers were read.
fn left_of(alloc: Global, bytes: &[u8], count: u32) -> usize {
    match layers_from(alloc, bytes, count) {
        Err(Stop::Left(left)) => left,
        Err(Stop::Memory) => 2_000,
        Ok(_) => 1_000,
    }
}

#[test]
fn layers_read(rt: HostRuntime) -> Result<(), Fail> {
    let (layers, rest) = layers_from(rt.alloc(), LAYERS, 4)?;
    let layers = layers.as_slice();
    assert_eq!(rt; rest.len(), 0);
    assert_eq!(rt; layers.len(), 2);
    assert!(rt; layers[1].turn == Move::MirrorX);
    let [_, second, ..] = layers[1].spots.as_slice() else {
        return Err("cases".into());
    };
    assert!(rt; *second == spot(2, 0, Way::Lying));
    assert_eq!(rt; left_of(rt.alloc(), LAYERS, 3), 6);
    assert_eq!(rt; left_of(rt.alloc(), LAYERS, 5), 5);
    Ok(())
}

#[test]
fn layer_faults(rt: HostRuntime) {
    let alloc = rt.alloc();
    assert_eq!(rt;
        left_of(alloc, b"layers 1\nlayer 1 same\n4000 0 L\nrest", 1),
        1_000
    );
    assert_eq!(rt; left_of(alloc, b"layers 1\nlayer 1 same\n4001 0 L\n", 1), 1);
    assert_eq!(rt; left_of(alloc, b"layers 1\nlayer 1 same\n01 0 L\n", 1), 1);
    assert_eq!(rt; left_of(alloc, b"layers 1\nlayer 1 same\n1 0 l\n", 1), 1);
    assert_eq!(rt; left_of(alloc, b"layers 1\nlayer 0 same\n1 0 L\n", 1), 2);
    assert_eq!(rt; left_of(alloc, b"layers 1\nlayer 1 Same\n1 0 L\n", 1), 2);
    assert_eq!(rt; left_of(alloc, b"layers 9\n", 1), 1);
    assert_eq!(rt; left_of(alloc, b"layers 0\n", 0), 1);
    assert_eq!(rt; left_of(alloc, b"layers 1 \n", 1), 1);
    assert_eq!(rt; left_of(alloc, b"layers 1", 1), 0);
}

// An order that asks for contact and cuts.
fn order(alloc: Global) -> Result<Order, Fail> {
    let numbers = [5, 5, 3, 2, 1, 10, 2, 1000, 100, 0, 20, 0];
    match Order::new(alloc, b"A".as_slice(), numbers) {
        Ok(order) => Ok(order),
        Err(_) => Err("no order".into()),
    }
}

#[test]
fn stack_text(rt: HostRuntime) -> Result<(), Fail> {
    let order = order(rt.alloc())?;
    let text = b"allowed 2\nstack 1 2\n".as_slice();
    let ((allowed, stack), rest) = answer_from(rt.alloc(), text, &order, 2)?;
    assert_eq!(rt; allowed, 2);
    assert_eq!(rt; rest.len(), 0);
    let StackAnswer::Stack(numbers) = &stack else {
        return Err("no stack".into());
    };
    assert_eq!(rt; numbers.as_slice(), [1, 2].as_slice());
    let mut out = Vec::new(rt.alloc());
    put_answer(&mut out, allowed, &stack)?;
    assert_eq!(rt; out.as_slice(), text);
    let mut out = Vec::new(rt.alloc());
    put_answer(
        &mut out,
        0,
        &StackAnswer::Stack(VariantNumbers::new(Vec::new(rt.alloc()))),
    )?;
    assert_eq!(rt; out.as_slice(), b"allowed 0\nstack\n".as_slice());
    Ok(())
}

#[test]
fn unmet_text(rt: HostRuntime) -> Result<(), Fail> {
    let order = order(rt.alloc())?;
    let ((allowed, stack), rest) = answer_from(rt.alloc(), UNMET, &order, 2)?;
    assert_eq!(rt; rest.len(), 0);
    let StackAnswer::Unmet(unmet) = &stack else {
        return Err("a stack".into());
    };
    let told = unmet.as_slice();
    assert_eq!(rt; told.len(), 2);
    assert!(rt; !told[0].alone && told[1].alone);
    let mut out = Vec::new(rt.alloc());
    put_answer(&mut out, allowed, &stack)?;
    assert_eq!(rt; out.as_slice(), UNMET);
    Ok(())
}

// How many lines were left at the fault, or 1,000 where an answer was read.
fn answer_left(alloc: Global, bytes: &[u8], order: &Order) -> usize {
    match answer_from(alloc, bytes, order, 2) {
        Err(Stop::Left(left)) => left,
        Err(Stop::Memory) => 2_000,
        Ok(_) => 1_000,
    }
}

#[test]
fn answer_faults(rt: HostRuntime) -> Result<(), Fail> {
    let order = order(rt.alloc())?;
    let alloc = rt.alloc();
    assert_eq!(rt; answer_left(alloc, b"allowed 10001\n", &order), 1);
    assert_eq!(rt; answer_left(alloc, b"allowed 1\nstack\n", &order), 1_000);
    assert_eq!(rt; answer_left(alloc, b"allowed 1\nstack 3\n", &order), 1);
    assert_eq!(rt; answer_left(alloc, b"allowed 1\nstack 0\n", &order), 1);
    assert_eq!(rt; answer_left(alloc, b"allowed 1\nstack \n", &order), 1);
    assert_eq!(rt;
        answer_left(alloc, b"allowed 1\nunmet\nrule support alone\n", &order),
        1
    );
    assert_eq!(rt;
        answer_left(
            alloc,
            b"allowed 1\nunmet\nrule contact alone\nend\n",
            &order
        ),
        1
    );
    Ok(())
}
