use crate::{Entry, Layers, Listed, Plan, Spots, Status, is_in_range};
use cert_text::Form;
use layer_symmetry::Move;
use order_reader::{Field, Order, RowFault};
use plan_geometry::{Inst, Spot, Way};
use stack_builder::{StackAnswer, VariantNumbers};
use std::alloc::Global;
use std::test::Fail;
use weightings::{Cert, Mark, Marks, Weighting};

fn crosses_threads<T: Send + Sync>() {}

#[test]
fn threads(_rt: HostRuntime) -> Result<(), Fail> {
    crosses_threads::<Entry>();
    crosses_threads::<Plan>();
    Ok(())
}

// One case of 3 by 3 on a pallet of 5 by 5, with this gap and this number of layers in the stack.
fn planned(alloc: Global, gap: u32, stacked: u32) -> Result<Entry, Fail> {
    let numbers = [5, 5, 3, 3, 1, 10, 2, 1000, 0, 0, 100, gap];
    let Ok(order) = Order::new(alloc, b"A".as_slice(), numbers) else {
        return Err("no order".into());
    };
    let mut spots = Vec::new(alloc);
    spots.push(Spot {
        x: 0,
        y: 0,
        way: Way::Lying,
    })?;
    let mut layers = Vec::new(alloc);
    layers.push(Listed {
        turn: Move::Same,
        spots: Spots::new(spots),
    })?;
    let mut tree = Vec::new(alloc);
    tree.push(Mark::Leaf)?;
    let mut stack = Vec::new(alloc);
    for _ in 0..stacked {
        stack.push(1)?;
    }
    Ok(Entry::Planned(Plan {
        number: 1,
        order,
        reduced: Inst::new(1, 1, 1, 1).ok_or("sides")?,
        count: 1,
        bound: 1,
        status: Status::Optimal,
        cert: Cert::Weighted {
            weighting: Weighting::Area,
            tree: Marks::new(tree),
        },
        layers: Layers::new(layers),
        allowed: 2,
        stack: StackAnswer::Stack(VariantNumbers::new(stack)),
    }))
}

#[test]
fn ranges(rt: HostRuntime) -> Result<(), Fail> {
    let entry = planned(rt.alloc(), 0, 2)?;
    assert!(rt; is_in_range(&entry, Form::Two) && is_in_range(&entry, Form::One));
    assert!(rt; entry.number() == 1 && !entry.is_refused());
    // The gap is no number of the first form.
    let apart = planned(rt.alloc(), 1, 2)?;
    assert!(rt; is_in_range(&apart, Form::Two) && !is_in_range(&apart, Form::One));
    let fault = RowFault::BadNumber { field: Field::Gap };
    let refused = Entry::Refused { number: 64, fault };
    assert!(rt; refused.is_refused());
    assert!(rt; is_in_range(&refused, Form::Two) && !is_in_range(&refused, Form::One));
    Ok(())
}
