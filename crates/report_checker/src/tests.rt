ghost use Rattle.std.specs.Prelude.{◌≡◌, IfOk};
ghost use Rattle.cert_text.specs.declared.forms.Form.TheVariants.{Two};
ghost use Rattle.plan_entries.specs.Ranges.{IsInRange};

use crate::{Clause, Verdict, judge, put_verdict};
use cert_text::Form;
use layer_symmetry::Move;
use order_reader::{Order, RowFault};
use plan_entries::{Entry, Layers, Listed, Plan, Spots, Status, is_in_range};
use plan_geometry::{Inst, Spot, Way};
use stack_builder::{StackAnswer, VariantNumbers};
use std::alloc::Global;
use std::test::Fail;
use weightings::{Cert, Mark, Marks, Weighting};

fn crosses_threads<T: Send + Sync>() {}

#[test]
fn threads(_rt: HostRuntime) -> Result<(), Fail> {
    crosses_threads::<Verdict>();
    crosses_threads::<Clause>();
    Ok(())
}

fn listed(alloc: Global, turn: Move, places: [(u32, u32, Way); 4]) -> Result<Listed, Fail> {
    let mut spots = Vec::new(alloc);
    for (x, y, way) in places {
        spots.push(Spot { x, y, way })?;
    }
    Ok(Listed {
        turn,
        spots: Spots::new(spots),
    })
}

// Four cases of 3 by 2 on a pallet of 5 by 5, and the same in a mirror; the second case of the first layer
// stands at this x.
fn layers(alloc: Global, count: u32, x: u32) -> Result<Layers, Fail> {
    let (lying, standing) = (Way::Lying, Way::Standing);
    let mut layers = Vec::new(alloc);
    layers.push(listed(
        alloc,
        Move::Same,
        [
            (0, 0, lying),
            (x, 0, standing),
            (0, 2, standing),
            (2, 3, lying),
        ],
    )?)?;
    if count == 2 {
        layers.push(listed(
            alloc,
            Move::MirrorX,
            [
                (0, 0, standing),
                (2, 0, lying),
                (3, 2, standing),
                (0, 3, lying),
            ],
        )?)?;
    }
    Ok(Layers::new(layers))
}

// What may be wrong with the plan of two layers.
#[derive(Clone, Copy)]
struct Change {
    reduced: [u32; 4],
    x: u32,
    layers: u32,
    bound: u32,
    status: Status,
    allowed: u32,
    stack: [u32; 2],
}

// Nothing is wrong.
fn sound() -> Change {
    Change {
        reduced: [5, 5, 3, 2],
        x: 3,
        layers: 2,
        bound: 4,
        status: Status::Optimal,
        allowed: 2,
        stack: [1, 2],
    }
}

// The plan of the order whose two layers meet the rules contact 100, support 1 and cut 20.
fn planned(alloc: Global, change: Change) -> Result<Entry, Fail> {
    let numbers = [5, 5, 3, 2, 1, 10, 2, 1000, 100, 1, 20, 0];
    let Ok(order) = Order::new(alloc, b"A".as_slice(), numbers) else {
        return Err("no order".into());
    };
    let [l_side, w_side, long, short] = change.reduced;
    let reduced = Inst::new(l_side, w_side, long, short).ok_or("sides")?;
    let mut tree = Vec::new(alloc);
    tree.push(Mark::Leaf)?;
    Ok(Entry::Planned(Plan {
        number: 1,
        order,
        reduced,
        count: 4,
        bound: change.bound,
        status: change.status,
        cert: Cert::Weighted {
            weighting: Weighting::Area,
            tree: Marks::new(tree),
        },
        layers: layers(alloc, change.layers, change.x)?,
        allowed: change.allowed,
        stack: StackAnswer::Stack(VariantNumbers::new(Vec::from_array(alloc, change.stack)?)),
    }))
}

// The verdict on an entry that is within the ranges.
fn judged(alloc: Global, entry: &Entry) -> Result<Verdict, Fail> {
    if !is_in_range(entry, Form::Two) {
        return Err("out of range".into());
    }
    let verdict = judge(alloc, entry)?;
    Ok(verdict)
}

fn no(clause: Clause, item: u32) -> Verdict {
    Verdict::No { clause, item }
}

// The verdict on the plan with this change.
fn verdict_on(alloc: Global, change: Change) -> Result<Verdict, Fail> {
    let entry = planned(alloc, change)?;
    judged(alloc, &entry)
}

#[test]
fn sound_plan(rt: HostRuntime) -> Result<(), Fail> {
    assert!(rt; verdict_on(rt.alloc(), sound())? == Verdict::Yes);
    Ok(())
}

#[test]
fn refused_row(rt: HostRuntime) -> Result<(), Fail> {
    let fault = RowFault::DoesNotFit;
    let refused = Entry::Refused { number: 2, fault };
    assert!(rt; judged(rt.alloc(), &refused)? == Verdict::Refused);
    Ok(())
}

#[test]
fn layers_and_bounds(rt: HostRuntime) -> Result<(), Fail> {
    let mut change = sound();
    change.reduced = [5, 4, 3, 2];
    assert!(rt; verdict_on(rt.alloc(), change)? == no(Clause::Reduced, 0));
    change = sound();
    change.x = 2;
    assert!(rt; verdict_on(rt.alloc(), change)? == no(Clause::Layout, 1));
    change = sound();
    change.layers = 1;
    change.stack = [1, 1];
    assert!(rt; verdict_on(rt.alloc(), change)? == no(Clause::Variants, 2));
    change = sound();
    change.bound = 3;
    assert!(rt; verdict_on(rt.alloc(), change)? == no(Clause::Bound, 0));
    Ok(())
}

#[test]
fn status_and_stacks(rt: HostRuntime) -> Result<(), Fail> {
    let mut change = sound();
    change.status = Status::StillOpen;
    assert!(rt; verdict_on(rt.alloc(), change)? == no(Clause::Status, 0));
    change = sound();
    change.allowed = 3;
    assert!(rt; verdict_on(rt.alloc(), change)? == no(Clause::Allowed, 0));
    change = sound();
    change.stack = [1, 1];
    assert!(rt; verdict_on(rt.alloc(), change)? == no(Clause::Stack, 0));
    Ok(())
}

#[test]
fn lines(rt: HostRuntime) -> Result<(), Fail> {
    let mut text = Vec::new(rt.alloc());
    put_verdict(&mut text, 1, Verdict::Yes)?;
    put_verdict(&mut text, 2, Verdict::Refused)?;
    put_verdict(&mut text, 3, no(Clause::Variants, 2))?;
    assert!(rt;
        text.as_slice() == b"entry 1 yes\nentry 2 refused\nentry 3 no variants 2\n".as_slice()
    );
    let name = format!(in rt.alloc(); "{}", Clause::Layout)?;
    assert!(rt; name.as_str() == "layout");
    Ok(())
}
