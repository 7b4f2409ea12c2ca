use crate::put_stack_words;
use cert_text::Form;
use contact_rules::Rule;
use layer_symmetry::Move;
use order_reader::Order;
use plan_entries::{Entry, Layers, Listed, Plan, Spots, Status, is_in_range};
use plan_geometry::{Inst, Spot, Way};
use stack_builder::{StackAnswer, UnmetRule, UnmetRules, VariantNumbers};
use std::alloc::Global;
use std::test::Fail;
use weightings::{Cert, Mark, Marks, Weighting};

// An order of cases of 1 by 1 on a pallet of 12 by 1, with this height and weight of a case and these rules.
fn order(alloc: Global, case_z: u32, weight: u32, rules: [u32; 3]) -> Result<Order, Fail> {
    let [contact, support, cut] = rules;
    let numbers = [
        12, 1, 1, 1, case_z, weight, 2000, 1_000_000, contact, support, cut, 0,
    ];
    match Order::new(alloc, b"A".as_slice(), numbers) {
        Ok(order) => Ok(order),
        Err(_) => Err("no order".into()),
    }
}

// So many cases side by side.
fn row(alloc: Global, count: u32) -> Result<Spots, Fail> {
    let mut spots = Vec::new(alloc);
    for x in 0..count {
        spots.push(Spot {
            x,
            y: 0,
            way: Way::Lying,
        })?;
    }
    Ok(Spots::new(spots))
}

// A plan of layers of so many cases, of which so many forms are listed.
fn planned(
    alloc: Global,
    order: Order,
    count: u32,
    forms: u32,
    stack: StackAnswer,
) -> Result<Entry, Fail> {
    let mut layers = Vec::new(alloc);
    for _ in 0..forms {
        layers.push(Listed {
            turn: Move::Same,
            spots: row(alloc, count)?,
        })?;
    }
    let mut tree = Vec::new(alloc);
    tree.push(Mark::Leaf)?;
    Ok(Entry::Planned(Plan {
        number: 1,
        order,
        reduced: Inst::new(12, 1, 1, 1).ok_or("sides")?,
        count,
        bound: 12,
        status: Status::StillOpen,
        cert: Cert::Weighted {
            weighting: Weighting::Area,
            tree: Marks::new(tree),
        },
        layers: Layers::new(layers),
        allowed: 7,
        stack,
    }))
}

fn stacked(alloc: Global, forms: &[u32]) -> Result<StackAnswer, Fail> {
    Ok(StackAnswer::Stack(VariantNumbers::new(forms.to_vec(alloc)?)))
}

fn words(alloc: Global, entry: &Entry) -> Result<Vec<u8>, Fail> {
    if !is_in_range(entry, Form::Two) {
        return Err("out of range".into());
    }
    let Entry::Planned(plan) = entry else {
        return Err("refused".into());
    };
    let mut out = Vec::new(alloc);
    put_stack_words(&mut out, plan)?;
    Ok(out)
}

// Seven layers of 12 cases, each 200 high and of 1200 g: 84 cases, 7 * 200 = 1400 high, 84 * 1200 = 100800 g.
#[test]
fn two_forms(rt: HostRuntime) -> Result<(), Fail> {
    let alloc = rt.alloc();
    let stack = stacked(alloc, [1, 2, 1, 2, 1, 2, 1].as_slice())?;
    let order = order(alloc, 200, 1200, [0, 0, 100])?;
    let entry = planned(alloc, order, 12, 2, stack)?;
    assert_eq!(rt;
        words(alloc, &entry)?.as_slice(),
        b"<h3>The stack</h3>\n<ul class=\"stack\">\n<li>layers 1, 3, 5, 7: form 1</li>\n<li>layers 2, 4, 6: form 2</li>\n</ul>\n<p class=\"total\"><b>84 cases</b>, 1400 high, 100.800 kg</p>\n".as_slice()
    );
    Ok(())
}

// A form that no layer has is left out. Three layers of 2 cases, each 15 high and of 8001 g: 48006 g in all.
#[test]
fn form_left_out(rt: HostRuntime) -> Result<(), Fail> {
    let alloc = rt.alloc();
    let stack = stacked(alloc, [4, 1, 4].as_slice())?;
    let order = order(alloc, 15, 8001, [0, 0, 100])?;
    let entry = planned(alloc, order, 2, 4, stack)?;
    assert_eq!(rt;
        words(alloc, &entry)?.as_slice(),
        b"<h3>The stack</h3>\n<ul class=\"stack\">\n<li>layer 2: form 1</li>\n<li>layers 1, 3: form 4</li>\n</ul>\n<p class=\"total\"><b>6 cases</b>, 45 high, 48.006 kg</p>\n".as_slice()
    );
    Ok(())
}

#[test]
fn one_case(rt: HostRuntime) -> Result<(), Fail> {
    let alloc = rt.alloc();
    let stack = stacked(alloc, [1].as_slice())?;
    let order = order(alloc, 3, 70, [0, 0, 100])?;
    let entry = planned(alloc, order, 1, 1, stack)?;
    assert_eq!(rt;
        words(alloc, &entry)?.as_slice(),
        b"<h3>The stack</h3>\n<ul class=\"stack\">\n<li>layer 1: form 1</li>\n</ul>\n<p class=\"total\"><b>1 case</b>, 3 high, 0.070 kg</p>\n".as_slice()
    );
    Ok(())
}

#[test]
fn no_layer(rt: HostRuntime) -> Result<(), Fail> {
    let alloc = rt.alloc();
    let stack = stacked(alloc, [].as_slice())?;
    let order = order(alloc, 3, 70, [0, 0, 100])?;
    let entry = planned(alloc, order, 1, 1, stack)?;
    assert_eq!(rt;
        words(alloc, &entry)?.as_slice(),
        b"<h3>The stack</h3>\n<p>No layer: the height or the weight allows none.</p>\n".as_slice()
    );
    Ok(())
}

#[test]
fn unmet(rt: HostRuntime) -> Result<(), Fail> {
    let alloc = rt.alloc();
    let mut told = Vec::new(alloc);
    for (rule, alone) in [
        (Rule::Contact(70), false),
        (Rule::Support, true),
        (Rule::Cut(50), false),
    ] {
        told.push(UnmetRule { rule, alone })?;
    }
    let stack = StackAnswer::Unmet(UnmetRules::new(told));
    let order = order(alloc, 3, 70, [70, 1, 50])?;
    let entry = planned(alloc, order, 1, 1, stack)?;
    assert_eq!(rt;
        words(alloc, &entry)?.as_slice(),
        b"<h3>No stack meets the rules</h3>\n<ul class=\"unmet\">\n<li>contact of 70 percent: some two of the forms shown, or one on itself, meet it, but none meet all rules together</li>\n<li>support by two cases: no two of the forms shown meet it, and none does on itself</li>\n<li>no cut over 50 percent: some two of the forms shown, or one on itself, meet it, but none meet all rules together</li>\n</ul>\n<p>This is said of the forms shown here. Nothing is said of layers that are not shown.</p>\n".as_slice()
    );
    Ok(())
}
