use crate::plan_order;
use crate::search::{Searched, search};
use layer_patterns::layer_by_blocks;
use layer_symmetry::Move;
use minimum_size::reduce;
use order_reader::Order;
use plan_entries::{Plan, Status};
use plan_geometry::{Inst, Spot, Way, area_bound, case_fits};
use stack_builder::StackAnswer;
use std::alloc::Global;
use std::test::Fail;
use weightings::{Cert, Weighting, lead};

// The plan of an order with this pallet and case.
fn planned(
    alloc: Global,
    pallet_x: u32,
    pallet_y: u32,
    case_x: u32,
    case_y: u32,
) -> Result<Plan, Fail> {
    let numbers = [
        pallet_x, pallet_y, case_x, case_y, 1, 10, 2, 1000, 0, 0, 100, 0,
    ];
    let Ok(order) = Order::new(alloc, b"A".as_slice(), numbers) else {
        return Err("no order".into());
    };
    let plan = plan_order(alloc, &order, 1)?;
    Ok(plan)
}

fn spot(x: u32, y: u32, way: Way) -> Spot {
    Spot { x, y, way }
}

// How many marks a certificate by weights has; 0 for any other.
fn marks_of(plan: &Plan) -> usize {
    match plan.cert {
        Cert::Weighted { ref tree, .. } => tree.as_slice().len(),
        Cert::Strip(_) | Cert::GivenArea => 0,
    }
}

// How many cuts a certificate by strips has; 0 for any other.
fn cuts_of(plan: &Plan) -> usize {
    match plan.cert {
        Cert::Strip(ref strip) => strip.cuts().len(),
        Cert::Weighted { .. } | Cert::GivenArea => 0,
    }
}

// Whether the certificate is by this colour.
fn is_colour(plan: &Plan, side: u32, rest: u32) -> bool {
    match plan.cert {
        Cert::Weighted { ref weighting, .. } => match *weighting {
            Weighting::Colour { k, c } => k == side && c == rest,
            Weighting::Area | Weighting::Comb { .. } | Weighting::Table(_) | Weighting::Lines(_) =>
                false,
        },
        Cert::Strip(_) | Cert::GivenArea => false,
    }
}

// Whether the certificate is by a table.
fn is_table(plan: &Plan) -> bool {
    match plan.cert {
        Cert::Weighted { ref weighting, .. } => match *weighting {
            Weighting::Table(_) | Weighting::Lines(_) => true,
            Weighting::Area | Weighting::Colour { .. } | Weighting::Comb { .. } => false,
        },
        Cert::Strip(_) | Cert::GivenArea => false,
    }
}

// Whether the stack is this list.
fn is_stack(plan: &Plan, expected: &[u32]) -> bool {
    match plan.stack {
        StackAnswer::Stack(ref numbers) => numbers.as_slice() == expected,
        StackAnswer::Unmet(_) => false,
    }
}

#[test]
fn two_layers(rt: HostRuntime) -> Result<(), Fail> {
    let plan = planned(rt.alloc(), 5, 5, 3, 2)?;
    assert_eq!(rt;
        (plan.number, plan.count, plan.bound, plan.allowed),
        (1, 4, 4, 2)
    );
    assert!(rt; plan.status == Status::Optimal && marks_of(&plan) == 1);
    assert!(rt; is_stack(&plan, &[1, 1]));
    let layers = plan.layers.as_slice();
    assert_eq!(rt; layers.len(), 2);
    assert!(rt; layers[1].turn == Move::MirrorX);
    let first = [
        spot(0, 0, Way::Lying),
        spot(3, 0, Way::Standing),
        spot(0, 2, Way::Standing),
        spot(2, 3, Way::Lying),
    ];
    assert!(rt; layers[0].spots.as_slice() == first.as_slice());
    Ok(())
}

// The order's own places, where the reduced instance is one case large.
#[test]
fn own_places(rt: HostRuntime) -> Result<(), Fail> {
    let plan = planned(rt.alloc(), 5, 5, 3, 3)?;
    assert_eq!(rt; (plan.reduced.l_side, plan.count, plan.bound), (1, 1, 1));
    let layers = plan.layers.as_slice();
    assert_eq!(rt; layers.len(), 4);
    let last = [spot(2, 2, Way::Lying)];
    assert!(rt; layers[3].spots.as_slice() == last.as_slice());
    Ok(())
}

// How a search for one case more than the patterns of blocks reach ends.
fn searched(alloc: Global, sides: [u32; 4]) -> Result<Searched, Fail> {
    let given = Inst::new(sides[0], sides[1], sides[2], sides[3]).ok_or("sides")?;
    if !case_fits(given) {
        return Err("no case fits".into());
    }
    let inst = reduce(given);
    let most = area_bound(inst);
    if most > 999 {
        return Err("too many cases".into());
    }
    let layer = layer_by_blocks(alloc, inst, most)?;
    let lead = lead(inst);
    let more = layer.count() + 1;
    let answer = search(alloc, inst, &lead, more, layer)?;
    Ok(answer)
}

// By the lead, and by the strips.
#[test]
fn certificates(rt: HostRuntime) -> Result<(), Fail> {
    let plan = planned(rt.alloc(), 6, 6, 4, 1)?;
    assert_eq!(rt; (plan.count, plan.bound), (8, 8));
    assert!(rt; is_colour(&plan, 4, 3) && marks_of(&plan) == 1);
    let plan = planned(rt.alloc(), 9, 8, 5, 2)?;
    assert_eq!(rt; (plan.count, plan.bound, cuts_of(&plan)), (6, 6, 8));
    Ok(())
}

// Where neither the lead nor the strips show that no layer has more cases, a table does.
#[test]
fn tables(rt: HostRuntime) -> Result<(), Fail> {
    let orders = [
        ([12, 11, 7, 2], 8),
        ([19, 12, 7, 2], 14),
        ([47, 27, 10, 3], 40),
        ([54, 37, 10, 3], 65),
    ];
    for ([pallet_x, pallet_y, case_x, case_y], count) in orders {
        let plan = planned(rt.alloc(), pallet_x, pallet_y, case_x, case_y)?;
        assert_eq!(rt; (plan.count, plan.bound), (count, count));
        assert!(rt; plan.status == Status::Optimal);
        assert!(rt; is_table(&plan) && marks_of(&plan) == 1);
    }
    Ok(())
}

// Searches that refute one case more, by their numbers of marks.
#[test]
fn refuted(rt: HostRuntime) -> Result<(), Fail> {
    let searches = [
        ([14, 13, 5, 3], 11, 300),
        ([12, 11, 7, 2], 8, 631),
        ([14, 13, 4, 3], 14, 3_418),
        ([15, 14, 9, 2], 10, 13_501),
    ];
    for (sides, count, marks) in searches {
        let Searched::Refuted { layer, tree } = searched(rt.alloc(), sides)? else {
            return Err("not refuted".into());
        };
        assert_eq!(rt; layer.count(), count);
        assert_eq!(rt; tree.as_slice().len(), marks);
    }
    Ok(())
}

// Where one case more is neither found nor refuted within the states that are visited.
#[test]
fn spent(rt: HostRuntime) -> Result<(), Fail> {
    let Searched::Spent { layer } = searched(rt.alloc(), [19, 12, 7, 2])? else {
        return Err("not spent".into());
    };
    assert_eq!(rt; layer.count(), 14);
    Ok(())
}
