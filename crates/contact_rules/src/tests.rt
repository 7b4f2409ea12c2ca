ghost use Rattle.std.specs.Prelude.{◌≡◌, IfOk};

use crate::{Rule, Runs, contact, meets, straight_run, supports};
use plan_geometry::{Inst, Layer, Spot, Way};
use std::alloc::Global;
use std::test::Fail;

fn crosses_threads<T: Send + Sync>() {}

fn at(x: u32, y: u32, way: Way) -> Spot {
    Spot { x, y, way }
}

// Four cases of 3 by 2 on a pallet of 5 by 5, and the same in a mirror.
fn pinwheels(alloc: Global) -> Result<(Layer, Layer), Fail>
    ensures same { IfOk result (λ p. p.1.inst ≡ p.0.inst) }
{
    let inst = Inst {
        l_side: 5,
        w_side: 5,
        long: 3,
        short: 2,
    };
    let mut first = Vec::new(alloc);
    first.push(at(0, 0, Way::Lying))?;
    first.push(at(3, 0, Way::Standing))?;
    first.push(at(0, 2, Way::Standing))?;
    first.push(at(2, 3, Way::Lying))?;
    let mut second = Vec::new(alloc);
    second.push(at(0, 0, Way::Standing))?;
    second.push(at(2, 0, Way::Lying))?;
    second.push(at(3, 2, Way::Standing))?;
    second.push(at(0, 3, Way::Lying))?;
    let lower = Layer::new(inst, first).ok_or("no layout")?;
    let upper = Layer::new(inst, second).ok_or("no layout")?;
    Ok((lower, upper))
}

#[test]
fn threads(_rt: HostRuntime) -> Result<(), Fail> {
    crosses_threads::<Rule>();
    crosses_threads::<Runs>();
    Ok(())
}

#[test]
fn runs(rt: HostRuntime) -> Result<(), Fail> {
    let (lower, upper) = pinwheels(rt.alloc())?;
    assert!(rt;
        straight_run(&lower, &lower, 0)
            == Runs {
                rows: 3,
                columns: 3
            }
    );
    assert!(rt;
        straight_run(&lower, &upper, 0)
            == Runs {
                rows: 1,
                columns: 1
            }
    );
    Ok(())
}

#[test]
fn no_line_counts(rt: HostRuntime) -> Result<(), Fail> {
    let inst = Inst {
        l_side: 2,
        w_side: 2,
        long: 2,
        short: 2,
    };
    let mut spots = Vec::new(rt.alloc());
    spots.push(at(0, 0, Way::Lying))?;
    let layer = Layer::new(inst, spots).ok_or("no layout")?;
    assert!(rt;
        straight_run(&layer, &layer, 0)
            == Runs {
                rows: 0,
                columns: 0
            }
    );
    Ok(())
}

#[test]
fn rules(rt: HostRuntime) -> Result<(), Fail> {
    let (lower, upper) = pinwheels(rt.alloc())?;
    assert!(rt; meets(Rule::Contact(100), &lower, &upper, 0));
    assert!(rt; meets(Rule::Support, &lower, &upper, 0));
    assert!(rt; !meets(Rule::Support, &lower, &lower, 0));
    assert!(rt; meets(Rule::Cut(20), &lower, &upper, 0));
    assert!(rt; !meets(Rule::Cut(19), &lower, &upper, 0));
    Ok(())
}

#[test]
fn gap(rt: HostRuntime) -> Result<(), Fail> {
    let inst = Inst {
        l_side: 6,
        w_side: 6,
        long: 3,
        short: 3,
    };
    let mut spots = Vec::new(rt.alloc());
    spots.push(at(0, 0, Way::Lying))?;
    spots.push(at(3, 0, Way::Lying))?;
    let lower = Layer::new(inst, spots).ok_or("no layout")?;
    let upper = Spot {
        x: 1,
        y: 0,
        way: Way::Lying,
    };
    assert_eq!(rt; contact(upper, &lower, 1), 2);
    assert_eq!(rt; contact(upper, &lower, 0), 9);
    assert_eq!(rt; supports(upper, &lower, 1), 1);
    Ok(())
}

// Three cases of 2 by 2 behind one another.
#[test]
fn rows_between(rt: HostRuntime) -> Result<(), Fail> {
    let inst = Inst {
        l_side: 2,
        w_side: 6,
        long: 2,
        short: 2,
    };
    let mut spots = Vec::new(rt.alloc());
    spots.push(at(0, 0, Way::Lying))?;
    spots.push(at(0, 2, Way::Lying))?;
    spots.push(at(0, 4, Way::Lying))?;
    let lower = Layer::new(inst, spots).ok_or("no layout")?;
    let between = Spot {
        x: 0,
        y: 3,
        way: Way::Lying,
    };
    assert_eq!(rt; contact(between, &lower, 0), 4);
    assert_eq!(rt; supports(between, &lower, 0), 2);
    let last = Spot {
        x: 0,
        y: 4,
        way: Way::Lying,
    };
    assert_eq!(rt; contact(last, &lower, 0), 4);
    assert_eq!(rt; supports(last, &lower, 0), 1);
    Ok(())
}
