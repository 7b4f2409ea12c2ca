use crate::{
    Total, TotalLine, floor_total, get_total, is_floor_for, put_total, read_floor, total_of,
};
use cert_text::Form;
use contact_rules::Rule;
use layer_symmetry::Move;
use order_reader::{Field, Order, ReadStop, Row, RowFault};
use plan_entries::{Entry, Layers, Listed, Plan, Spots, Status, is_in_range};
use plan_geometry::{Inst, Spot, Way};
use stack_builder::{StackAnswer, UnmetRule, UnmetRules, VariantNumbers};
use std::alloc::Global;
use std::test::Fail;
use weightings::Cert;

const HEADER: &str =
    "id,floor_x,floor_y,pallet_x,pallet_y,case_x,case_y,case_z,weight,max_height,max_weight,contact,support,cut,gap";

const ROW: &str = "\nT,1360,245,120,80,40,30,22,8000,160,1000000,70,0,100,0";

// The rows of a file with these rows under the header.
fn rows_of(alloc: Global, rows: &str) -> Result<Vec<Row>, Fail> {
    let text = format!(in alloc; "{HEADER}{rows}\n")?;
    let rows = read_floor(alloc, text.as_bytes())?;
    Ok(rows)
}

// The number and the fault of a refused row.
fn refused(row: &Row) -> Option<(u32, RowFault)> {
    match row {
        Row::Order(_) => None,
        Row::Refused { number, fault } => Some((*number, *fault)),
    }
}

#[test]
fn both_orders(rt: HostRuntime) -> Result<(), Fail> {
    let rows = rows_of(rt.alloc(), ROW)?;
    let [Row::Order(floor), Row::Order(load)] = rows.as_slice() else {
        return Err(Fail::from("not two orders"));
    };
    assert_eq!(rt; (floor.id(), load.id()), (b"T".as_slice(), b"T".as_slice()));
    let own = [1360, 245, 120, 80, 1, 1, 1, 100_000_000, 0, 0, 100, 0];
    assert_eq!(rt; floor.numbers(), own);
    assert_eq!(rt;
        load.numbers(),
        [120, 80, 40, 30, 22, 8000, 160, 1_000_000, 70, 0, 100, 0]
    );
    assert!(rt; is_floor_for(floor, load));
    assert!(rt; !is_floor_for(load, floor));
    let turned = [1360, 245, 80, 120, 1, 1, 1, 100_000_000, 0, 0, 100, 0];
    assert!(rt; !is_floor_for(&Order::new(rt.alloc(), b"T", turned)?, load));
    let heavy = [1360, 245, 120, 80, 1, 2, 1, 100_000_000, 0, 0, 100, 0];
    assert!(rt; !is_floor_for(&Order::new(rt.alloc(), b"T", heavy)?, load));
    let small = [300, 200, 120, 80, 1, 1, 1, 100_000_000, 0, 0, 100, 0];
    assert!(rt; is_floor_for(&Order::new(rt.alloc(), b"U", small)?, load));
    Ok(())
}

// Rows of which one order or both are refused: the pallet is wider than the floor; fourteen fields; sixteen fields; a
// floor's side with a leading zero, and a pallet's that is no number; a rule that is neither asked for nor not; no id.
const FAULTY: [&str; 6] = [
    "\nT,60,60,120,80,40,30,22,8000,160,1000000,70,0,100,0",
    "\nT,1360,245,120,80,40,30,22,8000,160,1000000,70,0,100",
    "\nT,1360,245,120,80,40,30,22,8000,160,1000000,70,0,100,0,0",
    "\nT,01,245,x,80,40,30,22,8000,160,1000000,70,0,100,0",
    "\nT,1360,245,120,80,40,30,22,8000,160,1000000,70,2,100,0",
    "\n,1360,245,120,80,40,30,22,8000,160,1000000,70,0,100,0",
];

#[test]
fn faults(rt: HostRuntime) -> Result<(), Fail> {
    let mut text = String::from_str(rt.alloc(), HEADER)?;
    for row in FAULTY {
        text.push_str(row)?;
    }
    let rows = read_floor(rt.alloc(), text.as_bytes())?;
    let told = [
        Some((1, RowFault::DoesNotFit)),
        None,
        Some((3, RowFault::FieldCount)),
        Some((4, RowFault::FieldCount)),
        Some((5, RowFault::FieldCount)),
        Some((6, RowFault::FieldCount)),
        Some((
            7,
            RowFault::BadNumber {
                field: Field::PalletX,
            },
        )),
        Some((
            8,
            RowFault::BadNumber {
                field: Field::PalletX,
            },
        )),
        None,
        Some((
            10,
            RowFault::OutOfRange {
                field: Field::Support,
            },
        )),
        Some((11, RowFault::BadId)),
        Some((12, RowFault::BadId)),
    ];
    assert_eq!(rt; rows.len(), 12);
    for (row, fault) in rows.iter().zip(told) {
        assert_eq!(rt; refused(row), fault);
    }
    Ok(())
}

#[test]
fn gaps(rt: HostRuntime) -> Result<(), Fail> {
    let rows = rows_of(rt.alloc(), "\nT,300,200,x,80,40,30,22,8000,160,9,0,0,100,3")?;
    let [floor, load] = rows.as_slice() else {
        return Err(Fail::from("not two rows"));
    };
    let (case, pallet) = (Field::CaseX, Field::PalletX);
    assert_eq!(rt;
        refused(floor),
        Some((1, RowFault::BadNumber { field: case }))
    );
    assert_eq!(rt;
        refused(load),
        Some((2, RowFault::BadNumber { field: pallet }))
    );
    let rows = rows_of(
        rt.alloc(),
        "\nT,300,200,120,80,40,30,22,8000,160,9,0,0,100,3",
    )?;
    let [Row::Order(floor), Row::Order(load)] = rows.as_slice() else {
        return Err(Fail::from("not two orders"));
    };
    assert_eq!(rt; (floor.gap(), load.gap()), (0, 3));
    Ok(())
}

#[test]
fn files(rt: HostRuntime) -> Result<(), Fail> {
    let alloc = rt.alloc();
    let none = Some(ReadStop::NoHeader);
    assert_eq!(rt; read_floor(alloc, b"").err(), none);
    assert_eq!(rt; read_floor(alloc, b"id,floor_x,floor_y\n").err(), none);
    let orders =
        b"id,pallet_x,pallet_y,case_x,case_y,case_z,weight,max_height,max_weight,contact,support,cut,gap\n";
    assert_eq!(rt; read_floor(alloc, orders).err(), none);
    let longer = format!(in alloc; "{HEADER},gap\n")?;
    assert_eq!(rt; read_floor(alloc, longer.as_bytes()).err(), none);
    assert_eq!(rt; rows_of(alloc, "")?.len(), 0);
    let text = format!(in alloc;
        "\u{feff}{HEADER}\r\n\"T,1\",1360,245,120,80,40,30,22,8000,160,1000000,70,0,100,0\r\n"
    )?;
    let rows = read_floor(alloc, text.as_bytes())?;
    let [Row::Order(floor), Row::Order(load)] = rows.as_slice() else {
        return Err(Fail::from("not two orders"));
    };
    assert_eq!(rt;
        (floor.id(), load.id()),
        (b"T,1".as_slice(), b"T,1".as_slice())
    );
    Ok(())
}

#[test]
fn row_counts(rt: HostRuntime) -> Result<(), Fail> {
    let mut text = String::from_str(rt.alloc(), HEADER)?;
    for _ in 0..128 {
        text.push_str(ROW)?;
    }
    assert_eq!(rt; read_floor(rt.alloc(), text.as_bytes())?.len(), 256);
    text.push_str(ROW)?;
    assert_eq!(rt;
        read_floor(rt.alloc(), text.as_bytes()).err(),
        Some(ReadStop::TooManyRows)
    );
    Ok(())
}

// So many layers allowed, with a stack or without one.
fn stack(alloc: Global, is_met: bool) -> Result<StackAnswer, Fail> {
    if is_met {
        return Ok(StackAnswer::Stack(VariantNumbers::new(Vec::new(alloc))));
    }
    let mut unmet = Vec::new(alloc);
    for rule in [Rule::Contact(70), Rule::Support] {
        unmet.push(UnmetRule { rule, alone: false })?;
    }
    Ok(StackAnswer::Unmet(UnmetRules::new(unmet)))
}

// What a plan has in its total: the numbers of its order, count, bound, allowed, and whether its stack is listed.
#[derive(Clone, Copy)]
struct PlanNumbers {
    numbers: [u32; 12],
    count: u32,
    bound: u32,
    allowed: u32,
    is_met: bool,
}

// A plan with these numbers, within the ranges of a report.
fn planned(alloc: Global, numbers: PlanNumbers) -> Result<Entry, Fail> {
    let mut spots = Vec::new(alloc);
    for x in 0..numbers.count {
        spots.push(Spot {
            x,
            y: 0,
            way: Way::Lying,
        })?;
    }
    let mut layers = Vec::new(alloc);
    layers.push(Listed {
        turn: Move::Same,
        spots: Spots::new(spots),
    })?;
    Ok(Entry::Planned(Plan {
        number: 1,
        order: Order::new(alloc, b"T", numbers.numbers)?,
        reduced: Inst::new(1, 1, 1, 1).ok_or("sides")?,
        count: numbers.count,
        bound: numbers.bound,
        status: Status::StillOpen,
        cert: Cert::GivenArea,
        layers: Layers::new(layers),
        allowed: numbers.allowed,
        stack: stack(alloc, numbers.is_met)?,
    }))
}

// The floor of 1360 by 245 for pallets of 120 by 80, with this count and this bound.
fn floor(alloc: Global, count: u32, bound: u32) -> Result<Entry, Fail> {
    let numbers = [1360, 245, 120, 80, 1, 1, 1, 100_000_000, 0, 0, 100, 0];
    planned(
        alloc,
        PlanNumbers {
            numbers,
            count,
            bound,
            allowed: 1,
            is_met: true,
        },
    )
}

// The total of two plans that are within the ranges.
fn total(floor: &Entry, load: &Entry) -> Result<Total, Fail> {
    if !is_in_range(floor, Form::Two) || !is_in_range(load, Form::Two) {
        return Err(Fail::from("out of range"));
    }
    match (floor, load) {
        (Entry::Planned(floor), Entry::Planned(load)) => Ok(floor_total(floor, load)),
        _ => Err(Fail::from("not two plans")),
    }
}

// The total of so many pallets and cases, of these bounds.
fn numbers(pallets: u32, cases: u32, bounds: (u32, u32), optimal: bool) -> Total {
    Total {
        pallets,
        cases,
        pallet_bound: bounds.0,
        case_bound: bounds.1,
        optimal,
    }
}

#[test]
fn totals(rt: HostRuntime) -> Result<(), Fail> {
    let alloc = rt.alloc();
    let floor_plan = floor(alloc, 34, 34)?;
    let mut load = PlanNumbers {
        numbers: [120, 80, 40, 30, 22, 8000, 160, 1_000_000, 70, 0, 100, 0],
        count: 8,
        bound: 8,
        allowed: 7,
        is_met: true,
    };
    let met = planned(alloc, load)?;
    assert!(rt; total(&floor_plan, &met)? == numbers(34, 56, (34, 56), true));
    // Fewer pallets than their bound: the cases alone meet.
    let fewer = floor(alloc, 33, 34)?;
    assert!(rt; total(&fewer, &met)? == numbers(33, 56, (34, 56), false));
    load = PlanNumbers {
        numbers: [120, 80, 40, 30, 22, 8000, 160, 1_000_000, 70, 1, 100, 0],
        count: 8,
        bound: 8,
        allowed: 7,
        is_met: false,
    };
    let unmet = planned(alloc, load)?;
    assert!(rt; total(&floor_plan, &unmet)? == numbers(34, 0, (34, 56), false));
    Ok(())
}

#[test]
fn limits(rt: HostRuntime) -> Result<(), Fail> {
    let alloc = rt.alloc();
    let floor_plan = floor(alloc, 34, 34)?;
    // The weight allows 12 cases, so one layer of 8; the height would allow seven layers.
    let heavy = planned(
        alloc,
        PlanNumbers {
            numbers: [120, 80, 40, 30, 22, 8000, 160, 100_000, 70, 0, 100, 0],
            count: 8,
            bound: 8,
            allowed: 1,
            is_met: true,
        },
    )?;
    assert!(rt; total(&floor_plan, &heavy)? == numbers(34, 8, (34, 12), false));
    // A case higher than the stack may be: no layer, and none is possible.
    let high = planned(
        alloc,
        PlanNumbers {
            numbers: [120, 80, 40, 30, 161, 8000, 160, 1_000_000, 70, 0, 100, 0],
            count: 8,
            bound: 8,
            allowed: 0,
            is_met: true,
        },
    )?;
    assert!(rt; total(&floor(alloc, 33, 34)?, &high)? == numbers(33, 0, (34, 0), true));
    Ok(())
}

#[test]
fn greatest_numbers(rt: HostRuntime) -> Result<(), Fail> {
    let alloc = rt.alloc();
    let most = planned(
        alloc,
        PlanNumbers {
            numbers: [40, 25, 1, 1, 1, 1, 10_000, 100_000_000, 0, 0, 100, 0],
            count: 1_000,
            bound: 1_000,
            allowed: 10_000,
            is_met: true,
        },
    )?;
    let all = numbers(1_000, 10_000_000, (1_000, 10_000_000), true);
    assert!(rt; total(&most, &most)? == all);
    let mut out = Vec::new(alloc);
    put_total(&mut out, &TotalLine::Numbers(all))?;
    assert_eq!(rt;
        out.as_slice(),
        b"total 1000 x 10000000 of 1000 x 10000000 optimal\n".as_slice()
    );
    assert_eq!(rt; out.len(), 49);
    assert!(rt; get_total(&out) == Some((TotalLine::Numbers(all), 49)));
    Ok(())
}

#[test]
fn lines(rt: HostRuntime) -> Result<(), Fail> {
    let mut out = Vec::from_slice(rt.alloc(), b"end\n")?;
    put_total(
        &mut out,
        &TotalLine::Numbers(numbers(34, 0, (34, 56), false)),
    )?;
    put_total(&mut out, &TotalLine::Nothing)?;
    assert_eq!(rt;
        out.as_slice(),
        b"end\ntotal 34 x 0 of 34 x 56 open\ntotal none\n".as_slice()
    );
    assert!(rt; get_total(b"total none\ndone 2\n") == Some((TotalLine::Nothing, 11)));
    // Products that do not meet are no matter of the text.
    let told = TotalLine::Numbers(numbers(34, 56, (34, 55), true));
    assert!(rt; get_total(b"total 34 x 56 of 34 x 55 optimal\ntotal none\n") == Some((told, 33)));
    assert!(rt; total_of(b"total 34 x 56 of 34 x 55 optimal") == Some(told));
    assert!(rt; total_of(b"total none\n").is_none());
    Ok(())
}

// Bytes that no total line is in front of.
const OTHER_LINES: [&[u8]; 22] = [
    b"",
    b"total none",
    b"total none \n",
    b"total\n",
    b"total 34 x 56 of 34 x 56 optimal",
    b"total 34 x 56 of 34 x 56 optimal\r\n",
    b"total 34 x 56 of 34 x 56\n",
    b"total 34 x 56 of 34 x 56 optimal \n",
    b"total 34 x 56 of 34 x 56 optimal open\n",
    b"total 34 x 56 of 34 x 56 Open\n",
    b"total 34 x 56  of 34 x 56 open\n",
    b"total 034 x 56 of 34 x 56 open\n",
    b"total 34 x 00 of 34 x 56 open\n",
    b"total 34 x 56 of 34 x 056 open\n",
    b"total 0 x 56 of 34 x 56 open\n",
    b"total 34 x 56 of 0 x 56 open\n",
    b"total 1001 x 56 of 34 x 56 open\n",
    b"total 34 x 56 of 1001 x 56 open\n",
    b"total 34 x 10000001 of 34 x 56 open\n",
    b"total 34 x 56 of 34 x 10000001 open\n",
    b"total 34 x +6 of 34 x 56 open\n",
    b"\ntotal none\n",
];

#[test]
fn other_lines(rt: HostRuntime) {
    for text in OTHER_LINES {
        assert!(rt; get_total(text).is_none());
    }
}
