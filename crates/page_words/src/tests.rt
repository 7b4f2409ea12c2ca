use crate::{put_kilograms, put_order_words, put_refused_sheet};
use cert_text::Form;
use layer_symmetry::Move;
use order_reader::{Field, Order, RowFault};
use plan_entries::{Entry, Layers, Listed, Plan, Spots, Status, is_in_range};
use plan_geometry::{Inst, Spot, Way};
use stack_builder::{StackAnswer, VariantNumbers};
use std::alloc::Global;
use std::test::Fail;
use weightings::Cert;

// Weights by hand: a gram is a thousandth of a kilogram.
#[test]
fn kilograms(rt: HostRuntime) -> Result<(), Fail> {
    let alloc = rt.alloc();
    let weights: [(u64, &[u8]); 6] = [
        (1, b"0.001"),
        (40, b"0.040"),
        (1_200, b"1.200"),
        (12_345, b"12.345"),
        (500_000, b"500.000"),
        (100_000_000, b"100000.000"),
    ];
    for (grams, text) in weights {
        let mut out = Vec::new(alloc);
        put_kilograms(&mut out, grams)?;
        assert!(rt; out.as_slice() == text);
    }
    Ok(())
}

// The plan of a row, whose layer has so many cases; the places of the cases are of no account here.
fn planned(
    alloc: Global,
    id: &[u8],
    numbers: [u32; 12],
    count: u32,
    bound: u32,
) -> Result<Entry, Fail> {
    let Ok(order) = Order::new(alloc, id, numbers) else {
        return Err("no order".into());
    };
    let mut spots = Vec::new(alloc);
    for x in 0..count {
        spots.push(Spot {
            x,
            y: 0,
            way: Way::Lying,
        })?;
    }
    let mut layers = Vec::new(alloc);
    layers.push(Listed {
        turn: Move::Same,
        spots: Spots::new(spots),
    })?;
    let status = if count == bound {
        Status::Optimal
    } else {
        Status::StillOpen
    };
    Ok(Entry::Planned(Plan {
        number: 3,
        order,
        reduced: Inst::new(1, 1, 1, 1).ok_or("sides")?,
        count,
        bound,
        status,
        cert: Cert::GivenArea,
        layers: Layers::new(layers),
        allowed: 0,
        stack: StackAnswer::Stack(VariantNumbers::new(Vec::new(alloc))),
    }))
}

// What the twelfth sheet says of the order of a plan.
fn words(alloc: Global, entry: &Entry) -> Result<Vec<u8>, Fail> {
    if !is_in_range(entry, Form::Two) {
        return Err("out of range".into());
    }
    let mut out = Vec::new(alloc);
    match entry {
        Entry::Planned(plan) => put_order_words(&mut out, 12, plan)?,
        Entry::Refused { .. } => return Err("refused".into()),
    }
    Ok(out)
}

// Two cases of 4 by 1 on a pallet of 9 by 1 cover eight ninths of it, which is 88.88.. percent. The id has signs that
// HTML reads as marks.
#[test]
fn all_rules_and_the_greatest_count(rt: HostRuntime) -> Result<(), Fail> {
    let numbers = [9, 1, 4, 1, 200, 1_200, 1_800, 500_000, 70, 1, 60, 0];
    let entry = planned(rt.alloc(), b"A&B <1>", numbers, 2, 2)?;
    let text = b"<section class=\"sheet\" id=\"sheet-12\">\n\
        <h2>Row 3: <b>A&amp;B &lt;1&gt;</b></h2>\n\
        <table><caption>The order</caption>\n\
        <tr><th scope=\"row\">Pallet</th><td>9 by 1</td></tr>\n\
        <tr><th scope=\"row\">Case</th><td>4 by 1, 200 high, 1.200 kg</td></tr>\n\
        <tr><th scope=\"row\">Gap between cases</th><td>0</td></tr>\n\
        <tr><th scope=\"row\">Stack at most</th><td>1800 high, 500.000 kg of cases</td></tr>\n\
        <tr><th scope=\"row\">Rules asked for</th><td>contact of 70 percent; support by two cases; no cut over 60 percent</td></tr>\n\
        </table>\n\
        <p class=\"count\"><b>2 cases a layer</b>; none can have more</p>\n\
        <p>They cover 88.8 percent of the pallet (rounded down).</p>\n";
    assert!(rt; words(rt.alloc(), &entry)?.as_slice() == text.as_slice());
    Ok(())
}

// Five cases of 1 by 2 on a pallet of 4 by 3 cover ten twelfths of it, 83.33.. percent; six may be possible.
#[test]
fn one_rule_and_an_open_count(rt: HostRuntime) -> Result<(), Fail> {
    let numbers = [4, 3, 1, 2, 7, 50, 10, 9_999, 0, 0, 0, 1];
    let entry = planned(rt.alloc(), b"B", numbers, 5, 6)?;
    let text = b"<section class=\"sheet\" id=\"sheet-12\">\n\
        <h2>Row 3: <b>B</b></h2>\n\
        <table><caption>The order</caption>\n\
        <tr><th scope=\"row\">Pallet</th><td>4 by 3</td></tr>\n\
        <tr><th scope=\"row\">Case</th><td>1 by 2, 7 high, 0.050 kg</td></tr>\n\
        <tr><th scope=\"row\">Gap between cases</th><td>1</td></tr>\n\
        <tr><th scope=\"row\">Stack at most</th><td>10 high, 9.999 kg of cases</td></tr>\n\
        <tr><th scope=\"row\">Rules asked for</th><td>no cut over 0 percent</td></tr>\n\
        </table>\n\
        <p class=\"count\"><b>5 cases a layer</b>; none can have more than 6</p>\n\
        <p>They cover 83.3 percent of the pallet (rounded down).</p>\n";
    assert!(rt; words(rt.alloc(), &entry)?.as_slice() == text.as_slice());
    Ok(())
}

// One case of 2 by 1 covers two thirds of a pallet of 3 by 1, 66.66.. percent.
#[test]
fn no_rules_and_one_case(rt: HostRuntime) -> Result<(), Fail> {
    let numbers = [3, 1, 2, 1, 1, 1, 1, 1, 0, 0, 100, 0];
    let entry = planned(rt.alloc(), b"C", numbers, 1, 1)?;
    let text = words(rt.alloc(), &entry)?;
    let end = b"<tr><th scope=\"row\">Rules asked for</th><td>none</td></tr>\n\
        </table>\n\
        <p class=\"count\"><b>1 case a layer</b>; none can have more</p>\n\
        <p>It covers 66.6 percent of the pallet (rounded down).</p>\n";
    assert!(rt; text.ends_with(end));
    Ok(())
}

// Each fault in words, on the second sheet, of row 21.
#[test]
fn refused_rows(rt: HostRuntime) -> Result<(), Fail> {
    let alloc = rt.alloc();
    let faults: [(RowFault, &[u8]); 9] = [
        (
            RowFault::FieldCount,
            b"The row does not have as many fields as the header.",
        ),
        (
            RowFault::BadId,
            b"The id does not have 1 to 40 characters, each of them printable ASCII.",
        ),
        (
            RowFault::BadNumber {
                field: Field::CaseZ,
            },
            b"What stands under case_z is no number: a number is 0, or one to ten digits of which the first is not 0.",
        ),
        (
            RowFault::OutOfRange {
                field: Field::PalletY,
            },
            b"The number under pallet_y is not from 1 to 4000.",
        ),
        (
            RowFault::OutOfRange {
                field: Field::MaxWeight,
            },
            b"The number under max_weight is not from 1 to 100000000.",
        ),
        (
            RowFault::OutOfRange {
                field: Field::Support,
            },
            b"The number under support is not from 0 to 1.",
        ),
        (
            RowFault::OutOfRange { field: Field::Gap },
            b"The number under gap is not from 0 to 100, or together with a side of the pallet it is more than 4000.",
        ),
        (
            RowFault::DoesNotFit,
            b"The case does not fit on the pallet, not even when it is turned by a quarter.",
        ),
        (
            RowFault::TooManyCases,
            b"By area more than 1000 cases would fit in a layer.",
        ),
    ];
    let head = b"<section class=\"sheet refused\" id=\"sheet-2\"><h2>Row 21 was refused</h2><p>";
    for (fault, sentence) in faults {
        let mut text = head.to_vec(alloc)?;
        text.extend_from_slice(sentence)?;
        text.extend_from_slice(b"</p></section>\n")?;
        let mut out = Vec::new(alloc);
        put_refused_sheet(&mut out, 2, 21, fault)?;
        assert!(rt; out.as_slice() == text.as_slice());
    }
    Ok(())
}
