use crate::{Summary, put_closing, put_sheet, put_top};
use cert_text::Form;
use contact_rules::Rule;
use layer_symmetry::Move;
use order_reader::{Order, RowFault};
use plan_entries::{Entry, Layers, Listed, Plan, Spots, Status, is_in_range};
use plan_geometry::{Inst, Spot, Way};
use stack_builder::{StackAnswer, UnmetRule, UnmetRules, VariantNumbers};
use std::alloc::Global;
use std::test::Fail;
use weightings::{Cert, Mark, Marks, Weighting};

// One case of 3 by 3 on a pallet of 5 by 5, which asks for support, and this answer of its stack.
fn planned(alloc: Global, status: Status, stack: StackAnswer) -> Result<Entry, Fail> {
    let numbers = [5, 5, 3, 3, 1, 10, 2, 1000, 0, 1, 100, 0];
    let Ok(order) = Order::new(alloc, b"A<B".as_slice(), numbers) else {
        return Err("no order".into());
    };
    let mut spots = Vec::new(alloc);
    spots.push(Spot {
        x: 0,
        y: 0,
        way: Way::Lying,
    })?;
    let mut layers = Vec::new(alloc);
    layers.push(Listed {
        turn: Move::Same,
        spots: Spots::new(spots),
    })?;
    let mut tree = Vec::new(alloc);
    tree.push(Mark::Leaf)?;
    Ok(Entry::Planned(Plan {
        number: 1,
        order,
        reduced: Inst::new(1, 1, 1, 1).ok_or("sides")?,
        count: 1,
        bound: 2,
        status,
        cert: Cert::Weighted {
            weighting: Weighting::Area,
            tree: Marks::new(tree),
        },
        layers: Layers::new(layers),
        allowed: 2,
        stack,
    }))
}

fn stacked(alloc: Global, layers: u32) -> Result<StackAnswer, Fail> {
    let mut numbers = Vec::new(alloc);
    for _ in 0..layers {
        numbers.push(1)?;
    }
    Ok(StackAnswer::Stack(VariantNumbers::new(numbers)))
}

// How often a part stands in a text.
fn times(text: &[u8], part: &[u8]) -> usize {
    text.windows(part.len().max(1))
        .filter(|place| *place == part)
        .count()
}

// The head has one style and no script, and takes nothing from elsewhere.
#[test]
fn top(rt: HostRuntime) -> Result<(), Fail> {
    let mut out = Vec::new(rt.alloc());
    put_top(&mut out)?;
    assert!(rt;
        out.as_slice().starts_with(
            b"<!DOCTYPE html>\n<html lang=\"en\"><head><meta charset=\"utf-8\">\n"
        )
    );
    assert!(rt;
        out.as_slice().ends_with(
            b"</style></head><body>\n<a href=\"#summary\">Summary</a>\n<main>\n"
        )
    );
    assert_eq!(rt; times(&out, b"<style>"), 1);
    assert_eq!(rt; times(&out, b"{"), times(&out, b"}"));
    for part in [b"<script".as_slice(), b"http", b"url(", b"@import"] {
        assert_eq!(rt; times(&out, part), 0);
    }
    Ok(())
}

// Each sheet is one section, and has a picture of the stack only where it has layers.
#[test]
fn sheets(rt: HostRuntime) -> Result<(), Fail> {
    let alloc = rt.alloc();
    for (layers, pictures) in [(0, 1), (2, 2)] {
        let entry = planned(alloc, Status::StillOpen, stacked(alloc, layers)?)?;
        if !is_in_range(&entry, Form::Two) {
            return Err("out of range".into());
        }
        let mut out = Vec::new(alloc);
        put_sheet(&mut out, 7, &entry)?;
        assert_eq!(rt; times(&out, b"<section"), 1);
        assert_eq!(rt; times(&out, b"id=\"sheet-7\""), 1);
        assert_eq!(rt; times(&out, b"<svg"), pictures);
        assert_eq!(rt; times(&out, b"</svg>"), pictures);
        assert!(rt; out.as_slice().ends_with(b"</section>\n"));
    }
    let refused = Entry::Refused {
        number: 3,
        fault: RowFault::DoesNotFit,
    };
    if !is_in_range(&refused, Form::Two) {
        return Err("out of range".into());
    }
    let mut out = Vec::new(alloc);
    put_sheet(&mut out, 3, &refused)?;
    assert_eq!(rt; times(&out, b"<svg"), 0);
    assert!(rt; out.as_slice().ends_with(b"</section>\n"));
    Ok(())
}

// A summary of no entry has a table of one row, which is its head.
#[test]
fn empty(rt: HostRuntime) -> Result<(), Fail> {
    let alloc = rt.alloc();
    let mut out = Vec::new(alloc);
    put_closing(&mut out, &Summary::new(alloc))?;
    assert_eq!(rt; times(&out, b"<tr>"), 1);
    assert_eq!(rt; times(&out, b"<dd>0</dd>"), 6);
    assert!(rt; out.as_slice().ends_with(b"</main>\n</body></html>\n"));
    Ok(())
}

// A summary of an open plan, of one whose rules are unmet, and of a refused row.
#[test]
fn summary(rt: HostRuntime) -> Result<(), Fail> {
    let alloc = rt.alloc();
    let mut summary = Summary::new(alloc);
    summary.add(&planned(alloc, Status::StillOpen, stacked(alloc, 2)?)?)?;
    let mut rules = Vec::new(alloc);
    rules.push(UnmetRule {
        rule: Rule::Support,
        alone: true,
    })?;
    let unmet = StackAnswer::Unmet(UnmetRules::new(rules));
    summary.add(&planned(alloc, Status::Optimal, unmet)?)?;
    summary.add(&Entry::Refused {
        number: 3,
        fault: RowFault::DoesNotFit,
    })?;
    let mut out = Vec::new(alloc);
    put_closing(&mut out, &summary)?;
    let rows =
        b"<tr><td>1</td><th scope=\"row\"><a href=\"#sheet-1\">A&lt;B</a></th><td>1</td><td class=\"open\">at most 2</td><td>2 layers</td></tr>\n<tr><td>1</td><th scope=\"row\"><a href=\"#sheet-2\">A&lt;B</a></th><td>1</td><td class=\"proved\">proved</td><td class=\"unmet\">rules unmet</td></tr>\n<tr><td>3</td><th scope=\"row\"><a href=\"#sheet-3\">refused</a></th><td colspan=\"3\">no plan</td></tr>\n</table>\n";
    assert_eq!(rt; times(&out, rows), 1);
    assert_eq!(rt; times(&out, b"<dd>3</dd>"), 1);
    assert_eq!(rt; times(&out, b"<dt>Planned</dt><dd>2</dd>"), 1);
    assert_eq!(rt; times(&out, b"<dd>1</dd>"), 4);
    Ok(())
}
