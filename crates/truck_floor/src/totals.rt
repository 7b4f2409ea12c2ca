// The total of a floor.
ghost use Rattle.std.specs.Prelude.{◌≡◌, ◌≤◌, true};
ghost use Rattle.cert_text.specs.declared.forms.Form.TheVariants as forms;
ghost use Rattle.plan_entries.specs.Ranges.{plan_in_range};
ghost use Rattle.truck_floor.specs.Totals.{cases_by, case_bound_by, IsTotalOf, IsWithin};

use order_reader::Field;
use plan_entries::Plan;
use stack_builder::StackAnswer;

/// What the plan of a floor and the plan of a load give together.
#[derive(Clone, Copy, PartialEq, Eq, Debug)]
pub struct Total {
    /// How many pallets the floor's layer holds.
    pub pallets: u32,
    /// How many cases the stack on each pallet has, 0 where there is none.
    pub cases: u32,
    /// How many pallets no layer of the floor exceeds.
    pub pallet_bound: u32,
    /// How many cases no load of a pallet exceeds.
    pub case_bound: u32,
    /// Whether the product of the first two numbers reaches that of the bounds.
    pub optimal: bool,
}

/// The line of a total: its numbers, or that there is none, since a row was refused.
#[derive(Clone, Copy, PartialEq, Eq, Debug)]
pub enum TotalLine {
    Numbers(Total),
    Nothing,
}

// The cases of a pallet: those of the stack, or 0 where it is unmet.
fn stacked_cases(load: &Plan) -> u32
    requires { plan_in_range forms.Two load.now ≡ true }
    ensures cases { result ≡ cases_by load.now }
    ensures few { result ≤ 10000000 }
{
    match &load.stack {
        StackAnswer::Stack(_) => load.count * load.allowed,
        StackAnswer::Unmet(_) => 0,
    }
}

// The cases that no load of the order exceeds, by the height and by the weight.
fn greatest_load(load: &Plan) -> u32
    requires { plan_in_range forms.Two load.now ≡ true }
    ensures bound { result ≡ case_bound_by load.now }
    ensures few { result ≤ 10000000 }
{
    let order = &load.order;
    let layers = order.number(Field::MaxHeight) / order.number(Field::CaseZ);
    let by_weight = order.number(Field::MaxWeight) / order.number(Field::Weight);
    by_weight.min(layers * load.bound)
}

/// The total of the plan of a floor and the plan of a load: the count and the bound of pallets, the cases stacked on each
/// pallet and the bound of the cases of a load, and whether both products are equal.
pub fn floor_total(floor: &Plan, load: &Plan) -> Total
    requires floor { plan_in_range forms.Two floor.now ≡ true }
    requires load { plan_in_range forms.Two load.now ≡ true }
    ensures total { IsTotalOf floor.now load.now result }
    ensures within { IsWithin result }
{
    let cases = stacked_cases(load);
    let case_bound = greatest_load(load);
    let reached = u64::from(floor.count) * u64::from(cases);
    let most = u64::from(floor.bound) * u64::from(case_bound);
    Total {
        pallets: floor.count,
        cases,
        pallet_bound: floor.bound,
        case_bound,
        optimal: reached == most,
    }
}
