ghost use Rattle.std.specs.Prelude.{◌≡◌, ◌↔◌, ◌≤◌, IsTrue, [], ◌∷◌};
ghost use Rattle.std.specs.List.{list_all};
ghost use Rattle.stack_builder.specs.Orders.{rules_of};
ghost use Rattle.plan_entries.specs.Ranges.{most_entries as most_entries_of, most_cases as most_cases_of, is_within as is_within_most, is_old_order as is_old, has_orders_of as has_orders, order_in_range, is_place as is_place_value, listed_in_range, layers_in_range, same_rule as same_rule_value, same_rules, rules_told, stack_in_range, numbers_in_range, plan_in_range, has_column as has_column_in, fault_in_range, entry_in_range, IsInRange};

use crate::entries::{Entry, Plan};
use crate::listed::Listed;
use cert_text::Form;
use contact_rules::Rule;
use order_reader::{Field, Order, RowFault};
use plan_geometry::Spot;
use stack_builder::{StackAnswer, UnmetRule};

/// The most layers of a plan.
const MOST_LAYERS: usize = 8;

/// The greatest coordinate of a case.
const MOST_SIDE: u32 = 4_000;

/// The most layers of a stack.
const MOST_STACKED: u32 = 10_000;

/// The most cases of a layer in the first form.
const OLD_CASES: u64 = 400;

// The most entries of a report of the form.
fn most_entries(form: Form) -> u32
    ensures { result ≡ most_entries_of form }
{
    match form {
        Form::One => 64,
        Form::Two => 256,
    }
}

// The greatest count and bound of the form.
fn most_cases(form: Form) -> u32
    ensures { result ≡ most_cases_of form }
{
    match form {
        Form::One => 400,
        Form::Two => 1_000,
    }
}

fn is_within(most: u32, number: u32) -> bool
    ensures { result ≡ is_within_most most number }
{
    1 <= number && number <= most
}

// Whether the order is one of the first form: without a gap, and of at most 400 cases.
fn is_old_order(order: &Order) -> bool
    ensures { result ≡ is_old order.now }
{
    let inst = order.real();
    let area = u64::from(inst.l_side) * u64::from(inst.w_side);
    let case = u64::from(inst.long) * u64::from(inst.short);
    order.gap() == 0 && area / case <= OLD_CASES
}

// Whether the form has such an order.
fn has_order(form: Form, order: &Order) -> bool
    ensures { result ≡ order_in_range form order.now }
{
    let numbers = order.numbers();
    match form {
        Form::One => is_old_order(order),
        Form::Two => numbers.len() == 12,
    }
}

fn is_place(spot: Spot) -> bool
    ensures { result ≡ is_place_value spot }
{
    spot.x <= MOST_SIDE && spot.y <= MOST_SIDE
}

// Whether each coordinate has a text.
fn are_places(spots: &[Spot]) -> bool
    ensures { result ≡ list_all is_place_value spots.now }
{
    spots.iter().all(|spot| is_place(*spot))
}

// Whether the listed layer has so many cases, and they have a text.
fn is_listed(count: u32, listed: &Listed) -> bool
    ensures { result ≡ listed_in_range count listed.now }
{
    let spots = listed.spots.as_slice();
    spots.len() == count as usize && are_places(spots)
}

fn are_listed(count: u32, layers: &[Listed]) -> bool
    ensures { result ≡ list_all (listed_in_range count) layers.now }
{
    layers.iter().all(|listed| is_listed(count, listed))
}

// Whether there are one to eight layers, and each has a text.
fn are_layers(count: u32, layers: &[Listed]) -> bool
    ensures { result ≡ layers_in_range count layers.now }
{
    let some = !layers.is_empty() && layers.len() <= MOST_LAYERS;
    some && are_listed(count, layers)
}

fn same_rule(rule: Rule, other: Rule) -> bool
    ensures { result ≡ same_rule_value rule other }
{
    match (rule, other) {
        (Rule::Contact(p), Rule::Contact(q)) => p == q,
        (Rule::Support, Rule::Support) => true,
        (Rule::Cut(p), Rule::Cut(q)) => p == q,
        (Rule::Contact(_), Rule::Support | Rule::Cut(_))
        | (Rule::Support, Rule::Contact(_) | Rule::Cut(_))
        | (Rule::Cut(_), Rule::Contact(_) | Rule::Support) => false,
    }
}

// Whether the rules told are this one alone.
fn is_one_rule(told: &[UnmetRule], first: Rule) -> bool
    ensures { result ≡ same_rules (rules_told told.now) (first ∷ []) }
{
    match told {
        [unmet] => same_rule(unmet.rule, first),
        _ => false,
    }
}

// Whether the rules told are these two.
fn are_two_rules(told: &[UnmetRule], first: Rule, second: Rule) -> bool
    ensures { result ≡ same_rules (rules_told told.now) (first ∷ second ∷ []) }
{
    match told {
        [unmet, rest @ ..] => same_rule(unmet.rule, first) && is_one_rule(rest, second),
        _ => false,
    }
}

// Whether the rules told are these three.
fn are_three_rules(told: &[UnmetRule], first: Rule, second: Rule, third: Rule) -> bool
    ensures { result ≡ same_rules (rules_told told.now) (first ∷ second ∷ third ∷ []) }
{
    match told {
        [unmet, rest @ ..] => same_rule(unmet.rule, first) && are_two_rules(rest, second, third),
        _ => false,
    }
}

// Whether the rules told are those that the order asks for.
fn are_asked(order: &Order, told: &[UnmetRule]) -> bool
    ensures { result ≡ same_rules (rules_told told.now) (rules_of order.now) }
{
    let contact = order.number(Field::Contact);
    let cut = order.number(Field::Cut);
    let by_contact = Rule::Contact(contact);
    let by_cut = Rule::Cut(cut);
    match (0 < contact, order.number(Field::Support) == 1, cut < 100) {
        (false, false, false) => told.is_empty(),
        (false, false, true) => is_one_rule(told, by_cut),
        (false, true, false) => is_one_rule(told, Rule::Support),
        (false, true, true) => are_two_rules(told, Rule::Support, by_cut),
        (true, false, false) => is_one_rule(told, by_contact),
        (true, false, true) => are_two_rules(told, by_contact, by_cut),
        (true, true, false) => are_two_rules(told, by_contact, Rule::Support),
        (true, true, true) => are_three_rules(told, by_contact, Rule::Support, by_cut),
    }
}

fn are_numbers(variants: usize, numbers: &[u32]) -> bool
    ensures { result ≡ list_all (is_within_most variants) numbers.now }
{
    numbers
        .iter()
        .all(|number| 1 <= *number && *number as usize <= variants)
}

// Whether the answer on the stack has a text.
fn is_answer(order: &Order, variants: usize, answer: &StackAnswer) -> bool
    ensures { result ≡ stack_in_range order.now variants answer.now }
{
    match answer {
        StackAnswer::Stack(numbers) => {
            let numbers = numbers.as_slice();
            numbers.len() <= MOST_STACKED as usize && are_numbers(variants, numbers)
        }
        StackAnswer::Unmet(told) => {
            let told = told.as_slice();
            !told.is_empty() && are_asked(order, told)
        }
    }
}

fn has_numbers(form: Form, plan: &Plan) -> bool
    ensures { result ≡ numbers_in_range form plan.now }
{
    is_within(most_entries(form), plan.number)
        && (is_within(most_cases(form), plan.count)
            && (is_within(most_cases(form), plan.bound) && plan.allowed <= MOST_STACKED))
}

fn is_plan(form: Form, plan: &Plan) -> bool
    ensures { result ≡ plan_in_range form plan.now }
{
    let layers = plan.layers.as_slice();
    has_numbers(form, plan)
        && (has_order(form, &plan.order)
            && (cert_text::is_in_range(&plan.cert, form)
                && (are_layers(plan.count, layers)
                    && is_answer(&plan.order, layers.len(), &plan.stack))))
}

// Whether the column stands in the form.
fn has_column(form: Form, field: Field) -> bool
    ensures { result ≡ has_column_in form field }
{
    match (form, field) {
        (Form::One, Field::Gap) => false,
        _ => true,
    }
}

fn is_fault(form: Form, fault: RowFault) -> bool
    ensures { result ≡ fault_in_range form fault }
{
    match fault {
        RowFault::BadNumber { field } | RowFault::OutOfRange { field } => has_column(form, field),
        RowFault::FieldCount | RowFault::BadId | RowFault::DoesNotFit | RowFault::TooManyCases =>
            true,
    }
}

// Whether the entry has a text of the form, as a test.
fn has_text(entry: &Entry, form: Form) -> bool
    ensures { result ≡ entry_in_range form entry.now }
{
    match entry {
        Entry::Planned(plan) => is_plan(form, plan),
        Entry::Refused { number, fault } => {
            is_within(most_entries(form), *number) && is_fault(form, *fault)
        }
    }
}

/// Whether the entry has a text of the form: its numbers are within the ranges there, each layer has as many
/// cases as the plan says, and a stack that is unmet names the rules that the order asks for.
pub fn is_in_range(entry: &Entry, form: Form) -> bool
    ensures { IsTrue result ↔ IsInRange form entry.now }
{
    has_text(entry, form)
}
