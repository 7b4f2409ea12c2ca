ghost use Rattle.std.specs.Prelude.{◌≡◌, ◌≤◌, ◌==◌, ◌&&◌, length, Some};
ghost use Rattle.texts.specs.Gives.{GivesLine};
ghost use Rattle.order_reader.specs.Orders.{order_with};
ghost use Rattle.plan_entries.specs.Ranges.{has_orders_of};
ghost use Rattle.report_text.specs.Words.{number_count as number_count_of, all_numbers, numbers_at, numbers_of_line, order_if, order_of_line};
ghost use Rattle.texts.specs.Words.{all_words};
ghost use Rattle.texts.specs.Lines.{words_of};

use cert_text::Form;
use order_reader::{Order, OrderFail};
use std::alloc::Global;
use texts::{LineStop, is_end, number_words, skip_word};

/// The greatest number of an order.
const MOST_NUMBER: u32 = 100_000_000;

/// The most cases by area of an order of the first form.
const OLD_CASES: u64 = 400;

// How many numbers the line of an order has.
fn number_count(form: Form) -> u32
    ensures value { result ≡ number_count_of form }
    ensures few { result ≤ 12 }
{
    match form {
        Form::One => 11,
        Form::Two => 12,
    }
}

// The numbers that the line of an order has.
#[tactic(auto, unfolding(crate::specs::Words::numbers_at))]
fn numbers_written(alloc: Global, form: Form, line: &[u8]) -> Result<Vec<u32>, LineStop>
    ensures { GivesLine (λ v. v.items) result (all_words (numbers_at form (words_of line.now))) }
{
    let Some(rest) = skip_word(Some(line), b"order") else {
        return Err(LineStop::Fault);
    };
    let (numbers, rest) = number_words(alloc, rest, number_count(form), MOST_NUMBER)?;
    if is_end(rest) {
        Ok(numbers)
    } else {
        Err(LineStop::Fault)
    }
}

// The twelve numbers of an order from those that the form writes: in the first form the gap is 0.
fn with_gap(form: Form, mut numbers: Vec<u32>) -> Result<Vec<u32>, LineStop>
    ensures { GivesLine (λ v. v.items) result (Some (all_numbers form numbers.items)) }
{
    match form {
        Form::One => {
            numbers.push(0)?;
            Ok(numbers)
        }
        Form::Two => Ok(numbers),
    }
}

// Twelve numbers as an array.
fn array_of(numbers: &[u32]) -> [u32; 12]
    requires { length numbers.now ≡ 12 }
    ensures { result ≡ numbers.now }
{
    let mut array = [0; 12];
    array.copy_from_slice(numbers);
    array
}

// The twelve numbers of the line of an order.
#[tactic(auto, unfolding(crate::specs::Words::numbers_of_line))]
fn numbers_line(alloc: Global, form: Form, line: &[u8]) -> Result<[u32; 12], LineStop>
    ensures { GivesLine (λ a. a) result (numbers_of_line form line.now) }
{
    let written = numbers_written(alloc, form, line)?;
    let numbers = with_gap(form, written)?;
    Ok(array_of(numbers.as_slice()))
}

// Whether the form has the order.
fn has_order(form: Form, order: &Order) -> bool
    ensures { result ≡ has_orders_of form order.now }
{
    match form {
        Form::One => {
            let inst = order.real();
            let area = u64::from(inst.l_side) * u64::from(inst.w_side);
            let case = u64::from(inst.long) * u64::from(inst.short);
            order.gap() == 0 && area / case <= OLD_CASES
        }
        Form::Two => true,
    }
}

// The order of an id and numbers, where the form has it.
fn order_of(alloc: Global, form: Form, id: &[u8], numbers: [u32; 12]) -> Result<Order, LineStop>
    ensures { GivesLine (λ o. o) result (order_if form (order_with id.now numbers)) }
{
    match Order::new(alloc, id, numbers) {
        Ok(order) => {
            if has_order(form, &order) {
                Ok(order)
            } else {
                Err(LineStop::Fault)
            }
        }
        Err(OrderFail::Memory) => Err(LineStop::Memory),
        Err(OrderFail::Fault(_)) => Err(LineStop::Fault),
    }
}

// The order of an id and the line of its numbers.
#[tactic(auto, unfolding(crate::specs::Words::order_of_line))]
pub(crate) fn order_line(
    alloc: Global,
    form: Form,
    id: &[u8],
    line: &[u8],
) -> Result<Order, LineStop>
    ensures { GivesLine (λ o. o) result (order_of_line form id.now line.now) }
{
    let numbers = numbers_line(alloc, form, line)?;
    order_of(alloc, form, id, numbers)
}
