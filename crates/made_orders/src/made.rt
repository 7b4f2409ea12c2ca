// The made orders.
ghost use Rattle.std.specs.Prelude.{◌≡◌, ◌≤◌, All, IfOk, length};
ghost use Rattle.order_reader.specs.Orders.{order_with};
ghost use Rattle.made_orders.specs.Draws.{state_after};
ghost use Rattle.made_orders.specs.Made.{made_id as made_id_text, made_numbers as made_numbers_from, made_rows_of, IsAccepted};

use crate::generator::Generator;
use order_reader::{Order, OrderFail, Row};
use plan_memory::Memory;
use std::alloc::Global;
use texts::put_named;

const ROW_COUNT: u32 = 16;

/// The sixteen made orders of a number, as rows of an orders file. Each is accepted: no row is refused.
#[tactic(auto, unfolding(crate::specs::Made::first_made_rows))]
pub fn made_rows(alloc: Global, number: u32) -> Result<Vec<Row>, Memory>
    ensures rows { IfOk result (λ v. v.items ≡ made_rows_of number) }
    ensures count { IfOk result (λ v. length v.items ≡ 16) }
    ensures accepted { All IsAccepted (made_rows_of number) }
{
    let mut generator = Generator {
        state: u64::from(number),
    };
    let mut rows = Vec::new(alloc);
    for place in 0..ROW_COUNT {
        let order = made_order(alloc, place + 1, &mut generator)?;
        rows.push(Row::Order(order))?;
    }
    Ok(rows)
}

// The made order of a row.
fn made_order(alloc: Global, number: u32, generator: &mut Generator) -> Result<Order, Memory>
    requires { (1 ≤ number) × (number ≤ 16) }
    ensures order { IfOk result (λ o. o ≡ order_with (made_id_text number) (made_numbers_from generator.old.state)) }
    ensures state { IfOk result (λ o. generator.new.state ≡ state_after generator.old.state 6) }
{
    let id = made_id(alloc, number)?;
    match Order::new(alloc, &id, made_numbers(generator)) {
        Ok(order) => Ok(order),
        Err(OrderFail::Memory) => Err(Memory),
        Err(OrderFail::Fault(_)) => unreachable!(),
    }
}

// The id of a row: `t` and the row's number.
#[tactic(auto, unfolding(crate::specs::Made::made_id))]
fn made_id(alloc: Global, number: u32) -> Result<Vec<u8>, Memory>
    ensures { IfOk result (λ id. id.items ≡ made_id_text number) }
{
    let mut id = Vec::new(alloc);
    put_named(&mut id, b"t", u64::from(number))?;
    Ok(id)
}

// The numbers of a made order, by six draws: the case first, and then a pallet of some long sides and a rest.
#[tactic(auto, unfolding(crate::specs::Made::made_numbers))]
fn made_numbers(generator: &mut Generator) -> [u32; 12]
    ensures numbers { result ≡ made_numbers_from generator.old.state }
    ensures state { generator.new.state ≡ state_after generator.old.state 6 }
{
    let short = 2 + generator.draw(3);
    let long = short + 1 + generator.draw(3);
    let pallet_x = long * (3 + generator.draw(4)) + generator.draw(short);
    let pallet_y = long * (2 + generator.draw(3)) + generator.draw(short);
    [
        pallet_x, pallet_y, long, short, 100, 1000, 1000, 1_000_000, 60, 1, 100, 0,
    ]
}
