ghost use Rattle.std.specs.Prelude.{◌≡◌, ◌≤◌, ◌↔◌, IfOk};
ghost use Rattle.order_reader.specs.Instances.{IsBoundFor};
ghost use Rattle.cert_text.specs.declared.forms.Form.TheVariants.{Two};
ghost use Rattle.plan_entries.specs.declared.entries.Entry.TheVariants.{Planned};
ghost use Rattle.plan_entries.specs.Ranges.{IsInRange};
ghost use Rattle.plan_soundness.specs.Sound.{IsSound};
ghost use Rattle.layer_planner.specs.Quality.{HasQuality, HasShortCert};

use crate::listing::list_layer;
use crate::settling::settle;
use minimum_size::reduce;
use order_reader::Order;
use plan_entries::{Plan, Status};
use plan_memory::Memory;
use std::alloc::Global;

// Optimal exactly where count and bound are equal.
fn status_of(count: u32, bound: u32) -> Status
    ensures { (result ≡ Status.Optimal) ↔ (count ≡ bound) }
{
    if count == bound {
        Status::Optimal
    } else {
        Status::StillOpen
    }
}

/// The plan of an order, under a number from 1 to 256. The order's instance is reduced. Its layer is the best of the
/// patterns of blocks and of L-regions; where that has fewer cases than the least bound of the weights, the strips, the
/// area and the tables, a search follows for one case more, and again from there, as long as no more than 500,000 states
/// are to be visited.
pub fn plan_order(alloc: Global, order: &Order, number: u32) -> Result<Plan, Memory>
    requires some { 1 ≤ number }
    requires few { number ≤ 256 }
    ensures number { IfOk result (λ p. p.number ≡ number) }
    ensures order { IfOk result (λ p. p.order ≡ order.now) }
    ensures sound { IfOk result (λ p. IsSound p) }
    ensures quality { IfOk result (λ p. HasQuality p) }
    ensures bounded { IfOk result (λ p. IsBoundFor p.order p.bound) }
    ensures in_range { IfOk result (λ p. IsInRange Two (Planned p)) }
    ensures short_cert { IfOk result (λ p. HasShortCert p.reduced p.cert) }
{
    let given = order.inst();
    let reduced = reduce(given);
    let settled = settle(alloc, given, reduced)?;
    let count = settled.layer.count();
    let status = status_of(count, settled.known.bound);
    let listing = list_layer(alloc, order, given, &settled.layer)?;
    let order = order.copied(alloc)?;
    Ok(Plan {
        number,
        order,
        reduced,
        count,
        bound: settled.known.bound,
        status,
        cert: settled.known.cert,
        layers: listing.layers,
        allowed: listing.allowed,
        stack: listing.stack,
    })
}
