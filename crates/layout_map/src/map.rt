ghost use Rattle.plan_geometry.specs.Layout.{start, extent, side, finish, IsInside, IsLayout};
ghost use Rattle.plan_geometry.specs.Placed.{IsLayer};
ghost use Rattle.partitions.specs.Partitions.{SameSides, AreNormal};
ghost use Rattle.layout_map.specs.Chains.{IsGreatestChain, ListsGreatestChains, way_on, IsMoved, IsChainMap, IsMapped};
ghost use Rattle.plan_geometry.specs.declared.spots.Axis.TheVariants.{X, Y};
ghost use Rattle.std.specs.Prelude.{ℕ, ◌≡◌, ◌+◌, ◌≤◌, ◌<◌, IfOk, length, vec_len, slice_index};

use plan_geometry::{Axis, Inst, Layer, Spot, Way, extent_along, side_along, start_along};
use plan_memory::Memory;
use std::alloc::Global;

// The way of a case on another instance.
fn way_for(to: Inst, way: Way) -> Way
    ensures { result ≡ way_on to way }
{
    if to.long == to.short { Way::Lying } else { way }
}

// The greatest total of a chain before an edge, given those before the lesser edges.
fn best_before(axis: Axis, from: Inst, to: Inst, spots: &[Spot], reach: &[u32], edge: u32) -> u32
    requires layout { IsLayout from spots.now }
    requires limited { edge ≤ 4000 }
    requires long_enough { length reach.now ≡ edge }
    requires table { ListsGreatestChains axis from to spots.now reach.now }
    ensures { IsGreatestChain axis from to spots.now edge result }
{
    let mut best = 0;
    for spot in spots {
        let begin = start_along(axis, *spot);
        if begin + extent_along(axis, from, spot.way) <= edge {
            let total = reach[begin as usize] + extent_along(axis, to, spot.way);
            if total > best {
                best = total;
            }
        }
    }
    best
}

// For each edge up to the pallet's side, the greatest total of a chain before it.
fn chain_totals(
    alloc: Global,
    axis: Axis,
    from: Inst,
    to: Inst,
    spots: &[Spot],
) -> Result<Vec<u32>, Memory>
    requires layout { IsLayout from spots.now }
    ensures long_enough { IfOk result (λ v. vec_len v ≡ side axis from + 1) }
    ensures table { IfOk result (λ v. ListsGreatestChains axis from to spots.now v.items) }
{
    let mut reach = Vec::new(alloc);
    for edge in 0..side_along(axis, from) + 1 {
        let best = best_before(axis, from, to, spots, &reach, edge);
        reach.push(best)?;
    }
    Ok(reach)
}

// Where the chain map puts a case, by the tables of both axes.
fn moved_spot(from: Inst, to: Inst, spots: &[Spot], x: &[u32], y: &[u32], spot: Spot) -> Spot
    requires inside { IsInside from spot }
    requires x_long { length x.now ≡ from.l_side + 1 }
    requires y_long { length y.now ≡ from.w_side + 1 }
    requires x_table { ListsGreatestChains X from to spots.now x.now }
    requires y_table { ListsGreatestChains Y from to spots.now y.now }
    ensures { IsMoved from to spots.now spot result }
{
    Spot {
        x: x[spot.x as usize],
        y: y[spot.y as usize],
        way: way_for(to, spot.way),
    }
}

// The chain map of a layout.
fn moved_spots(alloc: Global, from: Inst, to: Inst, spots: &[Spot]) -> Result<Vec<Spot>, Memory>
    requires { IsLayout from spots.now }
    ensures { IfOk result (λ v. IsChainMap from spots.now to v.items) }
{
    let x = chain_totals(alloc, Axis::X, from, to, spots)?;
    let y = chain_totals(alloc, Axis::Y, from, to, spots)?;
    let mut new = Vec::new(alloc);
    for spot in spots {
        let moved = moved_spot(from, to, spots, &x, &y, *spot);
        new.push(moved)?;
    }
    Ok(new)
}

/// The chain map of a layer onto an instance with the same sides: a layer with as many cases. Each case keeps
/// its way, but is written as lying where the case of `to` has equal sides.
pub fn map_layer(alloc: Global, layer: &Layer, to: Inst) -> Result<Layer, Memory>
    requires { SameSides layer.now.inst to }
    ensures inst { IfOk result (λ m. m.inst ≡ to) }
    ensures mapped { IfOk result (λ m. IsMapped layer.now.inst layer.now.spots to m.spots) }
    ensures count { IfOk result (λ m. length m.spots ≡ length layer.now.spots) }
    ensures layer { IfOk result (λ m. IsLayer m.inst m.spots) }
{
    let new = moved_spots(alloc, layer.inst(), to, layer.spots())?;
    match Layer::new(to, new) {
        Some(layer) => Ok(layer),
        None => unreachable!(),
    }
}

/// The chain map of a layer onto its own instance: as many cases, all at normal places.
pub fn normalise(alloc: Global, layer: &Layer) -> Result<Layer, Memory>
    ensures inst { IfOk result (λ m. m.inst ≡ layer.now.inst) }
    ensures mapped { IfOk result (λ m. IsMapped layer.now.inst layer.now.spots layer.now.inst m.spots) }
    ensures count { IfOk result (λ m. length m.spots ≡ length layer.now.spots) }
    ensures layer { IfOk result (λ m. IsLayer m.inst m.spots) }
    ensures normal { IfOk result (λ m. AreNormal layer.now.inst m.spots) }
{
    map_layer(alloc, layer, layer.inst())
}
