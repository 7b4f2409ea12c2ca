ghost use Rattle.std.specs.Prelude.{◌≡◌, ◌≤◌, ◌↔◌, length, max, IsTrue, IfOk};
ghost use Rattle.plan_geometry.specs.Layout.{IsBounded};
ghost use Rattle.plan_geometry.specs.Placed.{IsLayer};
ghost use Rattle.raster_points.specs.Points.{ArePointsOf};
ghost use Rattle.block_tree.specs.Trees.{held_count};
ghost use Rattle.layer_patterns.specs.Patterns.{AreNormalPlaces, ReachesFirst, ReachesFour, ReachesFive, ReachesEll, HoldsBlocks};

use block_tree::BlockTree;
use five_block::{five_closure, is_five_size, level_one};
use g4_patterns::{four_closure, is_four_size};
use l_patterns::{ell_search, is_search_size};
use plan_geometry::{Axis, Inst, Layer, uniform};
use plan_memory::Memory;
use raster_points::Points;
use std::alloc::Global;

// Whether the layer has so many cases.
fn is_full(layer: &Layer, most: u32) -> bool
    ensures { IsTrue result ↔ (most ≤ length layer.now.spots) }
{
    layer.count() >= most
}

// The layer of a tree where it has more cases than the layer so far, else the layer so far.
fn improved(alloc: Global, layer: Layer, tree: &BlockTree) -> Result<Layer, Memory>
    requires layer { IsLayer layer.inst layer.spots }
    requires inst { tree.now.inst ≡ layer.inst }
    ensures inst { IfOk result (λ a. a.inst ≡ layer.inst) }
    ensures layer { IfOk result (λ a. IsLayer a.inst a.spots) }
    ensures count { IfOk result (λ a. length a.spots
        ≡ max (length layer.spots) (held_count tree.now.inst tree.now.root.region tree.now.root.block)) }
    ensures kept { IfOk result (λ a. held_count tree.now.inst tree.now.root.region tree.now.root.block
        ≤ length layer.spots → a ≡ layer) }
{
    if tree.held() <= layer.count() {
        return Ok(layer);
    }
    tree.draw(alloc)
}

// The layer so far, or that of the best cut of the whole pallet into five grids.
fn after_first_level(alloc: Global, inst: Inst, most: u32, layer: Layer) -> Result<Layer, Memory>
    requires most { IsBounded inst most }
    requires layer { IsLayer layer.inst layer.spots }
    requires inst { layer.inst ≡ inst }
    ensures inst { IfOk result (λ a. a.inst ≡ inst) }
    ensures layer { IfOk result (λ a. IsLayer a.inst a.spots) }
    ensures grown { IfOk result (λ a. length layer.spots ≤ length a.spots) }
    ensures first { IfOk result (λ a. ReachesFirst inst (length a.spots)) }
{
    if is_full(&layer, most) {
        return Ok(layer);
    }
    let tree = level_one(alloc, inst)?;
    improved(alloc, layer, &tree)
}

// The layer so far, or that of four blocks.
fn after_four_blocks(
    alloc: Global,
    inst: Inst,
    px: &Points,
    py: &Points,
    most: u32,
    layer: Layer,
) -> Result<Layer, Memory>
    requires px { ArePointsOf Axis.X inst px.now }
    requires py { ArePointsOf Axis.Y inst py.now }
    requires places { AreNormalPlaces inst px.now.normal py.now.normal }
    requires most { IsBounded inst most }
    requires layer { IsLayer layer.inst layer.spots }
    requires inst { layer.inst ≡ inst }
    ensures inst { IfOk result (λ a. a.inst ≡ inst) }
    ensures layer { IfOk result (λ a. IsLayer a.inst a.spots) }
    ensures grown { IfOk result (λ a. length layer.spots ≤ length a.spots) }
    ensures four { IfOk result (λ a. ReachesFour inst (length a.spots)) }
{
    if is_full(&layer, most) {
        return Ok(layer);
    }
    if !is_four_size(px, py) {
        return Ok(layer);
    }
    let tree = four_closure(alloc, inst, px, py)?;
    improved(alloc, layer, &tree)
}

// The layer so far, or that of five blocks.
fn after_five_blocks(
    alloc: Global,
    inst: Inst,
    px: &Points,
    py: &Points,
    most: u32,
    layer: Layer,
) -> Result<Layer, Memory>
    requires px { ArePointsOf Axis.X inst px.now }
    requires py { ArePointsOf Axis.Y inst py.now }
    requires places { AreNormalPlaces inst px.now.normal py.now.normal }
    requires most { IsBounded inst most }
    requires layer { IsLayer layer.inst layer.spots }
    requires inst { layer.inst ≡ inst }
    ensures inst { IfOk result (λ a. a.inst ≡ inst) }
    ensures layer { IfOk result (λ a. IsLayer a.inst a.spots) }
    ensures grown { IfOk result (λ a. length layer.spots ≤ length a.spots) }
    ensures five { IfOk result (λ a. ReachesFive inst (length a.spots)) }
{
    if is_full(&layer, most) {
        return Ok(layer);
    }
    if !is_five_size(px, py) {
        return Ok(layer);
    }
    let tree = five_closure(alloc, inst, px, py)?;
    improved(alloc, layer, &tree)
}

// The layer so far, or that of L-regions.
fn after_ell_regions(
    alloc: Global,
    inst: Inst,
    px: &Points,
    py: &Points,
    most: u32,
    layer: Layer,
) -> Result<Layer, Memory>
    requires px { ArePointsOf Axis.X inst px.now }
    requires py { ArePointsOf Axis.Y inst py.now }
    requires places { AreNormalPlaces inst px.now.normal py.now.normal }
    requires most { IsBounded inst most }
    requires layer { IsLayer layer.inst layer.spots }
    requires inst { layer.inst ≡ inst }
    ensures inst { IfOk result (λ a. a.inst ≡ inst) }
    ensures layer { IfOk result (λ a. IsLayer a.inst a.spots) }
    ensures grown { IfOk result (λ a. length layer.spots ≤ length a.spots) }
    ensures ell { IfOk result (λ a. ReachesEll inst (length a.spots)) }
{
    if is_full(&layer, most) {
        return Ok(layer);
    }
    if !is_search_size(px, py) {
        return Ok(layer);
    }
    let answer = ell_search(alloc, inst, px, py)?;
    improved(alloc, layer, &answer.tree)
}

// The layer so far, or that of four blocks or of five.
fn after_closures(alloc: Global, inst: Inst, most: u32, layer: Layer) -> Result<Layer, Memory>
    requires most { IsBounded inst most }
    requires layer { IsLayer layer.inst layer.spots }
    requires inst { layer.inst ≡ inst }
    ensures inst { IfOk result (λ a. a.inst ≡ inst) }
    ensures layer { IfOk result (λ a. IsLayer a.inst a.spots) }
    ensures grown { IfOk result (λ a. length layer.spots ≤ length a.spots) }
    ensures four { IfOk result (λ a. ReachesFour inst (length a.spots)) }
    ensures five { IfOk result (λ a. ReachesFive inst (length a.spots)) }
{
    if is_full(&layer, most) {
        return Ok(layer);
    }
    let px = Points::of(alloc, inst.l_side, inst.long, inst.short)?;
    let py = Points::of(alloc, inst.w_side, inst.long, inst.short)?;
    let layer = after_four_blocks(alloc, inst, &px, &py, most, layer)?;
    after_five_blocks(alloc, inst, &px, &py, most, layer)
}

/// A layer of the pallet. It starts as the better grid; while it has fewer than `most` cases, which no layout exceeds,
/// the first level of five blocks, four blocks and five blocks are tried in turn, the last two where the sides have few
/// enough normal places for them, and a layer with more cases takes its place.
pub fn layer_by_blocks(alloc: Global, inst: Inst, most: u32) -> Result<Layer, Memory>
    requires most { IsBounded inst most }
    requires few { most ≤ 1000 }
    ensures inst { IfOk result (λ a. a.inst ≡ inst) }
    ensures layer { IfOk result (λ a. IsLayer a.inst a.spots) }
    ensures bounded { IfOk result (λ a. length a.spots ≤ most) }
    ensures blocks { IfOk result (λ a. HoldsBlocks inst (length a.spots)) }
{
    let layer = uniform(alloc, inst)?;
    let layer = after_first_level(alloc, inst, most, layer)?;
    after_closures(alloc, inst, most, layer)
}

/// The layer so far, or one of more cases by L-regions, which are tried where the layer has fewer than `most` cases,
/// which no layout exceeds, and the sides have few enough normal places.
pub fn layer_by_regions(alloc: Global, inst: Inst, most: u32, layer: Layer) -> Result<Layer, Memory>
    requires most { IsBounded inst most }
    requires layer { IsLayer layer.inst layer.spots }
    requires inst { layer.inst ≡ inst }
    ensures inst { IfOk result (λ a. a.inst ≡ inst) }
    ensures layer { IfOk result (λ a. IsLayer a.inst a.spots) }
    ensures grown { IfOk result (λ a. length layer.spots ≤ length a.spots) }
    ensures ell { IfOk result (λ a. ReachesEll inst (length a.spots)) }
{
    if is_full(&layer, most) {
        return Ok(layer);
    }
    let px = Points::of(alloc, inst.l_side, inst.long, inst.short)?;
    let py = Points::of(alloc, inst.w_side, inst.long, inst.short)?;
    after_ell_regions(alloc, inst, &px, &py, most, layer)
}
