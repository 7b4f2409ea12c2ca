ghost use Rattle.std.specs.Prelude.{◌≡◌, ◌≤◌, ◌↔◌, true, false, min, [], IsTrue, IfOk};
ghost use Rattle.raster_points.specs.Points.{ArePointsOf};
ghost use Rattle.block_tree.specs.Trees.{held_count};
ghost use Rattle.l_patterns.specs.Ells.{AreFewChoices, HasMore, IsAtLeastUniform, IsEllSize, IsGreatestEll, IsSearchSize};
ghost use Rattle.l_patterns.specs.Cuts.{AreSidesOf};
ghost use Rattle.l_patterns.specs.States.{IsRoot};

use crate::building::build;
use crate::knowledge::{Held, Search};
use crate::running::run;
use crate::sides::{Side, Sides};
use block_tables::places_of;
use block_tree::{BlockTree, Region, rectangle};
use lru::LruCache;
use plan_geometry::{Axis, Inst};
use plan_memory::Memory;
use raster_points::Points;
use std::alloc::Global;
use std::num::NonZeroUsize;

// How many regions the memo remembers, and so how many a search tries at most.
const MEMO_ENTRIES: usize = 262_144;

/// The best tree of L-regions that a search found, and whether no such tree of the pallet, its sides
/// rounded down to normal places, holds more.
#[derive(Debug, Drop)]
pub struct EllAnswer {
    pub tree: BlockTree,
    pub complete: bool,
}

/// Whether two sides have at most 4,000 pairs of normal places, and at most 200 places each.
pub fn is_search_size(px: &Points, py: &Points) -> bool
    ensures { IsTrue result ↔ IsSearchSize px.now.normal py.now.normal }
{
    let columns = px.normal().len();
    let rows = py.normal().len();
    columns <= 200 && rows <= 200 && columns * rows <= 4000
}

// A search that knows nothing yet.
fn new_search(alloc: Global) -> Result<Search, Memory>
    ensures built { IfOk result (λ s. s.built.items ≡ []) }
    ensures memo { IfOk result (λ s. s.memo.entries ≡ []) }
    ensures room { IfOk result (λ s. s.memo.cap ≡ 262144) }
{
    let Some(entries) = NonZeroUsize::new(MEMO_ENTRIES) else {
        unreachable!()
    };
    Ok(Search {
        memo: LruCache::new(alloc, entries)?,
        built: Vec::new(alloc),
    })
}

// The best tree that a search from the root over at most so many regions finds.
fn search_from(alloc: Global, q: Sides<'_>, root: Region, most: usize) -> Result<EllAnswer, Memory>
    requires sides { AreSidesOf q }
    requires root { IsRoot q root }
    requires most { most ≤ 262144 }
    ensures inst { IfOk result (λ a. a.tree.inst ≡ q.entry.inst) }
    ensures best { IfOk result
        (λ a. a.complete ≡ true → IsGreatestEll q.entry.inst (held_count a.tree.inst a.tree.root.region a.tree.root.block)) }
    ensures uniform { IfOk result
        (λ a. IsAtLeastUniform q.entry.inst (held_count a.tree.inst a.tree.root.region a.tree.root.block)) }
    ensures more { IfOk result (λ a. a.complete ≡ false → HasMore q.entry.inst most) }
    ensures few { AreFewChoices q.entry.x.points.now q.entry.y.points.now most → IfOk result (λ a. a.complete ≡ true) }
{
    let mut search = new_search(alloc)?;
    let ending = run(alloc, q, &mut search, root, most)?;
    let held = Held {
        region: root,
        built: ending.known.built,
        count: ending.known.low,
    };
    let node = build(alloc, q, search.built.as_slice(), held)?;
    match BlockTree::new(q.inst, node) {
        Some(tree) => Ok(EllAnswer {
            tree,
            complete: ending.complete,
        }),
        None => unreachable!(),
    }
}

/// The best tree of L-regions of the pallet that a search over at most `limit` regions finds, and at most
/// 262,144. `px` and `py` are the points of the two sides, which have at most 4,000 pairs of normal places,
/// and at most 200 places each.
pub fn ell_search_within(
    alloc: Global,
    inst: Inst,
    px: &Points,
    py: &Points,
    limit: u32,
) -> Result<EllAnswer, Memory>
    requires px { ArePointsOf Axis.X inst px.now }
    requires py { ArePointsOf Axis.Y inst py.now }
    requires size { IsSearchSize px.now.normal py.now.normal }
    requires limit { limit ≤ 300000 }
    ensures inst { IfOk result (λ a. a.tree.inst ≡ inst) }
    ensures best { IfOk result
        (λ a. a.complete ≡ true → IsGreatestEll inst (held_count a.tree.inst a.tree.root.region a.tree.root.block)) }
    ensures uniform { IfOk result
        (λ a. IsAtLeastUniform inst (held_count a.tree.inst a.tree.root.region a.tree.root.block)) }
    ensures more { IfOk result (λ a. a.complete ≡ false → HasMore inst (min limit 262144)) }
    ensures few { AreFewChoices px.now.normal py.now.normal (min limit 262144) → IfOk result (λ a. a.complete ≡ true) }
{
    let xs = px.normal();
    let ys = py.normal();
    let places_x = places_of(alloc, Axis::X, inst, px)?;
    let places_y = places_of(alloc, Axis::Y, inst, py)?;
    let q = Sides {
        inst,
        x: Side {
            points: xs,
            places: places_x.as_slice(),
        },
        y: Side {
            points: ys,
            places: places_y.as_slice(),
        },
    };
    let root = rectangle(px.down(inst.l_side), py.down(inst.w_side));
    search_from(alloc, q, root, MEMO_ENTRIES.min(limit as usize))
}

/// The best tree of L-regions of the pallet (after Lins, Lins and Morabito 2003, and Birgin, Lobato and
/// Morabito 2010) that a search over at most 262,144 regions finds. `px` and `py` are the points of the two
/// sides, which have at most 4,000 pairs of normal places, and at most 200 places each.
pub fn ell_search(alloc: Global, inst: Inst, px: &Points, py: &Points) -> Result<EllAnswer, Memory>
    requires px { ArePointsOf Axis.X inst px.now }
    requires py { ArePointsOf Axis.Y inst py.now }
    requires size { IsSearchSize px.now.normal py.now.normal }
    ensures inst { IfOk result (λ a. a.tree.inst ≡ inst) }
    ensures best { IfOk result
        (λ a. a.complete ≡ true → IsGreatestEll inst (held_count a.tree.inst a.tree.root.region a.tree.root.block)) }
    ensures uniform { IfOk result
        (λ a. IsAtLeastUniform inst (held_count a.tree.inst a.tree.root.region a.tree.root.block)) }
    ensures more { IfOk result (λ a. a.complete ≡ false → HasMore inst 262144) }
    ensures ell_size { IsEllSize px.now.normal py.now.normal → IfOk result (λ a. a.complete ≡ true) }
{
    ell_search_within(alloc, inst, px, py, MEMO_ENTRIES as u32)
}
