ghost use Rattle.std.specs.Prelude.{◌≡◌, length, None, OnOk};
ghost use Rattle.l_patterns.specs.Cuts.{AreSidesOf, Fits};
ghost use Rattle.lru.specs.LruCache.{lru_cache, put_entries};
ghost use Rattle.l_patterns.specs.Keys as keys;
ghost use Rattle.l_patterns.specs.Progress as progress;
ghost use Rattle.l_patterns.specs.States.{AreBounds, IsKnown, IsRemembered, IsSearch};

use crate::parts::area_of;
use crate::sides::Sides;
use block_tables::uniform_of;
use block_tree::{Cut, Region, is_rectangle, side_x, side_y};
use lru::LruCache;
use plan_memory::Memory;

/// The four numbers of a region, by which the memo finds it.
#[derive(Clone, Copy, PartialEq, Eq, Hash)]
pub struct Key {
    pub big_x: u32,
    pub big_y: u32,
    pub small_x: u32,
    pub small_y: u32,
}

/// Bounds of the greatest number of a region: a reached one, with the place where it was built if it needs
/// a cut, and a proved one.
#[derive(Clone, Copy)]
pub struct Known {
    pub low: u32,
    pub high: u32,
    pub built: Option<usize>,
}

/// A region with so many cases, and the place where they were built if they need a cut.
#[derive(Clone, Copy)]
pub struct Held {
    pub region: Region,
    pub built: Option<usize>,
    pub count: u32,
}

/// A region, a cut, and what its two parts hold.
#[derive(Clone, Copy)]
pub struct Built {
    pub region: Region,
    pub cut: Cut,
    pub first: Held,
    pub second: Held,
    pub count: u32,
}

/// What is known of regions, and what was built.
#[derive(Drop)]
pub struct Search {
    pub memo: LruCache<Key, Known>,
    pub built: Vec<Built>,
}

/// The key of a region.
pub fn key_of(r: Region) -> Key
    ensures { result ≡ keys.key_of r }
{
    Key {
        big_x: r.big_x,
        big_y: r.big_y,
        small_x: r.small_x,
        small_y: r.small_y,
    }
}

/// The number that needs no cut.
fn base_of(q: Sides<'_>, r: Region) -> u32
    requires sides { AreSidesOf q }
    requires fits { Fits q r }
    ensures { result ≡ keys.base q.entry.inst r }
{
    if is_rectangle(r) {
        uniform_of(q.inst, side_x(r), side_y(r))
    } else {
        0
    }
}

/// What is known of a region before any of its cuts is tried.
pub fn fresh(q: Sides<'_>, r: Region) -> Known
    requires sides { AreSidesOf q }
    requires fits { Fits q r }
    ensures bounds { AreBounds q.entry.inst r result }
    ensures value { result ≡ progress.fresh_of q.entry.inst r }
{
    Known {
        low: base_of(q, r),
        high: area_of(r) / (q.inst.long * q.inst.short),
        built: None,
    }
}

/// What is known of a region.
pub fn recall(q: Sides<'_>, s: &Search, r: Region) -> Known
    requires sides { AreSidesOf q }
    requires fits { Fits q r }
    requires search { IsSearch q s.now }
    ensures known { IsKnown q.entry s.entry.now r result }
    ensures value { result ≡ progress.known_of q.entry.inst s.entry.now.memo r }
{
    let key = key_of(r);
    match s.memo.peek(&key) {
        Some(known) => *known,
        None => fresh(q, r),
    }
}

/// Writes what is known of a region.
pub fn note(q: Sides<'_>, s: &mut Search, r: Region, k: Known) -> Result<(), Memory>
    requires search { IsSearch q s.old }
    requires known { IsRemembered q s.old.built.items r k }
    ensures search { OnOk result (IsSearch q.entry s.new) }
    ensures built { s.new.built ≡ s.old.built }
    ensures memo { OnOk result
        (s.new.memo ≡ lru_cache (put_entries keys.same_key s.old.memo (keys.key_of r) k) s.old.memo.cap) }
{
    let _q = q;
    let key = key_of(r);
    s.memo.put(key, k)?;
    Ok(())
}
