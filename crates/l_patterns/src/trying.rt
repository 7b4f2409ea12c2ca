ghost use Rattle.std.specs.Prelude.{◌<◌};
ghost use Rattle.block_tree.specs.Regions.{area};
ghost use Rattle.l_patterns.specs.Ells.{IsNormalCut, IsSplit, Reach};
ghost use Rattle.l_patterns.specs.Cuts.{AreSidesOf, Fits};
ghost use Rattle.l_patterns.specs.States as spec;
ghost use Rattle.l_patterns.specs.States.{IsFrame, IsSearch};

use crate::cuts::{cut_count, nth_cut};
use crate::knowledge::{Held, Search, recall};
use crate::parts::{area_of, is_cut, split, written_of};
use crate::sides::Sides;
use block_tree::{Cut, Region};

/// A pending region, of which a number of at least `need` is wanted; the cuts before `at` do not give it.
#[derive(Clone, Copy)]
pub struct Frame {
    pub region: Region,
    pub need: u32,
    pub at: usize,
}

/// What comes of a cut: nothing, parts that hold what is wanted, or a part of which more must be known
/// first.
#[derive(Clone, Copy)]
pub enum Move {
    Skip,
    Take { first: Held, second: Held },
    Go { region: Region, need: u32 },
}

/// What a scan of a region's cuts found: none gives what is wanted, one does, or one waits for a part.
#[derive(Clone, Copy)]
pub enum Outcome {
    Failed,
    Taken {
        cut: Cut,
        first: Held,
        second: Held,
    },
    Pushed {
        at: usize,
        region: Region,
        need: u32,
    },
}

// What comes of a cut into two smaller parts.
fn weigh_parts(
    q: Sides<'_>,
    s: &Search,
    r: Region,
    need: u32,
    cut: Cut,
    first: Region,
    second: Region,
) -> Move
    requires sides { AreSidesOf q }
    requires fits { Fits q r }
    requires reach { Reach q.inst r }
    requires search { IsSearch q s.now }
    requires parts { IsSplit q.inst r cut first second }
    requires smaller_first { area first < area r }
    requires smaller_second { area second < area r }
    ensures { spec.IsMove q.entry s.entry.now r need cut result }
{
    let _cut = cut;
    let _r = r;
    let key_1 = written_of(first);
    let key_2 = written_of(second);
    let a = recall(q, s, key_1);
    let b = recall(q, s, key_2);
    if a.high + b.high < need {
        Move::Skip
    } else if need <= a.low + b.low {
        Move::Take {
            first: Held {
                region: first,
                built: a.built,
                count: a.low,
            },
            second: Held {
                region: second,
                built: b.built,
                count: b.low,
            },
        }
    } else if a.low + b.high < need {
        Move::Go {
            region: key_1,
            need: need - b.high,
        }
    } else if b.low + a.high < need {
        Move::Go {
            region: key_2,
            need: need - a.high,
        }
    } else {
        Move::Go {
            region: key_2,
            need: need - a.low,
        }
    }
}

// What comes of one cut of a region.
fn try_cut(q: Sides<'_>, s: &Search, r: Region, need: u32, cut: Cut) -> Move
    requires sides { AreSidesOf q }
    requires fits { Fits q r }
    requires reach { Reach q.inst r }
    requires search { IsSearch q s.now }
    requires normal { IsNormalCut q.inst cut }
    ensures { spec.IsMove q.entry s.entry.now r need cut result }
{
    if !is_cut(r, cut) {
        return Move::Skip;
    }
    let (first, second) = split(q, r, cut);
    let whole = area_of(r);
    let area_1 = area_of(first);
    let area_2 = area_of(second);
    if area_1 >= whole || area_2 >= whole {
        return Move::Skip;
    }
    let case = q.inst.long * q.inst.short;
    if area_1 / case + area_2 / case < need {
        return Move::Skip;
    }
    weigh_parts(q, s, r, need, cut, first, second)
}

/// Goes on with the cuts of a pending region.
pub fn scan(q: Sides<'_>, s: &Search, f: Frame) -> Outcome
    requires sides { AreSidesOf q }
    requires search { IsSearch q s.now }
    requires frame { IsFrame q f }
    ensures { spec.IsOutcome q.entry s.entry.now f result }
{
    for k in f.at..cut_count(q, f.region) {
        let cut = nth_cut(q, f.region, k);
        match try_cut(q, s, f.region, f.need, cut) {
            Move::Skip => {}
            Move::Take { first, second } => return Outcome::Taken { cut, first, second },
            Move::Go { region, need } => return Outcome::Pushed {
                at: k,
                region,
                need,
            },
        }
    }
    Outcome::Failed
}
