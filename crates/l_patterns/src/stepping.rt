ghost use Rattle.std.specs.Prelude.{◌≡◌, IfOk, OnOk};
ghost use Rattle.l_patterns.specs.declared.trying.Outcome.TheVariants.{Failed};
ghost use Rattle.l_patterns.specs.Cuts.{AreSidesOf};
ghost use Rattle.l_patterns.specs.Progress.{HasRegion, IsOpen, Narrows};
ghost use Rattle.l_patterns.specs.States as spec;
ghost use Rattle.l_patterns.specs.States.{IsFrame, IsSearch};

use crate::knowledge::{Built, Held, Known, Search, note, recall};
use crate::sides::Sides;
use crate::trying::{Frame, Outcome, scan};
use block_tree::{Cut, Region};
use plan_memory::Memory;

/// Where a step of the search ends.
#[derive(Clone, Copy)]
pub enum Stop {
    Done,
    Waits {
        region: Region,
        need: u32,
        at: usize,
    },
}

// Writes that no number of the region is as great as was wanted.
fn lower(q: Sides<'_>, s: &mut Search, f: Frame) -> Result<(), Memory>
    requires sides { AreSidesOf q }
    requires search { IsSearch q s.old }
    requires frame { IsFrame q f }
    requires opens { IsOpen q.inst s.old.memo f.region f.need }
    requires there { HasRegion s.old.memo f.region }
    requires failed { spec.IsOutcome q s.old f Failed }
    ensures search { OnOk result (IsSearch q.entry s.new) }
    ensures narrows { OnOk result (Narrows q.entry.inst f.region s.old.memo s.new.memo) }
{
    let k = recall(q, s, f.region);
    note(
        q,
        s,
        f.region,
        Known {
            low: k.low,
            high: k.high.min(f.need - 1),
            built: k.built,
        },
    )
}

// Builds the region from the parts of a cut, and writes it.
fn raise(
    q: Sides<'_>,
    s: &mut Search,
    f: Frame,
    cut: Cut,
    first: Held,
    second: Held,
) -> Result<(), Memory>
    requires sides { AreSidesOf q }
    requires search { IsSearch q s.old }
    requires frame { IsFrame q f }
    requires opens { IsOpen q.inst s.old.memo f.region f.need }
    requires there { HasRegion s.old.memo f.region }
    requires take { spec.IsTake q s.old.built.items f.region f.need cut first second }
    ensures search { OnOk result (IsSearch q.entry s.new) }
    ensures narrows { OnOk result (Narrows q.entry.inst f.region s.old.memo s.new.memo) }
{
    let count = first.count + second.count;
    let k = recall(q, s, f.region);
    let built: &[Built] = &s.built;
    let place = built.len();
    s.built.push(Built {
        region: f.region,
        cut,
        first,
        second,
        count,
    })?;
    note(
        q,
        s,
        f.region,
        Known {
            low: count,
            high: k.high,
            built: Some(place),
        },
    )
}

/// One step: the cuts of a pending region are gone through up to an outcome, which is written.
pub fn step(q: Sides<'_>, s: &mut Search, f: Frame) -> Result<Stop, Memory>
    requires sides { AreSidesOf q }
    requires search { IsSearch q s.old }
    requires frame { IsFrame q f }
    requires opens { IsOpen q.inst s.old.memo f.region f.need }
    requires there { HasRegion s.old.memo f.region }
    ensures search { OnOk result (IsSearch q.entry s.new) }
    ensures goes { IfOk result (spec.IsStop q.entry s.old s.new f) }
{
    match scan(q, s, f) {
        Outcome::Failed => {
            lower(q, s, f)?;
            Ok(Stop::Done)
        }
        Outcome::Taken { cut, first, second } => {
            raise(q, s, f, cut, first, second)?;
            Ok(Stop::Done)
        }
        Outcome::Pushed { at, region, need } => Ok(Stop::Waits { region, need, at }),
    }
}
