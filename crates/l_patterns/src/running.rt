ghost use Rattle.std.specs.Prelude.{◌≡◌, ◌≤◌, true, false, IfOk, IfSome, OnOk};
ghost use Rattle.l_patterns.specs.Ells.{HasMore};
ghost use Rattle.l_patterns.specs.Cuts.{AreSidesOf};
ghost use Rattle.l_patterns.specs.States as spec;
ghost use Rattle.l_patterns.specs.States.{IsFrame, IsKnown, IsPending, IsRoot, IsSearch};
ghost use Rattle.l_patterns.specs.Progress.{Enters};

use crate::knowledge::{Known, Search, fresh, key_of, note, recall};
use crate::sides::Sides;
use crate::stepping::{Stop, step};
use crate::trying::Frame;
use block_tree::Region;
use plan_memory::Memory;
use std::alloc::Global;

/// What the search goes on with: a pending region, or nothing where the bounds of the root have met.
#[derive(Clone, Copy)]
pub enum Next {
    Try { frame: Frame },
    Closed { known: Known },
}

/// What is known of the root at the end, and whether its bounds have met.
#[derive(Clone, Copy)]
pub struct Ending {
    pub known: Known,
    pub complete: bool,
}

// The region that was pending, or where none was the root, as long as its bounds have not met.
fn next_frame(q: Sides<'_>, s: &Search, root: Region, pending: Option<Frame>) -> Next
    requires sides { AreSidesOf q }
    requires search { IsSearch q s.now }
    requires root { IsRoot q root }
    requires pending { IfSome pending (IsPending q s.now) }
    ensures { spec.IsNext q.entry s.entry.now root pending result }
{
    if let Some(frame) = pending {
        return Next::Try { frame };
    }
    let known = recall(q, s, root);
    if known.high <= known.low {
        return Next::Closed { known };
    }
    Next::Try {
        frame: Frame {
            region: root,
            need: known.high,
            at: 0,
        },
    }
}

// Makes the region a key of the memo; false where the memo has as many keys already as it may have.
fn enter(q: Sides<'_>, s: &mut Search, f: Frame, most: usize) -> Result<bool, Memory>
    requires sides { AreSidesOf q }
    requires search { IsSearch q s.old }
    requires frame { IsFrame q f }
    requires room { most ≤ s.old.memo.cap }
    ensures search { OnOk result (IsSearch q.entry s.new) }
    ensures enters { IfOk result
        (λ entered. entered ≡ true → Enters q.entry.inst most f.region s.old.memo s.new.memo) }
    ensures full { IfOk result (λ entered. entered ≡ false → HasMore q.entry.inst most) }
{
    let key = key_of(f.region);
    if s.memo.peek(&key).is_some() {
        return Ok(true);
    }
    if s.memo.len() >= most {
        return Ok(false);
    }
    let known = fresh(q, f.region);
    note(q, s, f.region, known)?;
    Ok(true)
}

/// Searches until the bounds of the root meet, or until one region more than `most` has to be tried.
pub fn run(
    alloc: Global,
    q: Sides<'_>,
    s: &mut Search,
    root: Region,
    most: usize,
) -> Result<Ending, Memory>
    requires sides { AreSidesOf q }
    requires search { IsSearch q s.old }
    requires root { IsRoot q root }
    requires room { most ≤ s.old.memo.cap }
    ensures search { OnOk result (IsSearch q.entry s.new) }
    ensures known { IfOk result (λ e. IsKnown q.entry s.new root e.known) }
    ensures met { IfOk result (λ e. e.complete ≡ true → e.known.high ≤ e.known.low) }
    ensures more { IfOk result (λ e. e.complete ≡ false → HasMore q.entry.inst most) }
{
    let mut pending: Vec<Frame> = Vec::new(alloc);
    loop {
        match next_frame(q, s, root, pending.pop()) {
            Next::Closed { known } => {
                return Ok(Ending {
                    known,
                    complete: true,
                });
            }
            Next::Try { frame } => {
                if !enter(q, s, frame, most)? {
                    return Ok(Ending {
                        known: recall(q, s, root),
                        complete: false,
                    });
                }
                match step(q, s, frame)? {
                    Stop::Done => {}
                    Stop::Waits { region, need, at } => {
                        pending.push(Frame {
                            region: frame.region,
                            need: frame.need,
                            at,
                        })?;
                        pending.push(Frame {
                            region,
                            need,
                            at: 0,
                        })?;
                    }
                }
            }
        }
    }
}
