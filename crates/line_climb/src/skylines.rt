ghost use Rattle.std.specs.Prelude.{◌≡◌, false, IfOk};

use crate::guides::{Block, Corner, Guide};
use crate::manners::Step;
use plan_geometry::{Spot, Way};
use plan_memory::Memory;
use std::alloc::Global;

// Neighbouring columns of one height.
#[derive(Clone, Copy)]
struct Run {
    width: u32,
    height: u32,
}

// A step with its rank among the steps that were tried at its corner, the cells that it took and their weight, and the
// two runs that it wrote over.
#[derive(Clone, Copy)]
struct Frame {
    step: Step,
    rank: usize,
    at: Corner,
    block: Block,
    weight: u64,
    first: Run,
    second: Run,
}

// A corner state: the heights, the cases so far, the weight above the heights, and the steps that led here.
#[derive(Drop)]
pub(crate) struct Skyline {
    // By the column where a run starts, the run; the other entries mean nothing.
    runs: Vec<Run>,
    frames: Vec<Frame>,
    pub(crate) placed: u64,
    pub(crate) above: u64,
}

// The corner of some more columns, where the next run starts at `x`.
fn seen(best: Corner, x: u32, next: Run) -> Corner {
    if next.height < best.y {
        Corner {
            x,
            y: next.height,
            run: next.width,
        }
    } else if next.height == best.y && best.x.saturating_add(best.run) == x {
        Corner {
            run: best.run.saturating_add(next.width),
            ..best
        }
    } else {
        best
    }
}

impl Skyline {
    // The start: heights 0 on so many columns and no step, under so much weight.
    pub(crate) fn start(alloc: Global, columns: u32, total: u64) -> Result<Skyline, Memory> {
        let all = Run {
            width: columns,
            height: 0,
        };
        Ok(Skyline {
            runs: vec![in alloc; all; columns as usize]?,
            frames: Vec::new(alloc),
            placed: 0,
            above: total,
        })
    }

    // The run at a column. Behind the last column there is one of no columns.
    fn run_at(&self, x: u32) -> Run {
        match self.runs.as_slice().get(x as usize) {
            Some(run) => *run,
            None => Run {
                width: 0,
                height: 0,
            },
        }
    }

    // Writes the run at a column, if there is one.
    fn put(&mut self, x: u32, run: Run)
        ensures { self.new.frames ≡ self.old.frames }
    {
        if let Some(there) = self.runs.as_mut_slice().get_mut(x as usize) {
            *there = run;
        }
    }

    // The corner of the state, of so many columns.
    fn corner(&self, columns: u32) -> Corner {
        let mut best = Corner {
            x: 0,
            y: u32::MAX,
            run: 0,
        };
        let mut x: u32 = 0;
        while x < columns {
            let run = self.run_at(x);
            best = seen(best, x, run);
            x = x.saturating_add(run.width.max(1));
        }
        best
    }

    // Makes a step that takes these cells of this weight. Where memory is refused the state stays as it is.
    fn advance(
        &mut self,
        at: Corner,
        step: Step,
        rank: usize,
        block: Block,
        weight: u64,
    ) -> Result<(), Memory> {
        let first = self.run_at(block.x);
        let second = self.run_at(block.x_end);
        self.frames.push(Frame {
            step,
            rank,
            at,
            block,
            weight,
            first,
            second,
        })?;
        let width = block.x_end.saturating_sub(block.x);
        self.put(
            block.x,
            Run {
                width,
                height: block.y_end,
            },
        );
        if width < at.run {
            self.put(
                block.x_end,
                Run {
                    width: at.run - width,
                    height: at.y,
                },
            );
        }
        self.above = self.above.saturating_sub(weight);
        if let Step::Case(_) = step {
            self.placed = self.placed.saturating_add(1);
        }
        Ok(())
    }

    // Takes a step back.
    fn undo(&mut self, frame: Frame)
        ensures { self.new.frames ≡ self.old.frames }
    {
        self.put(frame.block.x, frame.first);
        self.put(frame.block.x_end, frame.second);
        self.above = self.above.saturating_add(frame.weight);
        if let Step::Case(_) = frame.step {
            self.placed = self.placed.saturating_sub(1);
        }
    }

    // Makes the first step that may be made at a corner, of those from a rank on; false where there is none.
    fn step_from(
        &mut self,
        guide: &Guide,
        steps: &[Step],
        at: Corner,
        rank: usize,
    ) -> Result<bool, Memory>
        ensures { IfOk result (λ made. made ≡ false → self.new ≡ self.old) }
    {
        for k in rank..steps.len() {
            let step = steps[k];
            if let Some(block) = guide.block_of(at, step) {
                self.advance(at, step, k, block, guide.weight(block))?;
                return Ok(true);
            }
        }
        Ok(false)
    }

    // Goes to the first state below this one; false where there is none.
    pub(crate) fn enter(&mut self, guide: &Guide, steps: &[Step]) -> Result<bool, Memory> {
        let at = self.corner(guide.inst.l_side);
        self.step_from(guide, steps, at, 0)
    }

    // Goes back and to the next state that was not met; false where there is none.
    pub(crate) fn leave(&mut self, guide: &Guide, steps: &[Step]) -> Result<bool, Memory> {
        while let Some(frame) = self.frames.pop() {
            self.undo(frame);
            if self.step_from(guide, steps, frame.at, frame.rank.saturating_add(1))? {
                return Ok(true);
            }
        }
        Ok(false)
    }

    // The cases that the steps placed, as they lie on the pallet that is straight.
    pub(crate) fn spots(&self, alloc: Global, guide: &Guide) -> Result<Vec<Spot>, Memory> {
        let mut spots = Vec::new(alloc);
        for frame in &self.frames {
            if let Step::Case(way) = frame.step {
                spots.push(guide.spot(frame.block.x, frame.block.y, way))?;
            }
        }
        Ok(spots)
    }
}
