ghost use Rattle.std.specs.Prelude.{◌≡◌, true, false, IfOk};
ghost use Rattle.line_climb.specs.Turning.{IsTurned, IsTurnedCase};

use crate::manners::Step;
use crate::sides::Side;
use line_tables::LineTable;
use plan_geometry::{Axis, Inst, Spot, Way, extent_along, is_lawful};
use plan_memory::Memory;
use std::alloc::Global;

// The lowest height of a state, its leftmost column, and how many columns have this height from there on.
#[derive(Clone, Copy)]
pub(crate) struct Corner {
    pub(crate) x: u32,
    pub(crate) y: u32,
    pub(crate) run: u32,
}

// A block of cells above a corner, up to its ends.
#[derive(Clone, Copy)]
pub(crate) struct Block {
    pub(crate) x: u32,
    pub(crate) y: u32,
    pub(crate) x_end: u32,
    pub(crate) y_end: u32,
}

// A pallet, straight or with its axes exchanged, with the places along both and the table that guides walks on it.
#[derive(Drop)]
pub(crate) struct Guide<'a> {
    pub(crate) inst: Inst,
    table: &'a LineTable,
    exchanged: bool,
    columns: Side,
    rows: Side,
}

// The pallet with its axes exchanged, and the same case.
fn turned(inst: Inst) -> Inst
    ensures { IsTurned inst result }
{
    Inst {
        l_side: inst.w_side,
        w_side: inst.l_side,
        long: inst.long,
        short: inst.short,
    }
}

impl<'a> Guide<'a> {
    // The guide on the pallet as it is.
    pub(crate) fn straight(
        alloc: Global,
        inst: Inst,
        table: &'a LineTable,
    ) -> Result<Guide<'a>, Memory>
        ensures inst { IfOk result (λ guide. guide.inst ≡ inst) }
        ensures straight { IfOk result (λ guide. guide.exchanged ≡ false) }
    {
        Ok(Guide {
            inst,
            table,
            exchanged: false,
            columns: Side::of(alloc, Axis::X, inst, table.columns())?,
            rows: Side::of(alloc, Axis::Y, inst, table.rows())?,
        })
    }

    // The guide on the pallet with its axes exchanged.
    pub(crate) fn exchanged(
        alloc: Global,
        inst: Inst,
        table: &'a LineTable,
    ) -> Result<Guide<'a>, Memory>
        ensures inst { IfOk result (λ guide. IsTurned inst guide.inst) }
        ensures exchanged { IfOk result (λ guide. guide.exchanged ≡ true) }
    {
        let inst = turned(inst);
        Ok(Guide {
            inst,
            table,
            exchanged: true,
            columns: Side::of(alloc, Axis::X, inst, table.rows())?,
            rows: Side::of(alloc, Axis::Y, inst, table.columns())?,
        })
    }

    // The case at a place of this pallet, as it lies on the pallet that is straight.
    pub(crate) fn spot(&self, x: u32, y: u32, way: Way) -> Spot
        ensures straight { self.now.exchanged ≡ false → result ≡ record { x = x; y = y; way = way } }
        ensures exchanged { self.now.exchanged ≡ true
            → IsTurnedCase self.now.inst (record { x = x; y = y; way = way }) result }
    {
        if !self.exchanged {
            return Spot { x, y, way };
        }
        let way = match way {
            Way::Lying if is_lawful(self.inst, Way::Standing) => Way::Standing,
            _ => Way::Lying,
        };
        Spot { x: y, y: x, way }
    }

    // The weight where the first so many lines across meet the first so many along, of the lines that the table has.
    fn first_weight(&self, across: usize, along: usize) -> u64 {
        let table = self.table;
        let (i, j) = if self.exchanged {
            (along, across)
        } else {
            (across, along)
        };
        table.first_weight(i.min(table.columns().len()), j.min(table.rows().len()))
    }

    // The weight of a block of cells.
    pub(crate) fn weight(&self, block: Block) -> u64 {
        let left = self.columns.at(block.x).lines;
        let right = self.columns.at(block.x_end).lines;
        let low = self.rows.at(block.y).lines;
        let high = self.rows.at(block.y_end).lines;
        let above = self
            .first_weight(right, high)
            .saturating_sub(self.first_weight(left, high));
        let under = self
            .first_weight(right, low)
            .saturating_sub(self.first_weight(left, low));
        above.saturating_sub(under)
    }

    // The cells that a case of this way would cover at a corner; None where it does not fit or may not begin there.
    fn case_block(&self, at: Corner, way: Way) -> Option<Block> {
        let across = extent_along(Axis::X, self.inst, way);
        let y_end = at.y.saturating_add(extent_along(Axis::Y, self.inst, way));
        if across <= at.run
            && y_end <= self.rows.length
            && self.columns.at(at.x).may_begin(way)
            && self.rows.at(at.y).may_begin(way)
        {
            Some(Block {
                x: at.x,
                y: at.y,
                x_end: at.x.saturating_add(across),
                y_end,
            })
        } else {
            None
        }
    }

    // The cells that are wasted where no case begins at a corner, up to the next places; None at the top of the pallet.
    fn wasted_block(&self, at: Corner) -> Option<Block> {
        if at.y < self.rows.length {
            let next = self.columns.at(at.x).next;
            Some(Block {
                x: at.x,
                y: at.y,
                x_end: next.min(at.x.saturating_add(at.run)),
                y_end: self.rows.at(at.y).next,
            })
        } else {
            None
        }
    }

    // The cells that a step takes at a corner; None where it may not be made.
    pub(crate) fn block_of(&self, at: Corner, step: Step) -> Option<Block> {
        match step {
            Step::Case(way) => self.case_block(at, way),
            Step::Waste => self.wasted_block(at),
        }
    }
}
