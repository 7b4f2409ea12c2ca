ghost use Rattle.std.specs.Prelude.{◌≡◌, ◌+◌, ◌*◌, min, max, ◌<◌, ◌≤◌, ◌↔◌, IfOk, IfSome, IfNone, IsSome, IsTrue, Some, None};
ghost use Rattle.plan_geometry.specs.declared.spots.Axis.TheVariants.{X, Y};
ghost use Rattle.raster_points.specs.Places.{Lists};
ghost use Rattle.line_tables.specs.Lines.{half, BelongsTo};
ghost use Rattle.line_search.specs.Lines.{IsLine};
ghost use Rattle.line_search.specs.Flows.{AreAxes};
ghost use Rattle.line_search.specs.Search.{HasFewLines, IsBounding, IsImproved, Closes};
ghost use Rattle.line_search.specs.declared.search.End.{End};

use crate::blocks::total_of;
use crate::flows::{Axes, Flow, flow_of, go_all, restart, step_all};
use crate::lines::{lines_by, starts_of};
use crate::looks::{packed, repaired, rounded};
use crate::values::ONE;
use line_tables::{LineTable, MOST_LISTED};
use plan_geometry::{Axis, Inst, case_fits};
use plan_memory::Memory;
use std::alloc::Global;
use std::marker::Model;

// How many turns are made between two looks.
const TURNS: u32 = 20;

/// The most turns of a search.
pub const MOST_TURNS: u32 = 2_000;

// How many weights and levels the turns of a search pass in all at the most.
const MOST_PASSES: u64 = 40_000_000;

// Where the levels pack so much less than a whole number of cases, that many are not to be hoped for.
const NEAR: u64 = ONE / 16;

/// How a search stands.
#[derive(Clone, Copy, PartialEq, Eq, Debug)]
pub enum End {
    /// The bound of the best table is at most the target.
    Closed,
    /// The levels pack so much that no better table is to be hoped for.
    Hopeless,
    /// Neither: the turns ran out.
    Spent,
}

/// A table of an instance, and the bound that it gives on the cases of a layout.
#[derive(Drop)]
pub struct Bounding {
    pub table: LineTable,
    pub bound: u64,
}

/// A search of tables of weights on the lines of an instance, which can go on.
#[derive(Drop)]
pub struct LineSearch {
    inst: Inst,
    columns: Vec<u32>,
    rows: Vec<u32>,
    flow: Flow,
    best: Option<Bounding>,
    lightest: Option<LineTable>,
    turns: u32,
    // The most turns.
    limit: u32,
    // The turns since the search began again.
    since: u32,
    // The least total of repaired weights.
    least: u64,
    // How much the levels pack at the most.
    packed: u64,
    // The total of repaired weights less what levels packed, when the search began again.
    gap: u64,
}

impl Model for LineSearch {
    ghost use Rattle.line_search.specs.Search.{Found};

    ghost Value = { Found };

    ghost use Rattle.line_search.specs.Inside.{found_of, IsSearch};

    ghost view = { found_of };

    ghost invariant = { IsSearch };
}

// How many weights and levels a flow has.
fn entries_of(flow: &Flow) -> u64 {
    let weights = flow.weights.at.len() as u64;
    let lying = flow.lying.levels.at.len() as u64;
    let standing = flow.standing.levels.at.len() as u64;
    weights.saturating_add(lying).saturating_add(standing)
}

// The most turns of a search with so many weights and levels.
fn limit_of(entries: u64) -> u32
    ensures { result ≤ 2000 }
{
    (MOST_PASSES / entries.max(1)).min(u64::from(MOST_TURNS)) as u32
}

// Both axes of an instance.
fn axes_of(alloc: Global, inst: Inst) -> Result<Axes, Memory>
    ensures { IfOk result (λ axes. AreAxes inst axes) }
{
    let across = starts_of(alloc, Axis::X, inst)?;
    let down = starts_of(alloc, Axis::Y, inst)?;
    let columns = lines_by(alloc, &across)?;
    let rows = lines_by(alloc, &down)?;
    Ok(Axes {
        columns,
        rows,
        across,
        down,
    })
}

// Whether so many columns and rows are some, and few enough for a table.
fn is_few(k: usize, m: usize) -> bool
    requires columns { k ≤ 4000 }
    requires rows { m ≤ 4000 }
    ensures { IsTrue result ↔ (1 ≤ k × 1 ≤ m × half k * half m ≤ 40000) }
{
    1 <= k && 1 <= m && k.div_ceil(2) * m.div_ceil(2) <= MOST_LISTED
}

// Whether there are lines along both axes, and few enough of them for a table.
fn are_few(inst: Inst, axes: &Axes) -> bool
    requires { AreAxes inst axes.now }
    ensures { IsTrue result ↔ HasFewLines inst }
{
    is_few(axes.columns.len(), axes.rows.len())
}

// A copy of a table with its bound, where that is below the least that is known.
fn bounding_of(
    alloc: Global,
    inst: Inst,
    table: &LineTable,
    least: u64,
) -> Result<Option<Bounding>, Memory>
    requires { BelongsTo table.now inst }
    ensures bounding { IfOk result (λ made. IfSome made (IsBounding inst)) }
    ensures below { IfOk result (λ made. IfSome made (λ b. b.bound < least)) }
{
    if !case_fits(inst) {
        return Ok(None);
    }
    match table.bound(inst) {
        Some(bound) if bound < least => {
            let table = table.copied(alloc)?;
            Ok(Some(Bounding { table, bound }))
        }
        _ => Ok(None),
    }
}

// The table of these weights on the lines of an instance, rounded.
fn table_of(
    alloc: Global,
    inst: Inst,
    columns: &[u32],
    rows: &[u32],
    weights: &[u64],
) -> Result<Option<LineTable>, Memory>
    requires columns { Lists (IsLine X inst) columns.now }
    requires rows { Lists (IsLine Y inst) rows.now }
    ensures { IfOk result (λ made. IfSome made (λ t. BelongsTo t inst)) }
{
    let quarter = rounded(alloc, weights)?;
    let columns = Vec::from_slice(alloc, columns)?;
    let rows = Vec::from_slice(alloc, rows)?;
    LineTable::new(alloc, columns, rows, quarter)
}

impl LineSearch {
    /// Begins a search of tables that prove a count of cases, the target. None exactly where there is no line along an
    /// axis, or where the quarter of the crossings has more than 40,000 weights. Memory is taken for some ten numbers
    /// for each crossing of a quarter and for each place of a case in a quarter.
    pub fn start(alloc: Global, inst: Inst, target: u32) -> Result<Option<LineSearch>, Memory>
        ensures accepted { IfOk result (λ made. IsSome made ↔ HasFewLines inst) }
        ensures inst { IfOk result (λ made. IfSome made (λ s. s.inst ≡ inst)) }
        ensures best { IfOk result (λ made. IfSome made (λ s. s.best ≡ None)) }
        ensures lightest { IfOk result (λ made. IfSome made (λ s. s.lightest ≡ None)) }
        ensures turns { IfOk result (λ made. IfSome made (λ s. s.turns ≡ 0)) }
        ensures limit { IfOk result (λ made. IfSome made (λ s. s.limit ≤ 2000)) }
    {
        let axes = axes_of(alloc, inst)?;
        if !are_few(inst, &axes) {
            return Ok(None);
        }
        let flow = flow_of(alloc, inst, &axes, target)?;
        let limit = limit_of(entries_of(&flow));
        let Axes { columns, rows, .. } = axes;
        Ok(Some(LineSearch {
            inst,
            columns,
            rows,
            flow,
            best: None,
            lightest: None,
            turns: 0,
            limit,
            since: 0,
            least: u64::MAX,
            packed: 0,
            gap: u64::MAX,
        }))
    }

    /// How many turns were made.
    pub fn turns(&self) -> u32
        ensures { result ≡ self.now.turns }
    {
        self.turns
    }

    /// How many turns it makes at the most: 2,000, or fewer on many lines.
    pub fn limit(&self) -> u32
        ensures { result ≡ self.now.limit }
    {
        self.limit
    }

    /// The table with the least bound that was found, below the known bound of the run that found it.
    pub fn best(&self) -> Option<&Bounding>
        ensures none { IfNone result (self.now.best ≡ None) }
        ensures value { IfSome result (λ b. self.now.best ≡ Some b.now) }
        ensures bound { IfSome result (λ b. IsBounding self.now.inst b.now) }
    {
        self.best.as_ref()
    }

    /// The table of the repaired weights of least total.
    pub fn lightest(&self) -> Option<&LineTable>
        ensures none { IfNone result (self.now.lightest ≡ None) }
        ensures value { IfSome result (λ t. self.now.lightest ≡ Some t.now) }
        ensures belongs { IfSome result (λ t. BelongsTo t.now self.now.inst) }
    {
        self.lightest.as_ref()
    }

    // How the search stands.
    fn end(&self, target: u32, known: u32) -> End
        ensures { (result ≡ End.Closed) ↔ Closes self.now target }
    {
        if let Some(best) = &self.best {
            if best.bound <= u64::from(target) {
                return End::Closed;
            }
        }
        if self.least_bound(known) <= self.packed.saturating_add(NEAR) / ONE {
            End::Hopeless
        } else {
            End::Spent
        }
    }

    // The least bound that is known.
    fn least_bound(&self, known: u32) -> u64
        ensures known { result ≤ known }
        ensures best { IfSome self.now.best (λ b. result ≤ b.bound) }
    {
        match &self.best {
            Some(best) => best.bound.min(u64::from(known)),
            None => u64::from(known),
        }
    }

    // Keeps a table as the best.
    fn keep_best(&mut self, better: Bounding)
        requires { IsBounding self.old.inst better }
        ensures { self.new ≡ record self.old { best = Some better } }
    {
        self.best = Some(better);
    }

    // Keeps a table as the lightest.
    fn keep_lightest(&mut self, table: LineTable)
        requires { BelongsTo table self.old.inst }
        ensures { self.new ≡ record self.old { lightest = Some table } }
    {
        self.lightest = Some(table);
    }

    // Tests the table of repaired weights, which is kept where no lighter one was met, and as the best where its bound
    // is below the known one and that of the best so far.
    fn test(&mut self, alloc: Global, known: u32, weights: &[u64]) -> Result<(), Memory>
        ensures inst { self.new.inst ≡ self.old.inst }
        ensures turns { self.new.turns ≡ self.old.turns }
        ensures limit { self.new.limit ≡ self.old.limit }
        ensures improved { IsImproved known self.old.best self.new.best }
    {
        let made = table_of(
            alloc,
            self.inst,
            self.columns.as_slice(),
            self.rows.as_slice(),
            weights,
        )?;
        let Some(table) = made else {
            return Ok(());
        };
        let least = self.least_bound(known);
        if let Some(better) = bounding_of(alloc, self.inst, &table, least)? {
            self.keep_best(better);
        }
        self.keep_lightest(table);
        Ok(())
    }

    // Begins again where the last step led if what the weights bound is less than a third as far from what the levels
    // pack as it was, or after many turns; else goes on.
    fn go_on(&mut self, gap: u64)
        ensures { self.new ≡ self.old }
    {
        let (k, m) = (self.columns.len(), self.rows.len());
        if gap < self.gap / 3 || (self.since > 200 && self.since.saturating_mul(3) > self.turns) {
            self.gap = gap;
            self.since = 0;
            restart(&mut self.flow, k, m);
        } else {
            go_all(&mut self.flow, k, m, self.since);
        }
    }

    // Looks at where the last step led: packs the levels, and tests the table of the repaired weights where these are
    // lighter than all before.
    fn look(&mut self, alloc: Global, known: u32) -> Result<(), Memory>
        ensures inst { self.new.inst ≡ self.old.inst }
        ensures turns { self.new.turns ≡ self.old.turns }
        ensures limit { self.new.limit ≡ self.old.limit }
        ensures improved { IsImproved known self.old.best self.new.best }
    {
        let (k, m) = (self.columns.len(), self.rows.len());
        let weights = repaired(alloc, &mut self.flow, k, m)?;
        let packed = packed(alloc, &mut self.flow, k, m)?;
        let total = total_of(weights.as_slice(), k, m);
        self.packed = self.packed.max(packed);
        self.go_on(total.saturating_sub(packed));
        if total < self.least {
            self.least = total;
            self.test(alloc, known, weights.as_slice())?;
        }
        Ok(())
    }

    // One turn, with a look at every twentieth.
    fn turn(&mut self, alloc: Global, known: u32) -> Result<(), Memory>
        requires { self.old.turns < self.old.limit }
        ensures inst { self.new.inst ≡ self.old.inst }
        ensures turns { self.new.turns ≡ self.old.turns + 1 }
        ensures limit { self.new.limit ≡ self.old.limit }
        ensures improved { IsImproved known self.old.best self.new.best }
    {
        let (k, m) = (self.columns.len(), self.rows.len());
        step_all(&mut self.flow, k, m);
        self.turns += 1;
        self.since = self.since.saturating_add(1);
        if self.turns % TURNS == 0 {
            self.look(alloc, known)
        } else {
            go_all(&mut self.flow, k, m, self.since);
            Ok(())
        }
    }

    /// Searches a table whose bound is at most the target, or else the best below `known`, a bound on the cases that is
    /// known. Goes on until there are so many turns in all, counted from the start, or 2,000, or fewer on many lines;
    /// so a later call with a greater number goes on where an earlier one stopped. Closed exactly where the bound of
    /// the best table is at most the target. Ends early where that is so, or where it is hopeless.
    ///
    /// Weights and levels are led towards the best of both (Chambolle and Pock 2011; Pock and Chambolle 2011), reflected
    /// and drawn to an anchor (Halpern 1967; Lu and Yang 2024), with restarts (Applegate and others 2021), in whole
    /// numbers alone. Nothing of this is believed: a table counts by its exact bound alone.
    ///
    /// Where memory is refused the search is left as it is then: what it holds for the best and the lightest table is
    /// true, and it can go on.
    pub fn run(
        &mut self,
        alloc: Global,
        target: u32,
        known: u32,
        most_turns: u32,
    ) -> Result<End, Memory>
        ensures inst { self.new.inst ≡ self.old.inst }
        ensures limit { self.new.limit ≡ self.old.limit }
        ensures more { self.old.turns ≤ self.new.turns }
        ensures limited { self.new.turns ≤ max self.old.turns (min most_turns self.old.limit) }
        ensures improved { IsImproved known self.old.best self.new.best }
        ensures closed { IfOk result (λ end. (end ≡ End.Closed) ↔ Closes self.new target) }
        ensures spent { IfOk result (λ end. end ≡ End.Spent → min most_turns self.old.limit ≤ self.new.turns) }
    {
        for _turn in self.turns..most_turns.min(self.limit) {
            let end = self.end(target, known);
            if end != End::Spent {
                return Ok(end);
            }
            self.turn(alloc, known)?;
        }
        Ok(self.end(target, known))
    }
}
