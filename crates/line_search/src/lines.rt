ghost use Rattle.std.specs.Prelude.{◌≡◌, ℕ, ◌<◌, ◌≤◌, ◌↔◌, ◌⊎◌, length, slice_index, All, AllPairs, Contains, IsTrue, IfOk, IfSome, IfNone, vec_len};
ghost use Rattle.plan_geometry.specs.Layout.{side};
ghost use Rattle.raster_points.specs.Places.{Lists};
ghost use Rattle.raster_points.specs.Points.{ArePointsOf};
ghost use Rattle.line_search.specs.Lines.{IsStart, IsEndSo, IsEnd, IsFirstEnd, IsNormalFromEnd, IsLastBefore, IsLineOf, IsLine};
ghost use Rattle.line_search.specs.Starts.{AreStarts, IsLineOfSome, IsMarked};

use plan_geometry::{Axis, Inst, Way, extent_along, is_lawful, side_along};
use plan_memory::Memory;
use raster_points::Points;
use std::alloc::Global;

// The points of a side of the pallet, and of each way the raster places where its cases start, rising.
#[derive(Drop)]
pub(crate) struct Starts {
    pub(crate) axis: Axis,
    pub(crate) inst: Inst,
    pub(crate) points: Points,
    pub(crate) lying: Vec<u32>,
    pub(crate) standing: Vec<u32>,
}

// The raster places where the cases of a way start; none where the way is not lawful or such a case does not fit.
fn starts_so(
    alloc: Global,
    points: &Points,
    axis: Axis,
    inst: Inst,
    way: Way,
) -> Result<Vec<u32>, Memory>
    requires { ArePointsOf axis inst points.now }
    ensures starts { IfOk result (λ v. Lists (IsStart axis inst way) v.items) }
{
    let (side, extent) = (side_along(axis, inst), extent_along(axis, inst, way));
    if is_lawful(inst, way) && extent <= side {
        points.raster(alloc, side - extent)
    } else {
        Ok(Vec::new(alloc))
    }
}

// The starts of an axis.
pub(crate) fn starts_of(alloc: Global, axis: Axis, inst: Inst) -> Result<Starts, Memory>
    ensures starts { IfOk result (λ s. AreStarts s) }
    ensures axis { IfOk result (λ s. s.axis ≡ axis) }
    ensures inst { IfOk result (λ s. s.inst ≡ inst) }
{
    let points = Points::of(alloc, side_along(axis, inst), inst.long, inst.short)?;
    let lying = starts_so(alloc, &points, axis, inst, Way::Lying)?;
    let standing = starts_so(alloc, &points, axis, inst, Way::Standing)?;
    Ok(Starts {
        axis,
        inst,
        points,
        lying,
        standing,
    })
}

// Whether a place is one of these, which rise.
fn has(places: &[u32], place: u32) -> bool
    requires { AllPairs (λ (x y : ℕ). x < y) places.now }
    ensures { IsTrue result ↔ Contains places.now place }
{
    places.binary_search(&place).is_ok()
}

// The places where the cases of a way start.
pub(crate) fn places_so(starts: &Starts, way: Way) -> &[u32]
    requires { AreStarts starts.now }
    ensures starts { Lists (IsStart starts.now.axis starts.now.inst way) result.now }
    ensures few { length result.now ≤ 4000 }
{
    match way {
        Way::Lying => starts.lying.as_slice(),
        Way::Standing => starts.standing.as_slice(),
    }
}

// Whether a case of this way that starts at a raster place ends here.
fn is_end_so(starts: &Starts, way: Way, place: u32) -> bool
    requires { AreStarts starts.now }
    ensures { IsTrue result ↔ IsEndSo starts.now.axis starts.now.inst way place }
{
    let extent = extent_along(starts.axis, starts.inst, way);
    extent <= place && has(places_so(starts, way), place - extent)
}

// Whether a case that starts at a raster place ends here.
fn is_end(starts: &Starts, place: u32) -> bool
    requires { AreStarts starts.now }
    ensures { IsTrue result ↔ IsEnd starts.now.axis starts.now.inst place }
{
    is_end_so(starts, Way::Lying, place) || is_end_so(starts, Way::Standing, place)
}

// The first end behind a start.
fn first_end(starts: &Starts, start: u32) -> Option<u32>
    requires starts { AreStarts starts.now }
    requires within { start ≤ side starts.now.axis starts.now.inst }
    ensures some { IfSome result (λ end. IsFirstEnd starts.now.axis starts.now.inst start end) }
    ensures none { IfNone result ((end : ℕ) → ¬ IsFirstEnd starts.now.axis starts.now.inst start end) }
{
    for end in start + 1..side_along(starts.axis, starts.inst) + 1 {
        if is_end(starts, end) {
            return Some(end);
        }
    }
    None
}

// Whether what a place leaves of the side is a total of case sides.
fn is_normal_from_end(starts: &Starts, place: u32) -> bool
    requires starts { AreStarts starts.now }
    requires within { place ≤ side starts.now.axis starts.now.inst }
    ensures { IsTrue result ↔ IsNormalFromEnd starts.now.axis starts.now.inst place }
{
    let left = side_along(starts.axis, starts.inst) - place;
    starts.points.down(left) == left
}

// The last place before an end that leaves a total of case sides.
fn last_before(starts: &Starts, end: u32) -> Option<u32>
    requires starts { AreStarts starts.now }
    requires within { end ≤ side starts.now.axis starts.now.inst }
    ensures some { IfSome result (λ place. IsLastBefore starts.now.axis starts.now.inst end place) }
    ensures none { IfNone result ((place : ℕ) → ¬ IsLastBefore starts.now.axis starts.now.inst end place) }
{
    for gap in 1..end + 1 {
        if is_normal_from_end(starts, end - gap) {
            return Some(end - gap);
        }
    }
    None
}

// The line of a start.
fn line_of(starts: &Starts, start: u32) -> Option<u32>
    requires starts { AreStarts starts.now }
    requires within { start ≤ side starts.now.axis starts.now.inst }
    ensures some { IfSome result (λ line. IsLineOf starts.now.axis starts.now.inst start line) }
    ensures none { IfNone result ((line : ℕ) → ¬ IsLineOf starts.now.axis starts.now.inst start line) }
    ensures within { IfSome result (λ line. line < side starts.now.axis starts.now.inst) }
{
    match first_end(starts, start) {
        Some(end) => last_before(starts, end),
        None => None,
    }
}

// Marks the lines of these starts.
fn mark_lines(starts: &Starts, places: &[u32], marks: &mut [bool])
    requires starts { AreStarts starts.now }
    requires within { All (λ place. place ≤ side starts.now.axis starts.now.inst) places.now }
    requires marks { length marks.old ≡ side starts.now.axis starts.now.inst }
    ensures { (v : ℕ) → IsMarked marks.new v
        ↔ (IsMarked marks.old v ⊎ IsLineOfSome starts.now.axis starts.now.inst places.now (length places.now) v) }
{
    for place in places {
        if let Some(line) = line_of(starts, *place) {
            marks[line as usize] = true;
        }
    }
}

// The numbers that are marked.
fn marked(alloc: Global, marks: &[bool]) -> Result<Vec<u32>, Memory>
    requires { length marks.now ≤ 4000 }
    ensures marked { IfOk result (λ v. Lists (IsMarked marks.now) v.items) }
    ensures few { IfOk result (λ v. vec_len v ≤ length marks.now) }
{
    let mut found = Vec::new(alloc);
    for v in 0..marks.len() {
        if marks[v] {
            found.push(v as u32)?;
        }
    }
    Ok(found)
}

// Marks the lines of the starts of both ways.
fn mark_all(starts: &Starts, marks: &mut [bool])
    requires starts { AreStarts starts.now }
    requires marks { length marks.old ≡ side starts.now.axis starts.now.inst }
    requires none { (v : ℕ) → ¬ IsMarked marks.old v }
    ensures { (v : ℕ) → IsMarked marks.new v ↔ IsLine starts.now.axis starts.now.inst v }
{
    mark_lines(starts, places_so(starts, Way::Lying), marks);
    mark_lines(starts, places_so(starts, Way::Standing), marks);
}

// The lines of the axis of these starts.
pub(crate) fn lines_by(alloc: Global, starts: &Starts) -> Result<Vec<u32>, Memory>
    requires { AreStarts starts.now }
    ensures lines { IfOk result (λ v. Lists (IsLine starts.now.axis starts.now.inst) v.items) }
    ensures few { IfOk result (λ v. vec_len v ≤ 4000) }
{
    let side = side_along(starts.axis, starts.inst);
    let mut marks = vec![in alloc; false; side as usize]?;
    mark_all(starts, marks.as_mut_slice());
    marked(alloc, marks.as_slice())
}

/// The lines of an axis of an instance, rising. A case starts at the raster places of its extent along the axis
/// (Scheithauer and Terno 1996), which leave other cases the most room. The line of such a start is the last place
/// before the first end of a case behind it that leaves a total of case sides up to the other end of the side. Where
/// no case fits along the axis there is no line.
///
/// Few lines lose nothing: a case at any whole place covers all lines that the case at its raster place covers, and
/// two cases at raster places that overlap share a line. So the linear program that weighs the crossings of the lines
/// alone has the value of that which weighs all cells. No bound rests on this: a table is judged by its exact bound.
///
/// Memory is taken for a few lists, none longer than the side.
pub fn lines_of(alloc: Global, axis: Axis, inst: Inst) -> Result<Vec<u32>, Memory>
    ensures { IfOk result (λ v. Lists (IsLine axis inst) v.items) }
{
    let starts = starts_of(alloc, axis, inst)?;
    lines_by(alloc, &starts)
}
