ghost use Rattle.truck_floor.specs.Laws.{FloorsFitTheirLoads, FloorLoadsAreBounded, FloorLoadsAreReached, TotalsAreOne, OptimalTotalsAreGreatest, TotalsHaveOneText, TotalLinesAreRead, TotalsAreShort};

/// Where both rows of a floors file's row are orders, the first is that of a floor for the loaded pallets of the second.
pub fn floors_fit_their_loads()
    ensures { FloorsFitTheirLoads }
{}

/// For sound plans of a floor's order and of a load's order, no floor load has more cases than the product of the total's
/// two bounds, however its cases and pallets lie and its layers are stacked.
pub fn floor_loads_are_bounded()
    ensures { FloorLoadsAreBounded }
{}

/// For sound plans whose total has cases on a pallet, there is a floor load of as many cases as the product of the total's
/// first two numbers, in which each pallet bears the stack that the load's plan lists: each two neighbours of it meet every
/// rule that the load's order asks for.
pub fn floor_loads_are_reached()
    ensures { FloorLoadsAreReached }
{}

/// Two totals of the same plans are equal.
pub fn totals_are_one()
    ensures { TotalsAreOne }
{}

/// Where the total of sound plans is optimal, no floor load has more cases than its first two numbers give.
pub fn optimal_totals_are_greatest()
    ensures { OptimalTotalsAreGreatest }
{}

/// Bytes begin with the text of at most one total, so a total that was put is got, whatever follows it.
pub fn totals_have_one_text()
    ensures { TotalsHaveOneText }
{}

/// A line is read exactly where it is that of a total within its ranges.
pub fn total_lines_are_read()
    ensures { TotalLinesAreRead }
{}

/// The text of a total has at most 49 bytes.
pub fn totals_are_short()
    ensures { TotalsAreShort }
{}
