ghost use Rattle.l_patterns.specs.Laws.{EllAdmittedLaw, EllCellsLaw, WholePartsLaw, NumberingLaw};

/// A number of a region, times the cells of a case, is at most the cells of the region.
pub fn ell_numbers_fit_in_cells()
    ensures { EllCellsLaw }
{}

/// A number of a rectangle that is no larger than the pallet is the number of cases of some layout.
pub fn ell_numbers_are_admitted()
    ensures { EllAdmittedLaw }
{}

/// A cut one part of which has as many cells as its region gives no greater number than the better grid and
/// the cuts into two smaller parts give.
pub fn whole_parts_give_nothing_greater()
    ensures { WholePartsLaw }
{}

/// Every lawful cut at normal places has a number in the order in which the search goes through the cuts.
pub fn cuts_are_numbered()
    ensures { NumberingLaw }
{}
