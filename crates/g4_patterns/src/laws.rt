ghost use Rattle.g4_patterns.specs.Four.{FourCellsLaw};

/// A number of a block, times the cells of a case, is at most the cells of the block.
pub fn four_numbers_fit_in_cells()
    ensures { FourCellsLaw }
{}
