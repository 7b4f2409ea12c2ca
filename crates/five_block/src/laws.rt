ghost use Rattle.five_block.specs.Five.{FiveCellsLaw};

/// A number of a block, times the cells of a case, is at most the cells of the block.
pub fn five_numbers_fit_in_cells()
    ensures { FiveCellsLaw }
{}
