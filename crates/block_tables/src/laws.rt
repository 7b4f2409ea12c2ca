ghost use Rattle.block_tables.specs.Admitted.{AdmittedLaw};
ghost use Rattle.block_tables.specs.Numbers.{CellsLaw};

/// A number of a block, times the cells of a case, is at most the cells of the block.
pub fn numbers_fit_in_cells()
    ensures { CellsLaw }
{}

/// A number of a block that is no larger than the pallet is the number of cases of some layout.
pub fn numbers_are_admitted()
    ensures { AdmittedLaw }
{}
