ghost use Rattle.line_tables.specs.Laws.{CellsWeighTheirCrossings, OtherCellsWeighNothing, BothEndsWeighTheSame, BlocksWeighTheirCrossings};

/// The cells where a column crosses a row have the weights of the table, the same from both ends, and the others have
/// none.
pub fn cells_weigh_their_crossings()
    ensures crossings { CellsWeighTheirCrossings }
    ensures others { OtherCellsWeighNothing }
    ensures ends { BothEndsWeighTheSame }
{}

/// A block of cells weighs what the crossings of the columns and rows through it weigh, so places of a case with the
/// same columns and rows before their ends weigh the same.
pub fn blocks_weigh_their_crossings()
    ensures { BlocksWeighTheirCrossings }
{}
