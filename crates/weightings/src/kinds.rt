use crate::tables::WeightTable;
use line_tables::LineTable;

/// A weight for each cell of the pallet, whose cells are the unit squares (x, y) from (0, 0) on. The colours are those
/// of Barnes 1979.
#[derive(Debug, Drop)]
pub enum Weighting {
    /// 1 everywhere.
    Area,
    /// 1 where x + y leaves `c` when divided by `k`, else 0.
    Colour { k: u32, c: u32 },
    /// 1 where x leaves `a` when divided by `p` and y leaves `b` when divided by `r`, else 0.
    Comb { p: u32, a: u32, r: u32, b: u32 },
    /// What the table says, cell by cell.
    Table(WeightTable),
    /// What the table says where one of its columns crosses one of its rows, else 0.
    Lines(LineTable),
}
