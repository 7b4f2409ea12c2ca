// Why a designs file gives no orders.

/// Why the row is refused: the first test that it fails. Columns are counted from 1, which is the id's; where a number is at
/// fault, the leftmost is named.
#[derive(Clone, Copy, PartialEq, Eq, Debug)]
pub enum DesignFault {
    /// Not eight fields.
    FieldCount,
    /// The id has not 1 to 40 bytes, each from 32 to 126.
    BadId,
    /// The field is neither `0` nor a digit from 1 to 9 followed by at most nine digits.
    BadNumber { column: u32 },
    /// The number is not from 1 to 4,000, or the least area not from 1 to 16,000,000.
    OutOfRange { column: u32 },
    /// No size is within the ranges.
    NoSize,
    /// More than 256 sizes are.
    TooManySizes,
}

/// Why a file's design was not read.
#[derive(Clone, Copy, PartialEq, Eq, Debug)]
pub enum DesignStop {
    /// There is no record, or the first is not the header of a designs file.
    NoHeader,
    /// Two or more rows follow the header.
    TooManyRows,
    /// Memory was refused.
    Memory,
}
