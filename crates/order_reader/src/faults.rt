// Why a row is refused.
use crate::fields::Field;

/// Why a row is refused: the first test that it fails. Where a number is at fault, the leftmost is named.
#[derive(Clone, Copy, PartialEq, Eq, Debug)]
pub enum RowFault {
    /// Not as many fields as the header has.
    FieldCount,
    /// The id has not 1 to 40 bytes, each from 32 to 126.
    BadId,
    /// The field is neither `0` nor a digit from 1 to 9 followed by at most nine digits.
    BadNumber { field: Field },
    /// The number is outside its column's range.
    OutOfRange { field: Field },
    /// The case fits on the pallet in neither way.
    DoesNotFit,
    /// By area more than 1,000 cases fit: the pallet's area, its sides grown by the gap, divided by the case's, grown alike.
    TooManyCases,
}

/// Why an order was not made.
#[derive(Clone, Copy, PartialEq, Eq, Debug)]
pub enum OrderFail {
    /// The id or a number is not such as an order has.
    Fault(RowFault),
    /// Memory was refused.
    Memory,
}
