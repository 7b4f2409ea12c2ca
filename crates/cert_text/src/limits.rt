/// The greatest side, divisor or factor of a certificate's text.
pub(crate) const MOST_SIDE: u32 = 4_000;

/// The greatest quantity of a cut.
pub(crate) const MOST_QUANTITY: u64 = 9_999_999_999;

/// The most marks of a tree.
pub(crate) const MOST_MARKS: usize = 500_000;
