// Places of pivots.

/// The row and the column of a pivot.
#[derive(Clone, Copy, Debug, PartialEq, Eq)]
pub struct Pivot {
    pub row: usize,
    pub column: usize,
}
