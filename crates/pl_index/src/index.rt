//! What stands between the parentheses of an index.

use pl_array::Arr;

/// What one position names.
#[derive(Debug, Drop)]
pub enum Pos {
    /// A colon: every place.
    All,
    /// The places of these numbers, or of a mask's true cells.
    At(Arr),
}

/// An index: places among all cells, or rows and columns.
#[derive(Debug, Drop)]
pub enum Index {
    One(Pos),
    Two(Pos, Pos),
}
