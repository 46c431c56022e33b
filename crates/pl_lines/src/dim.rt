//! The two dimensions.

ghost use Rattle.std.specs.Prelude.{◌≡◌, ℕ};
ghost use Rattle.pl_lines.specs.Lines.{dim_of, default_dim, extent, line_count, with_extent};

use pl_array::Shape;

/// The dimension along which lines go.
#[derive(Clone, Copy, Debug, PartialEq, Eq)]
pub enum Dim {
    /// The lines are the columns.
    Down,
    /// The lines are the rows.
    Across,
}

impl Dim {
    /// The dimension that a script calls 1 or 2.
    pub fn of(number: i64) -> Option<Dim>
        ensures { result ≡ dim_of number }
    {
        match number {
            1 => Some(Dim::Down),
            2 => Some(Dim::Across),
            _ => None,
        }
    }

    /// How many cells each line of an array of this shape has.
    pub fn extent(self, s: Shape) -> u32
        ensures { result ≡ extent self s }
    {
        match self {
            Dim::Down => s.rows,
            Dim::Across => s.cols,
        }
    }

    /// How many lines an array of this shape has.
    pub fn line_count(self, s: Shape) -> u32
        ensures { result ≡ line_count self s }
    {
        match self {
            Dim::Down => s.cols,
            Dim::Across => s.rows,
        }
    }

    /// The shape with as many lines, each of so many cells.
    pub fn with_extent(self, s: Shape, n: u32) -> Shape
        ensures { result ≡ with_extent self s n }
    {
        match self {
            Dim::Down => Shape {
                rows: n,
                cols: s.cols,
            },
            Dim::Across => Shape {
                rows: s.rows,
                cols: n,
            },
        }
    }
}

/// The dimension that is meant where none is given: the first whose extent isn't 1, and down for a 1x1 array.
pub fn default_dim(s: Shape) -> Dim
    ensures { result ≡ default_dim s }
{
    if s.rows == 1 && s.cols != 1 {
        Dim::Across
    } else {
        Dim::Down
    }
}
