//! The classes of arrays, and shapes.

ghost use Rattle.std.specs.Prelude.{◌≡◌};
ghost use Rattle.pl_array.specs.Arrays.{class_number};
ghost use Rattle.pl_array.specs.Joining.{greater_class};

/// The class of an array's cells, the least first: joined arrays get the greatest of theirs.
#[derive(Clone, Copy, Debug, PartialEq, Eq)]
pub enum Class {
    /// 0 or 1.
    Logical,
    /// Any 64-bit number.
    Int,
    /// The number of a byte.
    Char,
}

impl Class {
    /// Its place among the classes.
    pub fn number(self) -> u8
        ensures { result ≡ class_number self }
    {
        match self {
            Class::Logical => 0,
            Class::Int => 1,
            Class::Char => 2,
        }
    }

    /// The later of two classes.
    pub fn greater(self, other: Class) -> Class
        ensures { result ≡ greater_class self other }
    {
        if self.number() < other.number() {
            other
        } else {
            self
        }
    }
}

/// How many rows and columns.
#[derive(Clone, Copy, Debug, PartialEq, Eq)]
pub struct Shape {
    pub rows: u32,
    pub cols: u32,
}
