//! An array, and the calls on one: making it, reading its cells, writing them in place.
//!
//! Promised: contracts see the class, rows, columns and cells, which are always within the limits and of
//! the class. Reading, and copying an array that was shared, cost the same at every size.

ghost use Rattle.std.specs.Prelude.{◌≡◌, ℕ, ◌+◌, ◌-◌, ◌*◌, ◌<◌, ◌≤◌, ℤ, pos, [], ◌∷◌, ◌++◌, length, slice_set, IfOk, MatchResult};
ghost use Rattle.std.specs.List.{All};
ghost use Rattle.pl_array.specs.Arrays.{Array, IsCell, IsValid, most, cell_at, single_of, with_cells, put_of, class_number};

use crate::class::{Class, Shape};
use crate::held::Cells;
use pl_base::NoMemory;
use std::alloc::Global;
use std::marker::Model;

/// An array. Operands are lent, and `copy` makes one more owner.
#[derive(Debug, Drop)]
pub struct Arr {
    class: Class,
    rows: u32,
    cols: u32,
    cells: Cells,
}

impl Model for Arr {
    ghost use Rattle.pl_array.specs.Arrays.{Array, IsValid};

    ghost Value = { Array };

    ghost use Rattle.pl_array.specs.Inner.{array_of};

    ghost view = { array_of };

    ghost invariant = { λ a. IsValid (array_of a) };
}

impl Arr {
    /// An array of these cells, moved; takes no memory.
    pub fn new(class: Class, shape: Shape, cells: Vec<i64>) -> Arr
        requires count { length cells.items ≡ shape.rows * shape.cols }
        requires limit { shape.rows * shape.cols ≤ most }
        requires row_limit { shape.rows ≤ most }
        requires col_limit { shape.cols ≤ most }
        requires of_class { All (IsCell class) cells.items }
        ensures { result ≡ record { class = class; rows = shape.rows; cols = shape.cols; cells = cells.items } }
    {
        Arr {
            class,
            rows: shape.rows,
            cols: shape.cols,
            cells: Cells::of(cells),
        }
    }

    /// One number, of class int64; takes no memory.
    pub fn scalar(v: i64) -> Arr
        ensures { result ≡ record { class = Class.Int; rows = 1; cols = 1; cells = v ∷ [] } }
    {
        Arr {
            class: Class::Int,
            rows: 1,
            cols: 1,
            cells: Cells::One(v),
        }
    }

    /// One cell of a class; takes no memory.
    pub fn one(class: Class, v: i64) -> Arr
        requires { IsCell class v }
        ensures { result ≡ record { class = class; rows = 1; cols = 1; cells = v ∷ [] } }
    {
        Arr {
            class,
            rows: 1,
            cols: 1,
            cells: Cells::One(v),
        }
    }

    /// An equal array; takes no memory for a 1x1 array and for a shared one.
    pub fn copy(&self, alloc: Global) -> Result<Arr, NoMemory>
        ensures { IfOk result (λ a. a ≡ self.now) }
    {
        let cells = self.cells.copy(alloc)?;
        Ok(Arr {
            class: self.class,
            rows: self.rows,
            cols: self.cols,
            cells,
        })
    }

    /// The same array, whose copies take no memory from now on, if memory for that is found.
    pub fn share(self, alloc: Global) -> Arr
        ensures { result ≡ self }
    {
        let Arr {
            class,
            rows,
            cols,
            cells,
        } = self;
        Arr {
            class,
            rows,
            cols,
            cells: cells.share(alloc),
        }
    }

    /// The same cells in another class; takes no memory where a copy takes none.
    pub(crate) fn recast(&self, alloc: Global, class: Class) -> Result<Arr, NoMemory>
        requires { All (IsCell class) self.now.cells }
        ensures { IfOk result (λ a. a ≡ record { class = class; rows = self.now.rows; cols = self.now.cols; cells = self.now.cells }) }
    {
        let cells = self.cells.copy(alloc)?;
        Ok(Arr {
            class,
            rows: self.rows,
            cols: self.cols,
            cells,
        })
    }

    pub fn class(&self) -> Class
        ensures { result ≡ self.now.class }
    {
        self.class
    }

    pub fn shape(&self) -> Shape
        ensures shape { result ≡ record { rows = self.now.rows; cols = self.now.cols } }
        ensures valid { IsValid self.now }
    {
        Shape {
            rows: self.rows,
            cols: self.cols,
        }
    }

    /// The cells by columns.
    pub fn cells(&self) -> &[i64]
        ensures cells { result.now ≡ self.now.cells }
        ensures valid { IsValid self.now }
    {
        self.cells.items()
    }

    /// The cell in row r and column c, which count from 0.
    pub fn cell(&self, r: u32, c: u32) -> i64
        requires row { r < self.now.rows }
        requires col { c < self.now.cols }
        ensures { result ≡ cell_at self.now r c }
    {
        self.cells.items()[c as usize * self.rows as usize + r as usize]
    }

    /// The number at the place of row r and column c, and 0 behind the cells.
    pub(crate) fn read(&self, r: u32, c: u32) -> i64
        ensures { result ≡ cell_at self.now r c }
    {
        let place = c as usize * self.rows as usize + r as usize;
        self.cells.items().get(place).copied().unwrap_or(0)
    }

    /// The number of a 1x1 array.
    pub fn single(&self) -> Option<i64>
        ensures { result ≡ single_of self.now }
    {
        match self.cells.items() {
            [v] => Some(*v),
            _ => None,
        }
    }

    /// Writes one cell, in place where nobody else holds the cells. Without memory nothing changes.
    pub fn set_cell(&mut self, alloc: Global, place: usize, v: i64) -> Result<(), NoMemory>
        requires place { place < length self.old.cells }
        requires class { IsCell self.old.class v }
        ensures { MatchResult result (λ _. self.new ≡ with_cells self.old (slice_set self.old.cells place v)) (λ _. self.new ≡ self.old) }
    {
        self.cells.set(alloc, place, v)
    }

    /// Takes a shape with as many cells or more, the cells kept in their order and zeros behind them, and
    /// then writes numbers to places, one after another. In place where nobody else holds the cells, and
    /// over many calls the growth costs what the cells cost. Without memory nothing changes.
    pub fn put(
        &mut self,
        alloc: Global,
        shape: Shape,
        places: &[u32],
        values: &[i64],
    ) -> Result<(), NoMemory>
        requires grows { length self.old.cells ≤ shape.rows * shape.cols }
        requires limit { shape.rows * shape.cols ≤ most }
        requires row_limit { shape.rows ≤ most }
        requires col_limit { shape.cols ≤ most }
        requires places { All (λ place. place < shape.rows * shape.cols) places.now }
        requires pairs { length places.now ≡ length values.now }
        requires of_class { All (IsCell self.old.class) values.now }
        ensures { MatchResult result (λ _. self.new ≡ put_of self.old shape.rows shape.cols places.now values.now) (λ _. self.new ≡ self.old) }
    {
        let count = shape.rows as usize * shape.cols as usize;
        self.cells.put(alloc, count, places, values)?;
        self.rows = shape.rows;
        self.cols = shape.cols;
        Ok(())
    }
}

impl PartialEq for Arr {
    ghost use Rattle.std.specs.Prelude.{◌==◌};
    ghost use Rattle.std.specs.Ordering.{on, eq_of_both, int_eq};
    ghost use Rattle.std.specs.Cmp.Lexicographic.{pointwise};
    ghost use Rattle.std.specs.Cmp.Rules.{comparing};
    ghost use Rattle.std.proofs.Common.{rules};

    ghost eq = { eq_of_both (on (λ a. class_number a.class) ◌==◌) (eq_of_both (on (λ a. a.rows) ◌==◌) (eq_of_both (on (λ a. a.cols) ◌==◌) (on (λ a. a.cells) (pointwise int_eq)))) };

    ghost laws = { Prim.search (comparing, rules) };

    fn eq(&self, other: &Arr) -> bool {
        self.class.number() == other.class.number()
            && self.rows == other.rows
            && self.cols == other.cols
            && self.cells() == other.cells()
    }
}
