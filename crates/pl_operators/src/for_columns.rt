//! The columns of an array, for a loop that takes one after another.

ghost use Rattle.std.specs.Prelude.{◌≡◌, ◌<◌, [], ◌∷◌, map, IfOk};
ghost use Rattle.std.specs.List.{range_with_len};
ghost use Rattle.pl_array.specs.Arrays.{cell_at};
ghost use Rattle.pl_operators.specs.Columns.{columns_of, column_of};

use crate::operands::array_of;
use pl_array::{Arr, Shape};
use pl_base::{ErrKind, NoMemory};
use pl_values::Value;
use std::alloc::Global;

/// How many columns a value has.
pub fn columns(v: &Value) -> Result<u32, ErrKind>
    ensures { result ≡ columns_of v.now }
{
    let a = array_of(v)?;
    Ok(a.shape().cols)
}

/// Column j, which counts from 0, in the array's class; of one row it takes no memory.
pub fn column(alloc: Global, a: &Arr, j: u32) -> Result<Arr, NoMemory>
    requires { j < a.now.cols }
    ensures { IfOk result (λ o. o ≡ column_of a.now j) }
{
    if a.shape().rows == 1 {
        return Ok(cell_of_row(a, j));
    }
    tall_column(alloc, a, j)
}

/// The cell in column j of a row.
#[tactic(auto, using(crate::proofs::ColumnCells::cell_class))]
fn cell_of_row(a: &Arr, j: u32) -> Arr
    requires row { a.now.rows ≡ 1 }
    requires col { j < a.now.cols }
    ensures { result ≡ record { class = a.now.class; rows = 1; cols = 1; cells = cell_at a.now 0 j ∷ [] } }
{
    let _valid = a.shape();
    Arr::one(a.class(), a.cell(0, j))
}

fn tall_column(alloc: Global, a: &Arr, j: u32) -> Result<Arr, NoMemory>
    requires { j < a.now.cols }
    ensures { IfOk result (λ o. o ≡ column_of a.now j) }
{
    let rows = a.shape().rows;
    let cells = column_cells(alloc, a, j)?;
    Ok(Arr::new(a.class(), Shape { rows, cols: 1 }, cells))
}

fn column_cells(alloc: Global, a: &Arr, j: u32) -> Result<Vec<i64>, NoMemory>
    requires { j < a.now.cols }
    ensures { IfOk result (λ v. v.items ≡ map (λ r. cell_at a.now r j) (range_with_len 0 a.now.rows)) }
{
    let rows = a.shape().rows;
    let cells = (0..rows).map(|r| a.cell(r, j)).collect(alloc)?;
    Ok(cells)
}
