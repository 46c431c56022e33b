//! Rows and columns change places.

ghost use Rattle.std.specs.Prelude.{◌≡◌, ◌*◌, ◌/◌, ◌%◌, ◌<◌, ◌≤◌, IfOk};
ghost use Rattle.pl_array.specs.Arrays.{most, cell_at};
ghost use Rattle.pl_array.specs.Joining.{by_places, transposed};

use crate::arr::Arr;
use crate::class::Shape;
use pl_base::NoMemory;
use std::alloc::Global;

/// The array with rows and columns in each other's place. The operand is only read.
pub fn transpose(alloc: Global, a: &Arr) -> Result<Arr, NoMemory>
    ensures { IfOk result (λ o. o ≡ transposed a.now) }
{
    let cells = turned(alloc, a)?;
    let shape = a.shape();
    let turned = Shape {
        rows: shape.cols,
        cols: shape.rows,
    };
    Ok(Arr::new(a.class(), turned, cells))
}

fn turned(alloc: Global, a: &Arr) -> Result<Vec<i64>, NoMemory>
    ensures { IfOk result (λ v. v.items ≡ (transposed a.now).cells) }
{
    let shape = a.shape();
    if shape.cols == 0 {
        return Ok(Vec::new(alloc));
    }
    turned_by_place(alloc, a, shape.rows, shape.cols)
}

fn turned_by_place(alloc: Global, a: &Arr, rows: u32, cols: u32) -> Result<Vec<i64>, NoMemory>
    requires cols { 0 < cols }
    requires limit { cols * rows ≤ most }
    ensures { IfOk result (λ v. v.items ≡ by_places (cols * rows) (λ k. cell_at a.now (k / cols) (k % cols))) }
{
    let cells = (0..cols * rows)
        .map(|k| a.read(k / cols, k % cols))
        .collect(alloc)?;
    Ok(cells)
}
