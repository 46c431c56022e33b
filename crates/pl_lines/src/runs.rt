//! Lines whose cells stand one behind another, and a value for each of them.
//!
//! A column always stands so, and a row where it is the only one. So each line along the default dimension is handed
//! out as a slice, and costs nothing.

ghost use Rattle.std.specs.Prelude.{◌≡◌, ℕ, ◌+◌, ◌*◌, ◌<◌, ◌≤◌, ℤ, pos, List, map, length, slice_index_or, IfOk};
ghost use Rattle.std.specs.List.{range_with_len};
ghost use Rattle.pl_array.specs.Arrays.{IsValid};
ghost use Rattle.pl_array.specs.Cellwise.{shape_of};
ghost use Rattle.pl_lines.specs.Lines.{default_dim, line_count, line, lines};
ghost use Rattle.pl_lines.specs.declared.dim.Dim.{Dim};

use crate::dim::default_dim;
use pl_array::Arr;
use pl_base::NoMemory;
use std::alloc::Global;

/// A value for a line.
pub trait LineRule {
    ghost value: { Self → List ℤ → ℤ };

    fn value(&self, line: &[i64]) -> i64
        ensures { result ≡ value self.now line.now };
}

/// The cells of one line along the default dimension, where lines count from 0.
pub fn line_cells(a: &Arr, i: u32) -> &[i64]
    requires { i < line_count (default_dim (shape_of a.now)) (shape_of a.now) }
    ensures { result.now ≡ line (default_dim (shape_of a.now)) a.now i }
{
    let s = a.shape();
    if s.rows == 1 && s.cols != 1 {
        only_row(a, i)
    } else {
        column_cells(a, i)
    }
}

/// The cells of the only row.
pub(crate) fn only_row(a: &Arr, i: u32) -> &[i64]
    requires one { a.now.rows ≡ 1 }
    requires index { i < 1 }
    ensures { result.now ≡ line Dim.Across a.now i }
{
    a.cells()
}

/// The cells of one column.
pub(crate) fn column_cells(a: &Arr, i: u32) -> &[i64]
    requires { i < a.now.cols }
    ensures { result.now ≡ line Dim.Down a.now i }
{
    let rows = a.shape().rows as usize;
    let from = i as usize * rows;
    &a.cells()[from..from + rows]
}

/// The rule's value for each line along the default dimension, in order.
pub fn map_lines<R: LineRule>(alloc: Global, rule: &R, a: &Arr) -> Result<Vec<i64>, NoMemory>
    ensures { IfOk result (λ v. v.items ≡ map (R.value rule.now) (lines (default_dim (shape_of a.now)) a.now)) }
{
    let s = a.shape();
    let count = default_dim(s).line_count(s);
    let mut values = Vec::with_capacity(alloc, count as usize)?;
    for i in 0..count {
        values.push(rule.value(line_cells(a, i)))?;
    }
    Ok(values)
}
