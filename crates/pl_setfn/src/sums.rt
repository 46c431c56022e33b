//! Running sums along a dimension.
//!
//! Promised: one pass over the cells. The strict mode refuses where a sum is past the 64-bit numbers, and else sums are
//! clamped step by step.

ghost use Rattle.std.specs.Prelude.{◌≡◌, ℕ, ◌-◌, ◌*◌, ◌%◌, ◌==◌, ◌<◌, ◌≤◌, ℤ, pos, Some, None, map, length, slice_index_or, IfOk, if◌then◌else◌};
ghost use Rattle.std.specs.List.{range_with_len};
ghost use Rattle.pl_array.specs.Arrays.{most};
ghost use Rattle.pl_lines.specs.Folding.{all_of};
ghost use Rattle.pl_lines.specs.declared.dim.Dim.{Dim};
ghost use Rattle.pl_setfn.specs.Along.{added, index_at, stride, running, cumsum_of};

use pl_array::{Arr, Class, Shape};
use pl_base::{ErrKind, Mode, Or, add_sat};
use pl_lines::Dim;
use std::alloc::Global;

/// For each cell the sum of its line up to it.
pub(crate) fn cumsum(alloc: Global, mode: Mode, a: &Arr, d: Dim) -> Result<Arr, Or<ErrKind>>
    ensures ok { IfOk result (λ o. cumsum_of mode d a.now ≡ Ok o) }
    ensures err { (kind : ErrKind) → result ≡ Err (Or.Is kind) → cumsum_of mode d a.now ≡ Err kind }
{
    let s = a.shape();
    let mut sums = Vec::with_capacity(alloc, a.cells().len())?;
    for k in 0..s.rows * s.cols {
        let before = sum_before(d, s, sums.as_slice(), k);
        match add(mode, before, a.cells()[k as usize]) {
            Some(sum) => sums.push(sum)?,
            None => return Err(Or::Is(ErrKind::Overflow)),
        }
    }
    Ok(Arr::new(Class::Int, s, sums))
}

/// The sum of the line before the cell at place k, where the sums up to there are known.
fn sum_before(d: Dim, s: Shape, sums: &[i64], k: u32) -> i64
    requires known { length sums.now ≡ k }
    requires rows { 0 < s.rows }
    ensures { result ≡ (if index_at d s k == 0 then pos 0 else slice_index_or sums.now (k - stride d s) (pos 0)) }
{
    match d {
        Dim::Down => if k % s.rows == 0 {
            0
        } else {
            sums[k as usize - 1]
        },
        Dim::Across => if k < s.rows {
            0
        } else {
            sums[k as usize - s.rows as usize]
        },
    }
}

fn add(mode: Mode, x: i64, y: i64) -> Option<i64>
    ensures { result ≡ added mode x y }
{
    match mode {
        Mode::Saturate => Some(add_sat(x, y)),
        Mode::Strict => x.checked_add(y),
    }
}
