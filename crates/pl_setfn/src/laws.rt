//! Laws of the definitions: what sorting is for, which cells `unique` gives, and that no two functions have one name.

ghost use Rattle.std.specs.Prelude.{◌≡◌, ℕ, ◌+◌, ◌<◌, ℤ, pos, ◌<ℤ◌, Bool, Some, length, slice_index_or};
ghost use Rattle.std.specs.List.{list_any};
ghost use Rattle.std.specs.List.Sorted.{IsPermutation, IsSorted};
ghost use Rattle.pl_setfn.specs.Naming.{name_of, fn_named};
ghost use Rattle.pl_setfn.specs.Sorting.{compared, in_order, entries, sorted, once};
ghost use Rattle.pl_setfn.specs.declared.order.Way.{Way};

use crate::order::Way;
use crate::set_fn::SetFn;

/// A line in order has the entries of the line, and none of them stands before one that is less: by the cell, and where
/// cells are equal by the place. So a sort permutes the line, orders it and is stable.
pub fn in_order_is_a_stable_sort(way: Way, line: &[i64])
    ensures permutes { IsPermutation (entries way line.now) (in_order (entries way line.now)) }
    ensures ascends { IsSorted compared (in_order (entries way line.now)) }
{}

/// The sorted cells, each once, rise from each to the next, and a test holds for one of them where it holds for some
/// cell: they are just the cells that occur.
pub fn distinct_cells_rise(cells: &[i64])
    ensures rise { (k : ℕ) → k + 1 < length (once (sorted Way.Rising cells.now)) → slice_index_or (once (sorted Way.Rising cells.now)) k (pos 0) <ℤ slice_index_or (once (sorted Way.Rising cells.now)) (k + 1) (pos 0) }
    ensures occur { (p : ℤ → Bool) → list_any p (once (sorted Way.Rising cells.now)) ≡ list_any p cells.now }
{}

/// The name of a function is the name of no other.
pub fn names_differ(f: SetFn)
    ensures { fn_named (name_of f) ≡ Some f }
{}
