//! Assigning by an index.
//!
//! Promised: the refusals in their order, and else the array that the definition says, cell by cell. After a
//! refusal, and where memory is wanting, the array is as it was.

ghost use Rattle.std.specs.Prelude.{◌≡◌, ◌*◌, ◌<◌, ◌≤◌, length, IfOk, OnOk, OnErr};
ghost use Rattle.pl_array.specs.Arrays.{most};
ghost use Rattle.pl_index.specs.Writing.{assign_of, assign_new_of, assign_places, assign_block, nothing};
ghost use Rattle.pl_index.specs.declared.index.Index.{Index};

use crate::growth::{block_takes, colon_extent, grow_block, grow_line, line_takes};
use crate::index::{Index, Pos};
use crate::places::{cross, has_bad, list_places, reach_of, single_place};
use crate::write::store;
use pl_array::{Arr, Class, Shape};
use pl_base::{ErrKind, Or};
use std::alloc::Global;

pub fn assign(alloc: Global, a: &mut Arr, at: &Index, value: &Arr) -> Result<(), Or<ErrKind>>
    ensures ok { OnOk result (assign_of a.old at.now value.now ≡ Ok a.new) }
    ensures err { (kind : ErrKind) → result ≡ Err (Or.Is kind) → assign_of a.old at.now value.now ≡ Err kind }
    ensures kept { OnErr result (a.new ≡ a.old) }
{
    match at {
        Index::One(p) => assign_by_line(alloc, a, p, value),
        Index::Two(r, c) => assign_by_block(alloc, a, r, c, value),
    }
}

/// The array that an assignment makes where there was none.
pub fn assign_new(alloc: Global, at: &Index, value: &Arr) -> Result<Arr, Or<ErrKind>>
    ensures ok { IfOk result (λ o. assign_new_of at.now value.now ≡ Ok o) }
    ensures err { (kind : ErrKind) → result ≡ Err (Or.Is kind) → assign_new_of at.now value.now ≡ Err kind }
{
    let mut a = empty(alloc, value.class());
    assign(alloc, &mut a, at, value)?;
    Ok(a)
}

/// An array without rows and columns.
fn empty(alloc: Global, class: Class) -> Arr
    ensures { result ≡ nothing class }
{
    let nil = Shape { rows: 0, cols: 0 };
    Arr::new(class, nil, Vec::new(alloc))
}

fn assign_by_line(alloc: Global, a: &mut Arr, p: &Pos, value: &Arr) -> Result<(), Or<ErrKind>>
    ensures ok { OnOk result (assign_of a.old (Index.One p.now) value.now ≡ Ok a.new) }
    ensures err { (kind : ErrKind) → result ≡ Err (Or.Is kind) → assign_of a.old (Index.One p.now) value.now ≡ Err kind }
    ensures kept { OnErr result (a.new ≡ a.old) }
{
    if has_bad(p) {
        return Err(Or::Is(ErrKind::BadIndex));
    }
    if let Some(place) = single_place(p) {
        return assign_at(alloc, a, &[place], value);
    }
    let old = a.shape();
    let places = list_places(alloc, p, old.rows * old.cols)?;
    assign_at(alloc, a, places.as_slice(), value)
}

fn assign_at(alloc: Global, a: &mut Arr, places: &[u32], value: &Arr) -> Result<(), Or<ErrKind>>
    ensures ok { OnOk result (assign_places a.old places.now value.now ≡ Ok a.new) }
    ensures err { (kind : ErrKind) → result ≡ Err (Or.Is kind) → assign_places a.old places.now value.now ≡ Err kind }
    ensures kept { OnErr result (a.new ≡ a.old) }
{
    match grow_line(a.shape(), reach_of(places)) {
        Err(kind) => Err(Or::Is(kind)),
        Ok(s) => {
            if !line_takes(value, places.len()) {
                return Err(Or::Is(ErrKind::AssignSize));
            }
            store(alloc, a, s, places, value)
        }
    }
}

fn assign_by_block(
    alloc: Global,
    a: &mut Arr,
    r: &Pos,
    c: &Pos,
    value: &Arr,
) -> Result<(), Or<ErrKind>>
    ensures ok { OnOk result (assign_of a.old (Index.Two r.now c.now) value.now ≡ Ok a.new) }
    ensures err { (kind : ErrKind) → result ≡ Err (Or.Is kind) → assign_of a.old (Index.Two r.now c.now) value.now ≡ Err kind }
    ensures kept { OnErr result (a.new ≡ a.old) }
{
    if has_bad(r) || has_bad(c) {
        return Err(Or::Is(ErrKind::BadIndex));
    }
    if let Some(row) = single_place(r)
        && let Some(col) = single_place(c)
    {
        return assign_meeting(alloc, a, &[row], &[col], value);
    }
    let old = a.shape();
    let size = value.shape();
    let rows = list_places(alloc, r, colon_extent(old, old.rows, size.rows))?;
    let cols = list_places(alloc, c, colon_extent(old, old.cols, size.cols))?;
    assign_meeting(alloc, a, rows.as_slice(), cols.as_slice(), value)
}

fn assign_meeting(
    alloc: Global,
    a: &mut Arr,
    rows: &[u32],
    cols: &[u32],
    value: &Arr,
) -> Result<(), Or<ErrKind>>
    requires few_rows { length rows.now ≤ most }
    requires few_cols { length cols.now ≤ most }
    ensures ok { OnOk result (assign_block a.old rows.now cols.now value.now ≡ Ok a.new) }
    ensures err { (kind : ErrKind) → result ≡ Err (Or.Is kind) → assign_block a.old rows.now cols.now value.now ≡ Err kind }
    ensures kept { OnErr result (a.new ≡ a.old) }
{
    match grow_block(a.shape(), rows, cols) {
        Err(kind) => Err(Or::Is(kind)),
        Ok(s) => {
            if !block_takes(value, rows.len(), cols.len()) {
                return Err(Or::Is(ErrKind::AssignSize));
            }
            let places = cross(alloc, s, rows, cols)?;
            store(alloc, a, s, places.as_slice(), value)
        }
    }
}
