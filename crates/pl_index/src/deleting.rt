//! Deleting by an index.
//!
//! Promised: the refusals in their order, and else what is left, in its order. After a refusal, and where memory is
//! wanting, the array is as it was. A deletion costs the array and the places.

ghost use Rattle.std.specs.Prelude.{◌≡◌, ◌*◌, ◌<◌, ◌≤◌, [], not, false, length, replicate, slice_index_or, IfOk, OnOk, OnErr};
ghost use Rattle.std.specs.List.{All, filter, range_with_len};
ghost use Rattle.pl_array.specs.Arrays.{most};
ghost use Rattle.pl_index.specs.Inner.{marked};
ghost use Rattle.pl_index.specs.Places.{Holds, reach, left_over};
ghost use Rattle.pl_index.specs.Choosing.{left_shape, delete_rows, delete_cols, delete_lines, delete_of};
ghost use Rattle.pl_index.specs.declared.index.Index.{Index};

use crate::growth::is_nothing;
use crate::index::{Index, Pos};
use crate::places::{first_places, has_bad, list_places, reach_of};
use crate::selecting::{is_line, line, take, take_part};
use pl_array::{Arr, Shape};
use pl_base::{ErrKind, NoMemory, Or};
use std::alloc::Global;

pub fn delete(alloc: Global, a: &mut Arr, at: &Index) -> Result<(), Or<ErrKind>>
    ensures ok { OnOk result (delete_of a.old at.now ≡ Ok a.new) }
    ensures err { (kind : ErrKind) → result ≡ Err (Or.Is kind) → delete_of a.old at.now ≡ Err kind }
    ensures kept { OnErr result (a.new ≡ a.old) }
{
    let left = rest(alloc, a, at)?;
    *a = left;
    Ok(())
}

/// What is left.
fn rest(alloc: Global, a: &Arr, at: &Index) -> Result<Arr, Or<ErrKind>>
    ensures ok { IfOk result (λ o. delete_of a.now at.now ≡ Ok o) }
    ensures err { (kind : ErrKind) → result ≡ Err (Or.Is kind) → delete_of a.now at.now ≡ Err kind }
{
    match at {
        Index::One(p) => rest_of_line(alloc, a, p),
        Index::Two(r, c) => {
            if has_bad(r) || has_bad(c) {
                return Err(Or::Is(ErrKind::BadIndex));
            }
            rest_of_block(alloc, a, r, c)
        }
    }
}

fn rest_of_line(alloc: Global, a: &Arr, p: &Pos) -> Result<Arr, Or<ErrKind>>
    ensures ok { IfOk result (λ o. delete_of a.now (Index.One p.now) ≡ Ok o) }
    ensures err { (kind : ErrKind) → result ≡ Err (Or.Is kind) → delete_of a.now (Index.One p.now) ≡ Err kind }
{
    if has_bad(p) {
        return Err(Or::Is(ErrKind::BadIndex));
    }
    let s = a.shape();
    if !is_line(s) && !is_nothing(s) {
        return Err(Or::Is(ErrKind::DeleteShape));
    }
    let count = s.rows * s.cols;
    let places = list_places(alloc, p, count)?;
    if reach_of(places.as_slice()) > count as u64 {
        return Err(Or::Is(ErrKind::IndexRange));
    }
    let left = leave(alloc, count, places.as_slice())?;
    let shape = shape_left(s, left.len() as u32);
    Ok(take(alloc, a, shape, left.as_slice())?)
}

fn shape_left(s: Shape, count: u32) -> Shape
    requires few { count ≤ most }
    requires less { count ≤ s.rows * s.cols }
    ensures shape { result ≡ left_shape s count }
    ensures holds { Holds result count }
{
    if is_nothing(s) { s } else { line(s, count) }
}

fn rest_of_block(alloc: Global, a: &Arr, r: &Pos, c: &Pos) -> Result<Arr, Or<ErrKind>>
    ensures ok { IfOk result (λ o. delete_lines a.now r.now c.now ≡ Ok o) }
    ensures err { (kind : ErrKind) → result ≡ Err (Or.Is kind) → delete_lines a.now r.now c.now ≡ Err kind }
{
    let s = a.shape();
    match r {
        Pos::All => match c {
            Pos::All => {
                let cols = first_places(alloc, s.cols)?;
                Ok(take_part(alloc, a, &[], cols.as_slice())?)
            }
            Pos::At(_) => {
                let cols = list_places(alloc, c, s.cols)?;
                rest_of_cols(alloc, a, cols.as_slice())
            }
        },
        Pos::At(_) => match c {
            Pos::All => {
                let rows = list_places(alloc, r, s.rows)?;
                rest_of_rows(alloc, a, rows.as_slice())
            }
            Pos::At(_) => Err(Or::Is(ErrKind::DeleteShape)),
        },
    }
}

fn rest_of_rows(alloc: Global, a: &Arr, rows: &[u32]) -> Result<Arr, Or<ErrKind>>
    ensures ok { IfOk result (λ o. delete_rows a.now rows.now ≡ Ok o) }
    ensures err { (kind : ErrKind) → result ≡ Err (Or.Is kind) → delete_rows a.now rows.now ≡ Err kind }
{
    let s = a.shape();
    if reach_of(rows) > s.rows as u64 {
        return Err(Or::Is(ErrKind::IndexRange));
    }
    let left = leave(alloc, s.rows, rows)?;
    let cols = first_places(alloc, s.cols)?;
    Ok(take_part(alloc, a, left.as_slice(), cols.as_slice())?)
}

fn rest_of_cols(alloc: Global, a: &Arr, cols: &[u32]) -> Result<Arr, Or<ErrKind>>
    ensures ok { IfOk result (λ o. delete_cols a.now cols.now ≡ Ok o) }
    ensures err { (kind : ErrKind) → result ≡ Err (Or.Is kind) → delete_cols a.now cols.now ≡ Err kind }
{
    let s = a.shape();
    if reach_of(cols) > s.cols as u64 {
        return Err(Or::Is(ErrKind::IndexRange));
    }
    let rows = first_places(alloc, s.rows)?;
    let left = leave(alloc, s.cols, cols)?;
    Ok(take_part(alloc, a, rows.as_slice(), left.as_slice())?)
}

/// The places that aren't among these.
fn leave(alloc: Global, extent: u32, places: &[u32]) -> Result<Vec<u32>, NoMemory>
    requires { reach places.now ≤ extent }
    ensures left { IfOk result (λ v. v.items ≡ left_over extent places.now) }
    ensures less { IfOk result (λ v. length v.items ≤ extent) }
    ensures reach { IfOk result (λ v. reach v.items ≤ extent) }
{
    let marks = mark(alloc, extent, places)?;
    let left = unmarked(alloc, extent, marks.as_slice())?;
    Ok(left)
}

/// The places without a mark.
fn unmarked(alloc: Global, extent: u32, marks: &[bool]) -> Result<Vec<u32>, NoMemory>
    ensures { IfOk result (λ v. v.items ≡ filter (λ k. not (slice_index_or marks.now k false)) (range_with_len 0 extent)) }
{
    let left = (0..extent)
        .filter(|k| !is_marked(marks, *k))
        .collect(alloc)?;
    Ok(left)
}

fn is_marked(marks: &[bool], k: u32) -> bool
    ensures { result ≡ slice_index_or marks.now k false }
{
    marks.get(k as usize).copied().unwrap_or(false)
}

/// A mark for each place that goes.
fn mark(alloc: Global, extent: u32, places: &[u32]) -> Result<Vec<bool>, NoMemory>
    requires { All (λ place. place < extent) places.now }
    ensures { IfOk result (λ v. v.items ≡ marked (replicate extent false) places.now) }
{
    let mut marks = Vec::new(alloc);
    marks.resize(extent as usize, false)?;
    mark_each(marks.as_mut_slice(), places);
    Ok(marks)
}

fn mark_each(marks: &mut [bool], places: &[u32])
    requires { All (λ place. place < length marks.old) places.now }
    ensures { marks.new ≡ marked marks.old places.now }
{
    for place in places {
        marks[*place as usize] = true;
    }
}
