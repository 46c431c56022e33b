//! Selecting by an index.
//!
//! Promised: the refusals in their order, and else the cells at the places that the index names, in their shape and
//! in the class of the array, which is only read.

ghost use Rattle.std.specs.Prelude.{◌≡◌, ◌*◌, ◌<◌, ◌≤◌, [], ◌∷◌, pos, length, slice_index_or, IfOk};
ghost use Rattle.pl_array.specs.Arrays.{most};
ghost use Rattle.pl_index.specs.Places.{Lists, Holds, reach};
ghost use Rattle.pl_index.specs.Choosing.{is_vector, line_like, own_shape, laid, lying, taken, part, select_places, select_part, select_of};
ghost use Rattle.pl_index.specs.declared.index.Index.{Index};

use crate::index::{Index, Pos};
use crate::places::{cross, has_bad, list_places, masks, pick, reach_of, single_place};
use pl_array::{Arr, Shape};
use pl_base::{ErrKind, NoMemory, Or};
use std::alloc::Global;

pub fn select(alloc: Global, a: &Arr, at: &Index) -> Result<Arr, Or<ErrKind>>
    ensures ok { IfOk result (λ o. select_of a.now at.now ≡ Ok o) }
    ensures err { (kind : ErrKind) → result ≡ Err (Or.Is kind) → select_of a.now at.now ≡ Err kind }
{
    match at {
        Index::One(p) => select_line(alloc, a, p),
        Index::Two(r, c) => select_block(alloc, a, r, c),
    }
}

fn select_line(alloc: Global, a: &Arr, p: &Pos) -> Result<Arr, Or<ErrKind>>
    ensures ok { IfOk result (λ o. select_of a.now (Index.One p.now) ≡ Ok o) }
    ensures err { (kind : ErrKind) → result ≡ Err (Or.Is kind) → select_of a.now (Index.One p.now) ≡ Err kind }
{
    if has_bad(p) {
        return Err(Or::Is(ErrKind::BadIndex));
    }
    if let Some(place) = single_place(p) {
        return select_at(alloc, a, p, &[place]);
    }
    let s = a.shape();
    let places = list_places(alloc, p, s.rows * s.cols)?;
    select_at(alloc, a, p, places.as_slice())
}

fn select_at(alloc: Global, a: &Arr, p: &Pos, places: &[u32]) -> Result<Arr, Or<ErrKind>>
    requires few { length places.now ≤ most }
    requires listed { Lists p.now (length places.now) }
    ensures ok { IfOk result (λ o. select_places a.now p.now places.now ≡ Ok o) }
    ensures err { (kind : ErrKind) → result ≡ Err (Or.Is kind) → select_places a.now p.now places.now ≡ Err kind }
{
    if reach_of(places) > a.cells().len() as u64 {
        return Err(Or::Is(ErrKind::IndexRange));
    }
    let shape = lie(a.shape(), p, places.len() as u32);
    Ok(take(alloc, a, shape, places)?)
}

fn select_block(alloc: Global, a: &Arr, r: &Pos, c: &Pos) -> Result<Arr, Or<ErrKind>>
    ensures ok { IfOk result (λ o. select_of a.now (Index.Two r.now c.now) ≡ Ok o) }
    ensures err { (kind : ErrKind) → result ≡ Err (Or.Is kind) → select_of a.now (Index.Two r.now c.now) ≡ Err kind }
{
    if has_bad(r) || has_bad(c) {
        return Err(Or::Is(ErrKind::BadIndex));
    }
    if let Some(row) = single_place(r)
        && let Some(col) = single_place(c)
    {
        return select_meeting(alloc, a, &[row], &[col]);
    }
    let s = a.shape();
    let rows = list_places(alloc, r, s.rows)?;
    let cols = list_places(alloc, c, s.cols)?;
    select_meeting(alloc, a, rows.as_slice(), cols.as_slice())
}

fn select_meeting(alloc: Global, a: &Arr, rows: &[u32], cols: &[u32]) -> Result<Arr, Or<ErrKind>>
    requires few_rows { length rows.now ≤ most }
    requires few_cols { length cols.now ≤ most }
    ensures ok { IfOk result (λ o. select_part a.now rows.now cols.now ≡ Ok o) }
    ensures err { (kind : ErrKind) → result ≡ Err (Or.Is kind) → select_part a.now rows.now cols.now ≡ Err kind }
{
    let s = a.shape();
    if reach_of(rows) > s.rows as u64 || reach_of(cols) > s.cols as u64 {
        return Err(Or::Is(ErrKind::IndexRange));
    }
    if rows.len() * cols.len() > 1_000_000 {
        return Err(Or::Is(ErrKind::SizeLimit));
    }
    Ok(take_part(alloc, a, rows, cols)?)
}

/// The shape of what one position selects.
fn lie(s: Shape, p: &Pos, count: u32) -> Shape
    requires few { count ≤ most }
    requires listed { Lists p.now count }
    ensures shape { result ≡ lying s p.now count }
    ensures holds { Holds result count }
{
    match p {
        Pos::All => column(count),
        Pos::At(x) => lay(s, own(x, count), count),
    }
}

/// A row of so many cells.
pub(crate) fn row(count: u32) -> Shape
    ensures { result ≡ record { rows = 1; cols = count } }
{
    Shape {
        rows: 1,
        cols: count,
    }
}

/// A column of so many cells.
pub(crate) fn column(count: u32) -> Shape
    ensures { result ≡ record { rows = count; cols = 1 } }
{
    Shape {
        rows: count,
        cols: 1,
    }
}

/// A row where this is one row, else a column.
pub(crate) fn line(s: Shape, count: u32) -> Shape
    requires { count ≤ most }
    ensures shape { result ≡ line_like s count }
    ensures holds { Holds result count }
{
    if s.rows == 1 {
        row(count)
    } else {
        column(count)
    }
}

fn own(x: &Arr, count: u32) -> Shape
    requires few { count ≤ most }
    requires listed { Lists (Pos.At x.now) count }
    ensures shape { result ≡ own_shape x.now count }
    ensures holds { Holds result count }
{
    let s = x.shape();
    if masks(x.class()) { line(s, count) } else { s }
}

pub(crate) fn is_line(s: Shape) -> bool
    ensures { result ≡ is_vector s }
{
    s.rows == 1 || s.cols == 1
}

fn lay(s: Shape, own: Shape, count: u32) -> Shape
    requires few { count ≤ most }
    requires own { Holds own count }
    ensures shape { result ≡ laid s own count }
    ensures holds { Holds result count }
{
    let is_one = s.rows == 1 && s.cols == 1;
    if is_line(s) && !is_one && is_line(own) {
        line(s, count)
    } else {
        own
    }
}

/// The cells at places, in a shape.
pub(crate) fn take(alloc: Global, a: &Arr, s: Shape, places: &[u32]) -> Result<Arr, NoMemory>
    requires { Holds s (length places.now) }
    ensures { IfOk result (λ o. o ≡ taken a.now s places.now) }
{
    if let [place] = places {
        return Ok(take_cell(a, *place));
    }
    let cells = pick(alloc, a.cells(), places)?;
    Ok(Arr::new(a.class(), s, cells))
}

/// The cell at one place; takes no memory.
fn take_cell(a: &Arr, place: u32) -> Arr
    ensures { result ≡ record { class = a.now.class; rows = 1; cols = 1; cells = slice_index_or a.now.cells place (pos 0) ∷ [] } }
{
    let v = a.cells().get(place as usize).copied().unwrap_or(0);
    Arr::one(a.class(), v)
}

/// The array of these rows and columns.
pub(crate) fn take_part(alloc: Global, a: &Arr, rows: &[u32], cols: &[u32]) -> Result<Arr, NoMemory>
    requires row_reach { reach rows.now ≤ a.now.rows }
    requires col_reach { reach cols.now ≤ a.now.cols }
    requires few_rows { length rows.now ≤ most }
    requires few_cols { length cols.now ≤ most }
    requires limit { length rows.now * length cols.now ≤ most }
    ensures { IfOk result (λ o. o ≡ part a.now rows.now cols.now) }
{
    let places = cross(alloc, a.shape(), rows, cols)?;
    let s = Shape {
        rows: rows.len() as u32,
        cols: cols.len() as u32,
    };
    take(alloc, a, s, places.as_slice())
}
