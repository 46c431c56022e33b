//! The places that a position names, as a list: selecting, assigning and deleting all begin with it.
//!
//! Promised: the definition's places, in their order. A list costs what it is long.

ghost use Rattle.std.specs.Prelude.{◌≡◌, ℕ, ◌+◌, ◌*◌, ◌/◌, ◌%◌, ◌<◌, ◌≤◌, [], ◌∷◌, pos, int_lt, false, map, length, slice_index_or, IfOk, IfSome};
ghost use Rattle.std.specs.List.{range_with_len, list_any};
ghost use Rattle.pl_array.specs.Arrays.{most};
ghost use Rattle.pl_array.specs.Cellwise.{is_true};
ghost use Rattle.pl_index.specs.declared.index.Pos.{Pos};
ghost use Rattle.pl_index.specs.Places.{is_mask, is_bad, place_of, true_places, index_places, places_of, reach, crossing, picked, Lists, Inside};

use crate::index::Pos;
use pl_array::{Arr, Class, Shape};
use pl_base::NoMemory;
use std::alloc::Global;

/// Whether a number of the position is below 1.
pub(crate) fn has_bad(p: &Pos) -> bool
    ensures { result ≡ is_bad p.now }
{
    match p {
        Pos::All => false,
        Pos::At(x) => !masks(x.class()) && has_low(x.cells()),
    }
}

/// Whether an index of this class is a mask.
pub(crate) fn masks(class: Class) -> bool
    ensures { result ≡ is_mask class }
{
    match class {
        Class::Logical => true,
        _ => false,
    }
}

fn has_low(numbers: &[i64]) -> bool
    ensures { result ≡ list_any (λ z. int_lt z (pos 1)) numbers.now }
{
    numbers.iter().any(|z| *z < 1)
}

/// The places that a position names, where so many are there.
pub(crate) fn list_places(alloc: Global, p: &Pos, extent: u32) -> Result<Vec<u32>, NoMemory>
    requires { extent ≤ most }
    ensures places { IfOk result (λ v. v.items ≡ places_of p.now extent) }
    ensures few { IfOk result (λ v. length v.items ≤ most) }
    ensures listed { IfOk result (λ v. Lists p.now (length v.items)) }
{
    match p {
        Pos::All => first_places(alloc, extent),
        Pos::At(x) => list_index(alloc, x),
    }
}

/// As many places as wanted, from the first on.
pub(crate) fn first_places(alloc: Global, count: u32) -> Result<Vec<u32>, NoMemory>
    ensures places { IfOk result (λ v. v.items ≡ range_with_len 0 count) }
    ensures count { IfOk result (λ v. length v.items ≡ count) }
    ensures reach { IfOk result (λ v. reach v.items ≤ count) }
{
    let places = (0..count).collect(alloc)?;
    Ok(places)
}

/// The place of a position that is one number.
pub(crate) fn single_place(p: &Pos) -> Option<u32>
    ensures place { IfSome result (λ k. (extent : ℕ) → places_of p.now extent ≡ k ∷ []) }
    ensures listed { IfSome result (λ _. Lists p.now 1) }
{
    match p {
        Pos::All => None,
        Pos::At(x) => single_index(x),
    }
}

fn single_index(x: &Arr) -> Option<u32>
    ensures place { IfSome result (λ k. index_places x.now ≡ k ∷ []) }
    ensures listed { IfSome result (λ _. Lists (Pos.At x.now) 1) }
{
    if masks(x.class()) {
        return None;
    }
    match x.cells() {
        [z] => Some(to_place(*z)),
        _ => None,
    }
}

fn list_index(alloc: Global, x: &Arr) -> Result<Vec<u32>, NoMemory>
    ensures places { IfOk result (λ v. v.items ≡ index_places x.now) }
    ensures few { IfOk result (λ v. length v.items ≤ most) }
    ensures listed { IfOk result (λ v. Lists (Pos.At x.now) (length v.items)) }
{
    if masks(x.class()) {
        list_mask(alloc, x.cells())
    } else {
        list_numbers(alloc, x.cells())
    }
}

fn list_numbers(alloc: Global, numbers: &[i64]) -> Result<Vec<u32>, NoMemory>
    ensures places { IfOk result (λ v. v.items ≡ map place_of numbers.now) }
    ensures count { IfOk result (λ v. length v.items ≡ length numbers.now) }
{
    let places = numbers.iter().map(|z| to_place(*z)).collect(alloc)?;
    Ok(places)
}

fn to_place(z: i64) -> u32
    ensures { result ≡ place_of z }
{
    z.unsigned_abs().saturating_sub(1).min(1_000_000) as u32
}

fn list_mask(alloc: Global, cells: &[i64]) -> Result<Vec<u32>, NoMemory>
    requires { length cells.now ≤ most }
    ensures places { IfOk result (λ v. v.items ≡ true_places cells.now) }
    ensures few { IfOk result (λ v. length v.items ≤ length cells.now) }
{
    let places = (0..cells.len() as u32)
        .filter(|k| is_set(cells, *k))
        .collect(alloc)?;
    Ok(places)
}

fn is_set(cells: &[i64], k: u32) -> bool
    ensures { result ≡ is_true (slice_index_or cells.now k (pos 0)) }
{
    cells.get(k as usize).copied().unwrap_or(0) != 0
}

/// The greatest subscript, and 0 for no place.
pub(crate) fn reach_of(places: &[u32]) -> u64
    ensures { result ≡ reach places.now }
{
    let mut top: u64 = 0;
    for k in places {
        top = top.max(*k as u64 + 1);
    }
    top
}

/// The places where the columns meet the rows.
pub(crate) fn cross(
    alloc: Global,
    s: Shape,
    rows: &[u32],
    cols: &[u32],
) -> Result<Vec<u32>, NoMemory>
    requires inside { 0 < length rows.now * length cols.now → Inside s rows.now cols.now }
    requires few_rows { length rows.now ≤ most }
    requires few_cols { length cols.now ≤ most }
    ensures { IfOk result (λ v. v.items ≡ crossing s.rows rows.now cols.now) }
{
    if rows.len() == 0 || cols.len() == 0 {
        return Ok(Vec::new(alloc));
    }
    cross_lines(alloc, s, rows, cols)
}

fn cross_lines(alloc: Global, s: Shape, rows: &[u32], cols: &[u32]) -> Result<Vec<u32>, NoMemory>
    requires some { 0 < length rows.now }
    requires inside { Inside s rows.now cols.now }
    requires few_rows { length rows.now ≤ most }
    requires few_cols { length cols.now ≤ most }
    ensures { IfOk result (λ v. v.items ≡ crossing s.rows rows.now cols.now) }
{
    let places = (0..rows.len() * cols.len())
        .map(|k| cross_at(s, rows, cols, k))
        .collect(alloc)?;
    Ok(places)
}

#[tactic(auto, using(crate::proofs::Crossing::cross_small))]
fn cross_at(s: Shape, rows: &[u32], cols: &[u32], k: usize) -> u32
    requires some { 0 < length rows.now }
    requires inside { Inside s rows.now cols.now }
    ensures { result ≡ slice_index_or cols.now (k / length rows.now) 0 * s.rows + slice_index_or rows.now (k % length rows.now) 0 }
{
    let row = rows.get(k % rows.len()).copied().unwrap_or(0);
    let col = cols.get(k / rows.len()).copied().unwrap_or(0);
    (col as usize * s.rows as usize + row as usize) as u32
}

/// The cells at places, and 0 behind the cells.
pub(crate) fn pick(alloc: Global, cells: &[i64], places: &[u32]) -> Result<Vec<i64>, NoMemory>
    ensures { IfOk result (λ v. v.items ≡ picked cells.now places.now) }
{
    let cells = places
        .iter()
        .map(|k| cells.get(*k as usize).copied().unwrap_or(0))
        .collect(alloc)?;
    Ok(cells)
}
