//! The least and the greatest cell of each line, and their first places.
//!
//! Promised: the cell than which no other of its line is better, and the first place that has it. The array is only
//! read, in one pass.

ghost use Rattle.std.specs.Prelude.{◌≡◌, ◌<◌, ◌≤◌, pos, map, length, slice_index_or, IfOk};
ghost use Rattle.std.specs.List.{range_with_len};
ghost use Rattle.pl_array.specs.Cellwise.{shape_of};
ghost use Rattle.pl_lines.specs.Lines.{default_dim, extent, line_count, line, lines, one_a_line};
ghost use Rattle.pl_builtin.specs.Along.{is_better, first_best, best, best_place, cell_of, each_line, extreme_of, place_of, both_of};

use pl_array::{Arr, Class};
use pl_base::{ErrKind, NoMemory, Or};
use pl_lines::{LineRule, default_dim, line_cells, map_lines};
use std::alloc::Global;

/// Which cell of a line is wanted.
#[derive(Clone, Copy, Debug, PartialEq, Eq)]
pub(crate) enum Extreme {
    Least,
    Greatest,
}

#[derive(Clone, Copy)]
struct Best {
    which: Extreme,
}

impl LineRule for Best {
    ghost value = { λ rule. best rule.which };

    fn value(&self, line: &[i64]) -> i64 {
        line.get(first_best(self.which, line)).copied().unwrap_or(0)
    }
}

#[derive(Clone, Copy)]
struct BestPlace {
    which: Extreme,
}

impl LineRule for BestPlace {
    ghost value = { λ rule. best_place rule.which };

    fn value(&self, line: &[i64]) -> i64 {
        first_best(self.which, line) as i64 + 1
    }
}

/// The first place of the cell that is wanted, and 0 in a line without cells.
fn first_best(which: Extreme, cells: &[i64]) -> usize
    ensures place { result ≡ first_best which cells.now }
    ensures within { result ≤ length cells.now }
{
    let mut at = 0;
    for k in 0..cells.len() {
        if is_better(which, cells, k, at) {
            at = k;
        }
    }
    at
}

/// Whether the cell at one place is wanted rather than that at another.
fn is_better(which: Extreme, cells: &[i64], k: usize, at: usize) -> bool
    requires place { k < length cells.now }
    requires other { at < length cells.now }
    ensures { result ≡ is_better which (slice_index_or cells.now k (pos 0)) (slice_index_or cells.now at (pos 0)) }
{
    match which {
        Extreme::Least => cells[k] < cells[at],
        Extreme::Greatest => cells[k] > cells[at],
    }
}

/// The cell that is wanted of each line.
pub(crate) fn extreme_cells(alloc: Global, which: Extreme, a: &Arr) -> Result<Arr, Or<ErrKind>>
    ensures ok { IfOk result (λ o. extreme_of which a.now ≡ Ok o) }
    ensures err { (kind : ErrKind) → result ≡ Err (Or.Is kind) → extreme_of which a.now ≡ Err kind }
{
    each_line(alloc, &Best { which }, a)
}

/// Its first place in each line, from 1.
fn extreme_places(alloc: Global, which: Extreme, a: &Arr) -> Result<Arr, Or<ErrKind>>
    ensures ok { IfOk result (λ o. place_of which a.now ≡ Ok o) }
    ensures err { (kind : ErrKind) → result ≡ Err (Or.Is kind) → place_of which a.now ≡ Err kind }
{
    each_line(alloc, &BestPlace { which }, a)
}

/// Both, the cells first.
pub(crate) fn both_extremes(alloc: Global, which: Extreme, a: &Arr) -> Result<Vec<Arr>, Or<ErrKind>>
    ensures ok { IfOk result (λ v. both_of which a.now ≡ Ok v.items) }
    ensures err { (kind : ErrKind) → result ≡ Err (Or.Is kind) → both_of which a.now ≡ Err kind }
{
    let places = extreme_places(alloc, which, a)?;
    let cells = cells_at(alloc, which, a, &places)?;
    let mut answers = Vec::with_capacity(alloc, 2)?;
    answers.push(cells)?;
    answers.push(places)?;
    Ok(answers)
}

/// The cells that are wanted, where their places were found.
fn cells_at(alloc: Global, which: Extreme, a: &Arr, places: &Arr) -> Result<Arr, NoMemory>
    requires { place_of which a.now ≡ Ok places.now }
    ensures { IfOk result (λ o. extreme_of which a.now ≡ Ok o) }
{
    let cells = read_each(alloc, a, places.cells())?;
    Ok(Arr::new(Class::Int, places.shape(), cells))
}

/// The cell of each line at its place.
fn read_each(alloc: Global, a: &Arr, places: &[i64]) -> Result<Vec<i64>, NoMemory>
    ensures { IfOk result (λ v. v.items ≡ map (λ i. cell_of (line (default_dim (shape_of a.now)) a.now i) (slice_index_or places.now i (pos 0))) (range_with_len 0 (line_count (default_dim (shape_of a.now)) (shape_of a.now)))) }
{
    let s = a.shape();
    let count = default_dim(s).line_count(s);
    let mut cells = Vec::with_capacity(alloc, count as usize)?;
    for i in 0..count {
        cells.push(read_at(line_cells(a, i), places, i))?;
    }
    Ok(cells)
}

/// The cell of a line at its place, which counts from 1.
fn read_at(line: &[i64], places: &[i64], i: u32) -> i64
    ensures { result ≡ cell_of line.now (slice_index_or places.now i (pos 0)) }
{
    let place = places.get(i as usize).copied().unwrap_or(0);
    let at = place.unsigned_abs().saturating_sub(1);
    line.get(at as usize).copied().unwrap_or(0)
}

fn each_line<R: LineRule>(alloc: Global, rule: &R, a: &Arr) -> Result<Arr, Or<ErrKind>>
    ensures ok { IfOk result (λ o. each_line (R.value rule.now) a.now ≡ Ok o) }
    ensures err { (kind : ErrKind) → result ≡ Err (Or.Is kind) → each_line (R.value rule.now) a.now ≡ Err kind }
{
    let s = a.shape();
    if s.rows == 0 && s.cols == 0 {
        return Ok(Arr::new(Class::Int, s, Vec::new(alloc)));
    }
    if default_dim(s).extent(s) == 0 {
        return Err(Or::Is(ErrKind::ArgRange));
    }
    Ok(values(alloc, rule, a)?)
}

fn values<R: LineRule>(alloc: Global, rule: &R, a: &Arr) -> Result<Arr, NoMemory>
    requires { 0 < extent (default_dim (shape_of a.now)) (shape_of a.now) }
    ensures { IfOk result (λ o. o ≡ one_a_line Class.Int (default_dim (shape_of a.now)) (shape_of a.now) (map (R.value rule.now) (lines (default_dim (shape_of a.now)) a.now))) }
{
    let s = a.shape();
    let cells = map_lines(alloc, rule, a)?;
    Ok(Arr::new(Class::Int, default_dim(s).with_extent(s, 1), cells))
}
