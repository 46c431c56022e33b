//! Square brackets.
//!
//! Promised: all elements are tested from the left first, then each row is joined across, and then the rows
//! down, each from the left. One row of futures alone is the row of all of them.

ghost use Rattle.std.specs.Prelude.{◌≡◌, map, [], ◌∷◌, not, IfOk};
ghost use Rattle.std.specs.List.{flat_map, list_any};
ghost use Rattle.pl_array.specs.Joining.{concat_h_of, concat_v_of};
ghost use Rattle.pl_operators.specs.Operands.{arrays_in};
ghost use Rattle.pl_operators.specs.Bracketing.{grid_in, joined_to, joined_all, lines_of as lines_in, stacked as stacked_of, matrix_of, is_futures as is_futures_row, calls_in, rows_of};

use crate::literals::nothing;
use crate::operands::operand;
use pl_array::{Arr, Class, concat_h, concat_v};
use pl_base::{ErrKind, NoMemory, Or, Seq};
use pl_values::Value;
use sqlite_items::Items;
use std::alloc::Global;

/// What square brackets make of their rows.
pub fn rows(alloc: Global, rows: &[Items<Value>]) -> Result<Value, Or<ErrKind>>
    ensures ok { IfOk result (λ o. rows_of rows.now ≡ Ok o) }
    ensures err { (kind : ErrKind) → result ≡ Err (Or.Is kind) → rows_of rows.now ≡ Err kind }
{
    match rows {
        [] => Ok(Value::Array(nothing(alloc, Class::Int))),
        [row] => one_row(alloc, rows, row.as_slice()),
        [_, _, ..] => matrix(alloc, rows),
    }
}

/// The only row, which `rows` lists.
fn one_row(alloc: Global, rows: &[Items<Value>], row: &[Value]) -> Result<Value, Or<ErrKind>>
    requires { rows.now ≡ row.now ∷ [] }
    ensures ok { IfOk result (λ o. rows_of (row.now ∷ []) ≡ Ok o) }
    ensures err { (kind : ErrKind) → result ≡ Err (Or.Is kind) → rows_of (row.now ∷ []) ≡ Err kind }
{
    if row.len() != 0 && !has_other(row) {
        let calls = calls_of(alloc, row)?;
        return Ok(Value::Futures(calls));
    }
    matrix(alloc, rows)
}

/// Whether a value is no row of futures.
fn has_other(row: &[Value]) -> bool
    ensures { result ≡ list_any (λ v. not (is_futures_row v)) row.now }
{
    row.iter().any(|v| !is_futures(v))
}

fn is_futures(v: &Value) -> bool
    ensures { result ≡ is_futures_row v.now }
{
    match v {
        Value::Futures(_) => true,
        _ => false,
    }
}

/// The numbers of all futures.
fn calls_of(alloc: Global, row: &[Value]) -> Result<Seq<u32>, NoMemory>
    ensures { IfOk result (λ s. s ≡ flat_map calls_in row.now) }
{
    let mut calls = Vec::new(alloc);
    for v in row {
        calls.extend_from_slice(calls_held(v))?;
    }
    Ok(Seq::of(calls))
}

fn calls_held(v: &Value) -> &[u32]
    ensures { result.now ≡ calls_in v.now }
{
    match v {
        Value::Futures(calls) => calls.items(),
        _ => &[],
    }
}

/// The array that rows of arrays make.
fn matrix(alloc: Global, rows: &[Items<Value>]) -> Result<Value, Or<ErrKind>>
    ensures ok { IfOk result (λ o. matrix_of rows.now ≡ Ok o) }
    ensures err { (kind : ErrKind) → result ≡ Err (Or.Is kind) → matrix_of rows.now ≡ Err kind }
{
    let grid = grid_of(alloc, rows)?;
    stacked_value(alloc, rows, grid.as_slice())
}

/// The array of a grid, which is the arrays of these rows.
#[tactic(auto, using(crate::proofs::Fronts::matrix_made, crate::proofs::Fronts::matrix_refused))]
fn stacked_value(
    alloc: Global,
    rows: &[Items<Value>],
    grid: &[Vec<&Arr>],
) -> Result<Value, Or<ErrKind>>
    requires { grid_in rows.now ≡ Ok (map (λ row. map (λ a. a.now) row.items) grid.now) }
    ensures ok { IfOk result (λ o. matrix_of rows.now ≡ Ok o) }
    ensures err { (kind : ErrKind) → result ≡ Err (Or.Is kind) → matrix_of rows.now ≡ Err kind }
{
    match stacked(alloc, grid) {
        Ok(o) => Ok(Value::Array(o)),
        Err(Or::Is(kind)) => Err(Or::Is(kind)),
        Err(Or::Memory) => Err(Or::Memory),
    }
}

/// The arrays of all rows.
fn grid_of<'v>(
    alloc: Global,
    mut rows: &'v [Items<Value>],
) -> Result<Vec<Vec<&'v Arr>>, Or<ErrKind>>
    ensures ok { IfOk result (λ g. grid_in rows.entry.now ≡ Ok (map (λ row. map (λ a. a.now) row.items) g.items)) }
    ensures err { (kind : ErrKind) → result ≡ Err (Or.Is kind) → grid_in rows.entry.now ≡ Err kind }
{
    let mut grid = Vec::new(alloc);
    while let [row, more @ ..] = rows {
        let arrays = arrays_of(alloc, row.as_slice())?;
        grid.push(arrays)?;
        rows = more;
    }
    Ok(grid)
}

/// The arrays of a row.
fn arrays_of<'v>(alloc: Global, mut row: &'v [Value]) -> Result<Vec<&'v Arr>, Or<ErrKind>>
    ensures ok { IfOk result (λ v. arrays_in row.entry.now ≡ Ok (map (λ a. a.now) v.items)) }
    ensures err { (kind : ErrKind) → result ≡ Err (Or.Is kind) → arrays_in row.entry.now ≡ Err kind }
{
    let mut arrays = Vec::new(alloc);
    while let [v, more @ ..] = row {
        let a = operand(v)?;
        arrays.push(a)?;
        row = more;
    }
    Ok(arrays)
}

/// The rows across, and then down.
fn stacked(alloc: Global, grid: &[Vec<&Arr>]) -> Result<Arr, Or<ErrKind>>
    ensures ok { IfOk result (λ o. stacked_of (map (λ row. map (λ a. a.now) row.items) grid.now) ≡ Ok o) }
    ensures err { (kind : ErrKind) → result ≡ Err (Or.Is kind) → stacked_of (map (λ row. map (λ a. a.now) row.items) grid.now) ≡ Err kind }
{
    if let [row] = grid {
        return across(alloc, row.as_slice());
    }
    let lines = lines_of(alloc, grid)?;
    down(alloc, lines.as_slice())
}

/// Each row across.
fn lines_of(alloc: Global, mut grid: &[Vec<&Arr>]) -> Result<Vec<Arr>, Or<ErrKind>>
    ensures ok { IfOk result (λ v. lines_in (map (λ row. map (λ a. a.now) row.items) grid.entry.now) ≡ Ok v.items) }
    ensures err { (kind : ErrKind) → result ≡ Err (Or.Is kind) → lines_in (map (λ row. map (λ a. a.now) row.items) grid.entry.now) ≡ Err kind }
{
    let mut lines = Vec::new(alloc);
    while let [row, more @ ..] = grid {
        let line = across(alloc, row.as_slice())?;
        lines.push(line)?;
        grid = more;
    }
    Ok(lines)
}

/// Arrays side by side.
fn across(alloc: Global, row: &[&Arr]) -> Result<Arr, Or<ErrKind>>
    ensures ok { IfOk result (λ o. joined_all concat_h_of (map (λ a. a.now) row.now) ≡ Ok o) }
    ensures err { (kind : ErrKind) → result ≡ Err (Or.Is kind) → joined_all concat_h_of (map (λ a. a.now) row.now) ≡ Err kind }
{
    match row {
        [] => Ok(nothing(alloc, Class::Int)),
        [first, more @ ..] => across_from(alloc, first.copy(alloc)?, more),
    }
}

fn across_from(alloc: Global, mut joint: Arr, mut row: &[&Arr]) -> Result<Arr, Or<ErrKind>>
    ensures ok { IfOk result (λ o. joined_to concat_h_of joint (map (λ a. a.now) row.entry.now) ≡ Ok o) }
    ensures err { (kind : ErrKind) → result ≡ Err (Or.Is kind) → joined_to concat_h_of joint (map (λ a. a.now) row.entry.now) ≡ Err kind }
{
    while let [a, more @ ..] = row {
        joint = concat_h(alloc, &joint, a)?;
        row = more;
    }
    Ok(joint)
}

/// Arrays one below the other.
fn down(alloc: Global, lines: &[Arr]) -> Result<Arr, Or<ErrKind>>
    ensures ok { IfOk result (λ o. joined_all concat_v_of lines.now ≡ Ok o) }
    ensures err { (kind : ErrKind) → result ≡ Err (Or.Is kind) → joined_all concat_v_of lines.now ≡ Err kind }
{
    match lines {
        [] => Ok(nothing(alloc, Class::Int)),
        [first, more @ ..] => down_from(alloc, first.copy(alloc)?, more),
    }
}

fn down_from(alloc: Global, mut joint: Arr, mut lines: &[Arr]) -> Result<Arr, Or<ErrKind>>
    ensures ok { IfOk result (λ o. joined_to concat_v_of joint lines.entry.now ≡ Ok o) }
    ensures err { (kind : ErrKind) → result ≡ Err (Or.Is kind) → joined_to concat_v_of joint lines.entry.now ≡ Err kind }
{
    while let [a, more @ ..] = lines {
        joint = concat_v(alloc, &joint, a)?;
        lines = more;
    }
    Ok(joint)
}
