//! An array of numbers as the lines of its display.

ghost use Rattle.std.specs.Prelude.{◌≡◌, ◌<◌, ◌≤◌, pos, map, All, length, IfOk, Ok, Err};
ghost use Rattle.std.specs.List.{range_with_len};
ghost use Rattle.pl_array.specs.Arrays.{IsCell, most};
ghost use Rattle.pl_text.specs.Numerals.{lines, character_at, stacked as stacked_of, first_width as width_in, num2str_of};

use crate::cells::width_of;
use crate::displayed::{is_characters, push_numbers};
use pl_array::{Arr, Class, Shape};
use pl_base::{ErrKind, NoMemory, Or};
use std::alloc::Global;

/// The most cells, rows and columns of an array.
const MOST: u64 = 1_000_000;

/// The lines of the display.
#[tactic(auto, using(crate::proofs::Lines::line_more))]
fn lines_of(alloc: Global, a: &Arr) -> Result<Vec<Vec<u8>>, NoMemory>
    ensures { IfOk result (λ texts. map (λ v. v.items) texts.items ≡ lines a.now) }
{
    let width = width_of(a.cells());
    let mut texts = Vec::new(alloc);
    for row in 0..a.shape().rows {
        let mut text = Vec::new(alloc);
        push_numbers(&mut text, a, row, width)?;
        texts.push(text)?;
    }
    Ok(texts)
}

/// The byte at a place of the lines.
fn byte_at(texts: &[Vec<u8>], rows: u64, place: u64) -> u8
    requires { 0 < rows }
    ensures { character_at (map (λ v. v.items) texts.now) rows place ≡ pos result }
{
    match texts.get((place % rows) as usize) {
        Some(text) => text.get((place / rows) as usize).copied().unwrap_or(0),
        None => 0,
    }
}

/// The characters of lines one below the other, by columns.
#[tactic(auto, using(crate::proofs::Lines::cell_more, crate::proofs::Bytes::cells_more))]
fn cells_of(alloc: Global, texts: &[Vec<u8>], rows: u64, count: u64) -> Result<Vec<i64>, NoMemory>
    requires { 0 < rows }
    ensures cells { IfOk result (λ cells. cells.items ≡ map (character_at (map (λ v. v.items) texts.now) rows) (range_with_len 0 count)) }
    ensures of_class { IfOk result (λ cells. All (IsCell Class.Char) cells.items) }
{
    let mut cells = Vec::new(alloc);
    for place in 0..count {
        let byte = byte_at(texts, rows, place);
        cells.push(i64::from(byte))?;
    }
    Ok(cells)
}

/// The characters of lines, where there may be no line.
#[tactic(auto, using(crate::proofs::Lines::as_many))]
fn all_cells(alloc: Global, texts: &[Vec<u8>], rows: u64, count: u64) -> Result<Vec<i64>, NoMemory>
    requires { rows ≡ 0 → count ≡ 0 }
    ensures cells { IfOk result (λ cells. cells.items ≡ map (character_at (map (λ v. v.items) texts.now) rows) (range_with_len 0 count)) }
    ensures of_class { IfOk result (λ cells. All (IsCell Class.Char) cells.items) }
    ensures count { IfOk result (λ cells. length cells.items ≡ count) }
{
    if rows == 0 {
        return Ok(Vec::new(alloc));
    }
    let cells = cells_of(alloc, texts, rows, count)?;
    Ok(cells)
}

/// Lines one below the other as an array of characters, as wide as the first.
fn stacked(alloc: Global, texts: &[Vec<u8>], rows: u32) -> Result<Arr, Or<ErrKind>>
    requires { rows ≤ most }
    ensures ok { IfOk result (λ t. stacked_of (map (λ v. v.items) texts.now) rows (width_in (map (λ v. v.items) texts.now)) ≡ Ok t) }
    ensures err { (kind : ErrKind) → result ≡ Err (Or.Is kind) → stacked_of (map (λ v. v.items) texts.now) rows (width_in (map (λ v. v.items) texts.now)) ≡ Err kind }
{
    let cols = first_width(texts) as u64;
    let rows = u64::from(rows);
    if cols > MOST || rows * cols > MOST {
        return Err(Or::Is(ErrKind::SizeLimit));
    }
    let cells = all_cells(alloc, texts, rows, rows * cols)?;
    let shape = Shape {
        rows: rows as u32,
        cols: cols as u32,
    };
    Ok(Arr::new(Class::Char, shape, cells))
}

/// The width of the first line, 0 where there is none.
fn first_width(texts: &[Vec<u8>]) -> usize
    ensures { result ≡ width_in (map (λ v. v.items) texts.now) }
{
    match texts.first() {
        Some(text) => text.len(),
        None => 0,
    }
}

/// The lines of an array's display as characters; of an array of characters, itself. Lines of over 1,000,000
/// characters in all are refused as SizeLimit.
pub fn num2str(alloc: Global, a: &Arr) -> Result<Arr, Or<ErrKind>>
    ensures ok { IfOk result (λ t. num2str_of a.now ≡ Ok t) }
    ensures err { (kind : ErrKind) → result ≡ Err (Or.Is kind) → num2str_of a.now ≡ Err kind }
{
    if is_characters(a) {
        return Ok(a.copy(alloc)?);
    }
    let texts = lines_of(alloc, a)?;
    stacked(alloc, texts.as_slice(), a.shape().rows)
}
