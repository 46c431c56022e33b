//! An array as the text that makes it again.

ghost use Rattle.std.specs.Prelude.{◌≡◌, ◌++◌, ◌<◌, pos, map, codes, OnOk, IfOk};
ghost use Rattle.pl_text.specs.Cells.{gap};
ghost use Rattle.pl_text.specs.Literal.{word_of, inside_quotes, insides, quoted_row, zeros_text, literal_rows, number_row, literal_row, is_alone as stands_alone, literal, char_row as char_row_of, mat2str_of};

use crate::cells::{byte_of, push_gap};
use crate::displayed::is_characters;
use itoa::Buffer;
use pl_array::{Arr, Class, Shape};
use pl_base::{ErrKind, NoMemory, Or};
use std::alloc::Global;

/// The most cells of an array.
const MOST_CELLS: usize = 1_000_000;

/// Adds a cell: a logical one as a word, any other as its decimal.
fn push_word(text: &mut Vec<u8>, class: Class, cell: i64) -> Result<(), NoMemory>
    ensures { OnOk result (text.new.items ≡ text.old.items ++ word_of class cell) }
{
    match class {
        Class::Logical => {
            if cell == 0 {
                text.extend_from_slice(b"false")?;
            } else {
                text.extend_from_slice(b"true")?;
            }
        }
        Class::Int | Class::Char => {
            let mut buffer = Buffer::new();
            text.extend_from_slice(buffer.format(cell).as_bytes())?;
        }
    }
    Ok(())
}

/// Adds a cell of a row, and the blank before it.
fn push_spaced(text: &mut Vec<u8>, class: Class, at: u32, cell: i64) -> Result<(), NoMemory>
    ensures { OnOk result (text.new.items ≡ text.old.items ++ (gap (codes " ") at ++ word_of class cell)) }
{
    push_gap(text, b" ", at)?;
    push_word(text, class, cell)
}

/// Adds a row of numbers.
fn push_number_row(text: &mut Vec<u8>, a: &Arr, row: u32) -> Result<(), NoMemory>
    requires { row < a.now.rows }
    ensures { OnOk result (text.new.items ≡ text.old.items ++ number_row a.now row) }
{
    for col in 0..a.shape().cols {
        push_spaced(text, a.class(), col, a.cell(row, col))?;
    }
    Ok(())
}

/// Adds a character of a quoted text.
fn push_inside(text: &mut Vec<u8>, byte: u8) -> Result<(), NoMemory>
    ensures { OnOk result (text.new.items ≡ text.old.items ++ inside_quotes byte) }
{
    if byte == b'\'' {
        text.push(byte)?;
    }
    text.push(byte)?;
    Ok(())
}

/// Adds a row of characters in quotes.
fn push_quoted_row(text: &mut Vec<u8>, a: &Arr, row: u32) -> Result<(), NoMemory>
    requires { row < a.now.rows }
    ensures { OnOk result (text.new.items ≡ text.old.items ++ quoted_row a.now row) }
{
    text.push(b'\'')?;
    push_insides(text, a, row)?;
    text.push(b'\'')?;
    Ok(())
}

/// Adds the characters of a row, quotes doubled.
#[tactic(auto, using(crate::proofs::Each::each_more))]
fn push_insides(text: &mut Vec<u8>, a: &Arr, row: u32) -> Result<(), NoMemory>
    requires { row < a.now.rows }
    ensures { OnOk result (text.new.items ≡ text.old.items ++ insides a.now row) }
{
    for col in 0..a.shape().cols {
        push_inside(text, byte_of(a.cell(row, col)))?;
    }
    Ok(())
}

/// Adds a row.
fn push_literal_row(text: &mut Vec<u8>, a: &Arr, row: u32) -> Result<(), NoMemory>
    requires { row < a.now.rows }
    ensures { OnOk result (text.new.items ≡ text.old.items ++ literal_row a.now row) }
{
    if is_characters(a) {
        push_quoted_row(text, a, row)
    } else {
        push_number_row(text, a, row)
    }
}

/// Adds a row, and the sign before it.
fn push_next_row(text: &mut Vec<u8>, a: &Arr, row: u32) -> Result<(), NoMemory>
    requires { row < a.now.rows }
    ensures { OnOk result (text.new.items ≡ text.old.items ++ (gap (codes ";") row ++ literal_row a.now row)) }
{
    push_gap(text, b";", row)?;
    push_literal_row(text, a, row)
}

/// Adds all rows.
#[tactic(auto, using(crate::proofs::Each::each_more))]
fn push_rows(text: &mut Vec<u8>, a: &Arr) -> Result<(), NoMemory>
    ensures { OnOk result (text.new.items ≡ text.old.items ++ literal_rows a.now) }
{
    for row in 0..a.shape().rows {
        push_next_row(text, a, row)?;
    }
    Ok(())
}

/// Whether an array is one value of its sort, which needs no brackets.
fn is_alone(a: &Arr) -> bool
    ensures { result ≡ stands_alone a.now }
{
    a.shape().rows == 1 && (is_characters(a) || a.shape().cols == 1)
}

/// Adds the text of an array without cells.
fn push_zeros(text: &mut Vec<u8>, a: &Arr) -> Result<(), NoMemory>
    ensures { OnOk result (text.new.items ≡ text.old.items ++ zeros_text a.now) }
{
    let mut buffer = Buffer::new();
    text.extend_from_slice(b"zeros(")?;
    text.extend_from_slice(buffer.format(a.shape().rows).as_bytes())?;
    text.extend_from_slice(b",")?;
    text.extend_from_slice(buffer.format(a.shape().cols).as_bytes())?;
    text.extend_from_slice(b")")?;
    Ok(())
}

fn literal_text(alloc: Global, a: &Arr) -> Result<Vec<u8>, NoMemory>
    ensures { IfOk result (λ text. text.items ≡ literal a.now) }
{
    let mut text = Vec::new(alloc);
    if a.cells().is_empty() {
        push_zeros(&mut text, a)?;
    } else if is_alone(a) {
        push_literal_row(&mut text, a, 0)?;
    } else {
        text.push(b'[')?;
        push_rows(&mut text, a)?;
        text.push(b']')?;
    }
    Ok(text)
}

/// The bytes as cells.
fn cells_of(alloc: Global, text: &[u8]) -> Result<Vec<i64>, NoMemory>
    ensures { IfOk result (λ cells. cells.items ≡ map (λ b. pos b) text.now) }
{
    let cells: Vec<i64> = text.iter().map(|byte| i64::from(*byte)).collect(alloc)?;
    Ok(cells)
}

/// A text as a row of characters, where it isn't too long.
fn char_row(alloc: Global, text: &[u8]) -> Result<Arr, Or<ErrKind>>
    ensures ok { IfOk result (λ a. char_row_of text.now ≡ Ok a) }
    ensures err { (kind : ErrKind) → result ≡ Err (Or.Is kind) → char_row_of text.now ≡ Err kind }
{
    if text.len() > MOST_CELLS {
        return Err(Or::Is(ErrKind::SizeLimit));
    }
    let cells = cells_of(alloc, text)?;
    let shape = Shape {
        rows: 1,
        cols: text.len() as u32,
    };
    Ok(Arr::new(Class::Char, shape, cells))
}

/// The text that makes the array again: `5`, `[1 2;3 4]`, `true`, `'it''s'`, `['ab';'cd']`, and `zeros(0,3)` for
/// an array without cells of any class. A text of over 1,000,000 bytes is refused as SizeLimit.
pub fn mat2str(alloc: Global, a: &Arr) -> Result<Arr, Or<ErrKind>>
    ensures ok { IfOk result (λ t. mat2str_of a.now ≡ Ok t) }
    ensures err { (kind : ErrKind) → result ≡ Err (Or.Is kind) → mat2str_of a.now ≡ Err kind }
{
    let text = literal_text(alloc, a)?;
    char_row(alloc, text.as_slice())
}
