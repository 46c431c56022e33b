//! Texts of arrays, read back: `mat2str` and `num2str` of an array are put into a second script, which compares what they
//! make with the array.
//!
//! The least number is left out: its decimal is no literal of the language.

use crate::generator::Generator;
use crate::running::{piece, printed};
use crate::tally::Tally;
use crate::writing::{count, elements};
use pl_base::NoMemory;
use std::alloc::Global;
use std::sync::Wait;
use std::thread::Threads;

/// The characters of texts: letters, and those that mean something in quotes or outside of them.
const CHARACTERS: &[u8; 16] = b"abcXYZ019'\"%[;. ";

/// A row of numbers, each one that has a literal.
fn numbers(alloc: Global, generator: &mut Generator, cols: u64) -> Result<Vec<i64>, NoMemory> {
    let mut cells = Vec::new(alloc);
    for _ in 0..cols {
        cells.push(generator.number().max(-i64::MAX))?;
    }
    Ok(cells)
}

/// Each row of numbers ends with a semicolon but the last.
fn number_rows(
    alloc: Global,
    generator: &mut Generator,
    text: &mut Vec<u8>,
    rows: u64,
    cols: u64,
) -> Result<(), NoMemory> {
    for row in 0..rows {
        if row > 0 {
            text.extend_from_slice(b"; ")?;
        }
        let cells = numbers(alloc, generator, cols)?;
        elements(text, &cells)?;
    }
    Ok(())
}

/// A text of so many characters, as a script has it.
fn quoted(generator: &mut Generator, text: &mut Vec<u8>, cols: u64) -> Result<(), NoMemory> {
    text.push(b'\'')?;
    for _ in 0..cols {
        let place = generator.below(16) as usize;
        let character = CHARACTERS.get(place).copied().unwrap_or(b' ');
        if character == b'\'' {
            text.push(b'\'')?;
        }
        text.push(character)?;
    }
    text.push(b'\'')?;
    Ok(())
}

fn character_rows(
    generator: &mut Generator,
    text: &mut Vec<u8>,
    rows: u64,
    cols: u64,
) -> Result<(), NoMemory> {
    for row in 0..rows {
        if row > 0 {
            text.extend_from_slice(b"; ")?;
        }
        quoted(generator, text, cols)?;
    }
    Ok(())
}

fn number_array(alloc: Global, generator: &mut Generator) -> Result<Vec<u8>, NoMemory> {
    let rows = generator.below(3).saturating_add(1);
    let cols = generator.below(5).saturating_add(1);
    let mut text = Vec::from_slice(alloc, b"[")?;
    number_rows(alloc, generator, &mut text, rows, cols)?;
    text.push(b']')?;
    Ok(text)
}

/// An array without columns.
fn empty_array(alloc: Global, generator: &mut Generator) -> Result<Vec<u8>, NoMemory> {
    let mut text = Vec::from_slice(alloc, b"zeros(")?;
    count(&mut text, generator.below(3))?;
    text.extend_from_slice(b", 0)")?;
    Ok(text)
}

/// An array of truth values.
fn truth_array(alloc: Global, generator: &mut Generator) -> Result<Vec<u8>, NoMemory> {
    let rows = generator.below(3).saturating_add(1);
    let cols = generator.below(5).saturating_add(1);
    let mut text = Vec::from_slice(alloc, b"[")?;
    number_rows(alloc, generator, &mut text, rows, cols)?;
    text.extend_from_slice(b"] > 0")?;
    Ok(text)
}

fn character_array(alloc: Global, generator: &mut Generator) -> Result<Vec<u8>, NoMemory> {
    let rows = generator.below(3).saturating_add(1);
    let cols = generator.below(5).saturating_add(1);
    let mut text = Vec::from_slice(alloc, b"[")?;
    character_rows(generator, &mut text, rows, cols)?;
    text.push(b']')?;
    Ok(text)
}

/// The statement that makes an array, and the one that prints it as text. `num2str` is asked of numbers alone, and of
/// some: the text of an array without cells has no cells either.
fn writer(alloc: Global, generator: &mut Generator) -> Result<(Vec<u8>, &'static [u8]), NoMemory> {
    let (array, printing): (Vec<u8>, &'static [u8]) = match generator.below(12) {
        0 => (empty_array(alloc, generator)?, b"disp(mat2str(x))"),
        1 | 2 => (truth_array(alloc, generator)?, b"disp(mat2str(x))"),
        3 | 4 => (character_array(alloc, generator)?, b"disp(mat2str(x))"),
        5..=7 => (number_array(alloc, generator)?, b"disp(mat2str(x))"),
        _ => (number_array(alloc, generator)?, b"disp(num2str(x))"),
    };
    let mut text = Vec::from_slice(alloc, b"x = ")?;
    text.extend_from_slice(&array)?;
    text.extend_from_slice(b";\n")?;
    Ok((text, printing))
}

/// The array again, and what its text makes: the same cells, and of the same class.
fn reader(alloc: Global, making: &[u8], printed: &[u8]) -> Result<Vec<u8>, NoMemory> {
    let mut text = Vec::from_slice(alloc, making)?;
    text.extend_from_slice(b"y = [")?;
    text.extend_from_slice(printed)?;
    text.extend_from_slice(b"];\ndisp(isequal(x, y)), disp(strcmp(class(x), class(y)))")?;
    Ok(text)
}

/// A reader for each array that was printed.
fn readers(
    alloc: Global,
    makings: &[Vec<u8>],
    texts: &[Vec<u8>],
) -> Result<Vec<Vec<u8>>, NoMemory> {
    let mut readers = Vec::new(alloc);
    for (place, making) in makings.iter().enumerate() {
        let text = piece(texts, place);
        readers.push(reader(alloc, making, text)?)?;
    }
    Ok(readers)
}

pub fn run<R: Threads + Wait + Sync>(
    rt: &R,
    alloc: Global,
    generator: &mut Generator,
    count: u32,
    tally: &mut Tally,
) -> Result<(), NoMemory> {
    let mut makings = Vec::new(alloc);
    let mut writers = Vec::new(alloc);
    let mut wanted = Vec::new(alloc);
    for _ in 0..count {
        let (making, printing) = writer(alloc, generator)?;
        let mut statements = making.clone()?;
        statements.extend_from_slice(printing)?;
        makings.push(making)?;
        writers.push(statements)?;
        wanted.push(Vec::from_slice(alloc, b"1\n1\n")?)?;
    }
    let texts = printed(rt, alloc, &writers)?;
    let inputs = readers(alloc, &makings, &texts)?;
    let got = printed(rt, alloc, &inputs)?;
    tally.compare(alloc, &inputs, &wanted, &got)
}
