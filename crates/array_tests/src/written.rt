//! Arrays as the tables write them.

use pl_array::{Arr, Class, Shape, concat_h, concat_v, convert};
use std::alloc::Global;
use std::test::Fail;

pub fn class_of(letter: &str) -> Class {
    match letter {
        "c" => Class::Char,
        "l" => Class::Logical,
        _ => Class::Int,
    }
}

/// An array without rows and columns.
pub fn nothing(alloc: Global, class: Class) -> Arr {
    Arr::new(class, Shape { rows: 0, cols: 0 }, Vec::new(alloc))
}

/// The array of rows of cells, converted to the class.
pub fn matrix(alloc: Global, class: Class, text: &str) -> Result<Arr, Fail> {
    let mut all = nothing(alloc, Class::Int);
    if !text.is_empty() {
        for line in text.split(';') {
            let cells = row(alloc, line)?;
            all = concat_v(alloc, &all, &cells)?;
        }
    }
    Ok(convert(alloc, &all, class)?)
}

/// A row of numbers.
pub fn row(alloc: Global, text: &str) -> Result<Arr, Fail> {
    let mut cells = nothing(alloc, Class::Int);
    for cell in text.split(' ') {
        cells = concat_h(alloc, &cells, &Arr::scalar(cell.parse::<i64>()?))?;
    }
    Ok(cells)
}

/// A row of characters.
pub fn characters(alloc: Global, text: &str) -> Result<Arr, Fail> {
    let mut cells = nothing(alloc, Class::Char);
    for byte in text.as_bytes() {
        cells = concat_h(alloc, &cells, &Arr::scalar(i64::from(*byte)))?;
    }
    Ok(cells)
}
