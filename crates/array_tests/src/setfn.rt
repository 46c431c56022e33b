//! Each function with each form of its arguments and each of its refusals, a call on each line. The answers were worked
//! out by hand from the rules.
//!
//! A line has the mode (`s` is strict), the count of outputs, the name, the arguments and the outputs. An array is its
//! class, rows, columns and cells by columns.

use crate::written::class_of;
use pl_array::{Arr, Class, Shape, convert};
use pl_base::{ErrKind, Mode, Or};
use pl_setfn::{SetFn, call_set_in};
use std::alloc::Global;
use std::fmt::Write;
use std::test::Fail;

static CALLS: &str = "s|1|find|i 1 3 0 1 1|i 1 2 2 3
p|0|find|l 3 1 1 0 1|i 2 1 1 3
p|1|find|i 2 2 0 5 -7 0|i 2 1 2 3
p|1|find|i 0 0|i 0 1
p|1|find|i 1 0|i 1 0
p|1|find|i 1 1 0|i 1 0
p|1|find||ArgCount
p|1|find|i 0 0&i 0 0|ArgCount
p|2|find|i 0 0|ArgCount
p|1|reshape|i 1 4 1 2 3 4&i 1 1 2&i 1 1 2|i 2 2 1 2 3 4
p|1|reshape|i 1 3 1 2 3&i 1 1 2&i 1 1 2|SizeMismatch
p|1|reshape|c 1 2 97 98&i 1 1 2&l 1 1 1|c 2 1 97 98
p|1|reshape|i 0 0&i 1 1 0&i 1 1 3|i 0 3
p|1|reshape|i 0 0&i 1 1 -1&i 1 1 0|ArgRange
p|1|reshape|i 0 0&i 1 1 -1&i 0 0|NotScalar
p|1|reshape|i 0 0&i 1 2 1 1&i 1 1 -1|NotScalar
p|1|reshape|i 0 0&i 1 1 0&i 1 1 1000001|SizeLimit
p|1|reshape|i 0 0&i 1 1 9223372036854775807&i 1 1 4|SizeMismatch
p|1|reshape|i 0 0&i 1 1 0|ArgCount
p|1|repmat|i 1 2 1 2&i 1 1 2&i 1 1 2|i 2 4 1 1 2 2 1 1 2 2
p|1|repmat|l 2 1 1 0&i 1 1 2&i 1 1 1|l 4 1 1 0 1 0
p|1|repmat|i 1 2 1 2&i 1 1 -3&i 1 1 2|i 0 4
p|1|repmat|i 0 0&i 1 1 9223372036854775807&i 1 1 2|i 0 0
p|1|repmat|i 1 1 7&i 1 1 1001&i 1 1 1000|SizeLimit
p|1|repmat|i 1 0&i 1 1 1000001&i 1 1 1|SizeLimit
p|1|repmat|i 1 1 7&i 1 2 1 1&i 1 1 1|NotScalar
p|1|repmat|i 1 1 7&i 1 1 1&i 0 0|NotScalar
p|1|repmat|i 1 1 7|ArgCount
p|1|sort|i 1 4 3 1 2 1|i 1 4 1 1 2 3
p|2|sort|i 1 4 3 1 2 1|i 1 4 1 1 2 3&i 1 4 2 4 3 1
p|2|sort|i 1 4 3 1 2 1&c 1 7 100 101 115 99 101 110 100|i 1 4 3 2 1 1&i 1 4 1 3 2 4
p|1|sort|i 1 2 -9223372036854775808 9223372036854775807&c 1 7 100 101 115 99 101 110 100|i 1 2 9223372036854775807 -9223372036854775808
p|2|sort|i 2 2 2 1 3 4|i 2 2 1 2 3 4&i 2 2 2 1 1 2
p|1|sort|c 1 3 99 97 98|c 1 3 97 98 99
p|2|sort|i 0 0|i 0 0&i 0 0
p|1|sort|i 1 1 5&c 1 6 97 115 99 101 110 100|ArgClass
p|1|sort|i 1 1 5&c 7 1 100 101 115 99 101 110 100|ArgClass
p|2|sort|i 1 1 5&i 1 7 100 101 115 99 101 110 100|ArgClass
p|3|sort|i 0 0|ArgCount
p|1|sort||ArgCount
p|2|sort|i 0 0&i 0 0&i 0 0|ArgCount
p|1|unique|i 1 4 3 1 3 2|i 1 3 1 2 3
p|1|unique|i 2 2 2 1 2 1|i 2 1 1 2
p|1|unique|c 1 3 98 97 98|c 1 2 97 98
p|1|unique|i 0 0|i 0 1
p|1|unique|i 1 0|i 1 0
p|1|unique||ArgCount
p|1|any|i 2 2 0 0 0 3|l 1 2 0 1
p|1|any|i 2 2 0 0 0 3&i 1 1 2|l 2 1 0 1
p|1|any|i 1 3 0 0 1|l 1 1 1
p|1|any|i 1 3 0 0 1&i 1 1 1|l 1 3 0 0 1
p|1|any|i 0 0|l 1 0
p|1|any|i 1 0|l 1 1 0
p|1|any|i 0 1&i 1 1 3|ArgRange
p|1|any|i 0 1&i 1 2 1 2|NotScalar
p|1|any||ArgCount
p|1|all|i 2 2 1 0 2 3|l 1 2 0 1
p|1|all|i 2 2 1 0 2 3&i 1 1 2|l 2 1 1 0
p|1|all|i 1 0|l 1 1 1
p|1|all|i 0 3&i 1 1 0|ArgRange
p|2|all|i 0 0|ArgCount
p|1|cumsum|i 1 3 1 2 3|i 1 3 1 3 6
p|1|cumsum|i 2 2 1 2 3 4|i 2 2 1 3 3 7
p|1|cumsum|i 2 2 1 2 3 4&i 1 1 2|i 2 2 1 2 4 6
p|1|cumsum|l 1 2 1 1&l 1 1 1|i 1 2 1 1
p|1|cumsum|i 0 0|i 0 0
p|1|cumsum|i 1 3 9223372036854775807 1 -1|i 1 3 9223372036854775807 9223372036854775807 9223372036854775806
s|1|cumsum|i 1 3 9223372036854775807 1 -1|Overflow
s|1|cumsum|i 1 3 9223372036854775807 1 -1&i 1 1 1|i 1 3 9223372036854775807 1 -1
s|1|cumsum|i 1 2 9223372036854775807 1&i 1 1 3|ArgRange
p|1|cumsum|i 1 2 1 2&i 0 0|NotScalar
p|1|cumsum|i 0 0&i 0 0&i 0 0|ArgCount
p|1|fliplr|i 2 2 1 2 3 4|i 2 2 3 4 1 2
p|1|fliplr|c 0 3|c 0 3
p|1|fliplr||ArgCount
p|1|flipud|i 2 2 1 2 3 4|i 2 2 2 1 4 3
p|1|flipud|i 3 0|i 3 0
p|1|flipud||ArgCount
p|1|nnz|i 2 2 0 5 0 -1|i 1 1 2
p|1|nnz|i 0 0|i 1 1 0
p|1|nnz||ArgCount";

fn letter_of(class: Class) -> &'static str {
    match class {
        Class::Char => "c",
        Class::Logical => "l",
        Class::Int => "i",
    }
}

fn array(alloc: Global, text: &str) -> Result<Arr, Fail> {
    let mut words = text.split(' ');
    let class = class_of(words.next().ok_or("class")?);
    let rows = words.next().ok_or("rows")?.parse::<u8>()?;
    let cols = words.next().ok_or("columns")?.parse::<u8>()?;
    let mut cells = Vec::new(alloc);
    for word in words {
        cells.push(word.parse::<i64>()?)?;
    }
    if cells.len() != rows as usize * cols as usize {
        return Err("cells".into());
    }
    let shape = Shape {
        rows: rows as u32,
        cols: cols as u32,
    };
    match convert(alloc, &Arr::new(Class::Int, shape, cells), class) {
        Ok(a) => Ok(a),
        Err(_) => Err("class".into()),
    }
}

fn arrays(alloc: Global, text: &str) -> Result<Vec<Arr>, Fail> {
    let mut args = Vec::new(alloc);
    if text != "" {
        for word in text.split('&') {
            args.push(array(alloc, word)?)?;
        }
    }
    Ok(args)
}

fn shown(alloc: Global, a: &Arr) -> Result<String, Fail> {
    let s = a.shape();
    let rows = s.rows;
    let cols = s.cols;
    let letter = letter_of(a.class());
    let mut text = format!(in alloc; "{letter} {rows} {cols}")?;
    for cell in a.cells() {
        write!(text, " {cell}")?;
    }
    Ok(text)
}

fn all_shown(alloc: Global, outputs: &[Arr]) -> Result<String, Fail> {
    let mut text = String::new(alloc);
    for a in outputs {
        if text.len() > 0 {
            text.push_str("&")?;
        }
        text.push_str(shown(alloc, a)?.as_str())?;
    }
    Ok(text)
}

fn outcome(alloc: Global, answer: Result<Vec<Arr>, Or<ErrKind>>) -> Result<String, Fail> {
    match answer {
        Ok(outputs) => all_shown(alloc, outputs.as_slice()),
        Err(Or::Is(kind)) => Ok(format!(in alloc; "{kind:?}")?),
        Err(Or::Memory) => Err("memory".into()),
    }
}

#[test]
fn calls(rt: HostRuntime) -> Result<(), Fail> {
    let alloc = rt.alloc();
    for line in CALLS.lines() {
        let mut fields = line.split('|');
        let mode = if fields.next() == Some("s") {
            Mode::Strict
        } else {
            Mode::Saturate
        };
        let nout = fields.next().ok_or("count")?.parse::<u32>()?;
        let name = fields.next().ok_or("name")?;
        let f = SetFn::of(name.as_bytes()).ok_or("function")?;
        let args = arrays(alloc, fields.next().ok_or("arguments")?)?;
        let wanted = fields.next().ok_or("outputs")?;
        let answer = call_set_in(alloc, mode, f, args.as_slice(), nout);
        assert_eq!(rt; outcome(alloc, answer)?.as_str(), wanted);
        assert_eq!(rt; f.name(), name);
    }
    assert!(rt; SetFn::of(b"sorted").is_none());
    Ok(())
}
