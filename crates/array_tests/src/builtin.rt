//! Each function in each form of its arguments and with each of its refusals, by one table.
//!
//! The answers were worked out from the rules by a model in another language, with exact numbers, apart from `pl_builtin`.

use crate::written::{characters, matrix};
use pl_array::{Arr, Class, Shape};
use pl_base::{ErrKind, Mode, Or};
use pl_builtin::{Builtin, call, call_in};
use std::alloc::Global;
use std::test::Fail;

/// The mode (`S` is the strict one), how many outputs are asked for, the function, its arguments, and the answers or the
/// refusal. An array is its class (`i`, `l`, `c` with a text, `n` for chars by their numbers) and its rows, or its extents
/// where it has no cells.
static CALLS: &str = "-|1|abs|i-3 0 7;-1 2 -9223372036854775808|i3 0 7;1 2 9223372036854775807
S|1|abs|i-3 0 7;-1 2 -9223372036854775808|!Overflow
-|1|abs|l1 0|i1 0
-|1|abs|cab|i97 98
-|1|abs|i0x3|i0x3
-|1|abs|_|!ArgCount
-|1|abs|i1/i2|!ArgCount
-|2|abs|i1|!ArgCount
-|1|sign|i-3 0 9223372036854775807|i-1 0 1
-|1|sign|_|!ArgCount
-|1|mod|i-7 7 5 -5/i3 -3 0 5|i2 -2 5 0
-|1|mod|i1 2 3/i1 2|!SizeMismatch
-|1|mod|i1|!ArgCount
-|1|rem|i-7 7 5/i3 -3 0|i-1 1 0
-|1|rem|i1 2;3 4/i2;3|i1 0;0 1
-|1|rem|i1/i2/i3|!ArgCount
-|1|xor|i0 5 0 -1/l0 0 1 1|l0 1 1 0
-|1|xor|i1 2/i1 2 3|!SizeMismatch
-|1|xor|i1|!ArgCount
-|1|min|i1 5;4 2/i3|i1 3;3 2
-|1|max|i1 5;4 2/i3|i3 5;4 3
-|1|min|l1 0/cab|i1 0
-|1|max|i1 2/i1 2 3|!SizeMismatch
-|1|max|i1/i2/i3|!ArgCount
-|2|max|i1/i2|!ArgCount
-|1|max|_|!ArgCount
-|1|min|i3 1 2 1|i1
-|1|max|i3 1;7 0|i7 1
-|2|max|i3 7 2 7|i7/i2
-|2|min|i3 7;2 7;2 0|i2 0/i2 3
-|2|min|i3;1;1|i1/i2
-|2|max|i5|i5/i1
-|2|max|i0x0|i0x0/i0x0
-|1|min|l0x0|i0x0
-|1|max|i0x3|!ArgRange
-|2|min|i1x0|!ArgRange
-|2|max|i3x0|i1x0/i1x0
-|1|max|i0x1|!ArgRange
-|1|min|cba|i97
-|3|max|i1 2|!ArgCount
-|2|max|i-9223372036854775808 -9223372036854775808|i-9223372036854775808/i1
-|0|min|i1 2|i1
-|1|sum|i9223372036854775807 1 -1|i9223372036854775806
S|1|sum|i9223372036854775807 1 -1|!Overflow
-|1|sum|i-9223372036854775808;-1|i-9223372036854775808
S|1|sum|i-9223372036854775808;-1|!Overflow
-|1|sum|i1 2;3 4|i4 6
-|1|sum|i1 2 3|i6
-|1|sum|i1 2 3/i1|i1 2 3
-|1|sum|i1 2;3 4/i2|i3;7
-|1|sum|l1 1 1|i3
-|1|sum|cab|i195
-|1|sum|i0x0|i0
-|1|sum|i0x0/i1|i1x0
-|1|sum|i0x0/l1|i1x0
-|1|sum|i0x3|i0 0 0
-|1|sum|i1x0|i0
-|1|sum|i3x0|i1x0
-|1|sum|i2x0/i2|i0;0
-|1|sum|i5|i5
-|1|sum|_|!ArgCount
-|1|sum|i1/i1/i1|!ArgCount
-|1|sum|i1/i1 2|!NotScalar
-|1|sum|i1/i3|!ArgRange
-|1|sum|i1/i0|!ArgRange
-|1|sum|i1/i0x0|!NotScalar
-|2|sum|i1|!ArgCount
-|1|prod|i4611686018427387904 2 0|i0
S|1|prod|i4611686018427387904 2 0|!Overflow
-|1|prod|i-4611686018427387904 2|i-9223372036854775808
S|1|prod|i-4611686018427387904 2|i-9223372036854775808
-|1|prod|i2 3;4 5|i8 15
-|1|prod|i0x0|i1
-|1|prod|i0x2|i1 1
-|1|prod|i1x0|i1
-|1|prod|i2 3;4 5/i2|i6;20
-|1|prod|i0x0/i2|i0x1
-|1|prod|i2/i-1|!ArgRange
-|1|prod|i2/cab|!NotScalar
-|1|prod|_|!ArgCount
-|1|idivide|i7 -7 7 -7/i2 2 -2 -2|i3 -3 -3 3
S|1|idivide|i7 -7 7 -7/i2 2 -2 -2|i3 -3 -3 3
-|1|idivide|i7 -7 7 -7 6 -6 5 -5/i2 2 -2 -2 3 3 3 3/cfix|i3 -3 -3 3 2 -2 1 -1
-|1|idivide|i7 -7 7 -7 6 -6 5 -5/i2 2 -2 -2 3 3 3 3/cfloor|i3 -4 -4 3 2 -2 1 -2
-|1|idivide|i7 -7 7 -7 6 -6 5 -5/i2 2 -2 -2 3 3 3 3/cceil|i4 -3 -3 4 2 -2 2 -1
-|1|idivide|i7 -7 7 -7 6 -6 5 -5/i2 2 -2 -2 3 3 3 3/cround|i4 -4 -4 4 2 -2 2 -2
-|1|idivide|i5 -5 0/i0|i9223372036854775807 -9223372036854775808 0
S|1|idivide|i5 -5 0/i0|!Overflow
-|1|idivide|i-9223372036854775808/i-1|i9223372036854775807
S|1|idivide|i-9223372036854775808/i-1|!Overflow
-|1|idivide|i-9223372036854775808/i-1/cceil|i9223372036854775807
S|1|idivide|i-9223372036854775808/i-1/cceil|!Overflow
-|1|idivide|i-9223372036854775808 9223372036854775807/i2;1/cfloor|i-4611686018427387904 4611686018427387903;-9223372036854775808 9223372036854775807
S|1|idivide|i-9223372036854775808 9223372036854775807/i2;1/cfloor|i-4611686018427387904 4611686018427387903;-9223372036854775808 9223372036854775807
-|1|idivide|i5/i0/cround|i9223372036854775807
S|1|idivide|i5/i0/cround|!Overflow
-|1|idivide|i-9223372036854775808/i-9223372036854775808/cround|i1
-|1|idivide|i1/i-9223372036854775808/cfloor|i-1
-|1|idivide|i1|!ArgCount
-|1|idivide|i1/i2/cfix/cfix|!ArgCount
-|1|idivide|i1/i2/cnearest|!ArgClass
-|1|idivide|i1/i2/i5|!ArgClass
-|1|idivide|i1/i2/c|!ArgClass
-|1|idivide|i1 2/i1 2 3|!SizeMismatch
-|1|idivide|i1 2/i1 2 3/cFix|!ArgClass
-|2|idivide|i1/i2/cfix|!ArgCount
-|1|bitand|i12 10 9223372036854775807/i10|i8 10 10
-|1|bitor|i12;10/i3 5|i15 13;11 15
-|1|bitxor|i12 10/l1 0|i13 10
-|1|bitand|i1 2 3/i-1 2|!ArgRange
-|1|bitor|i-1/i1|!ArgRange
-|1|bitxor|i1/i-1|!ArgRange
-|1|bitand|i1 2/i1 2 3|!SizeMismatch
-|1|bitand|i1|!ArgCount
-|1|bitor|i1/i2/i3|!ArgCount
-|2|bitxor|i1/i1|!ArgCount
-|1|bitor|i9223372036854775807/i1|i9223372036854775807
S|1|bitor|i9223372036854775807/i1|i9223372036854775807
-|1|bitshift|i1 3 5 0/i3|i8 24 40 0
S|1|bitshift|i1 3 5 0/i3|i8 24 40 0
-|1|bitshift|i5 7 1/i-1|i2 3 0
-|1|bitshift|i1 0/i63|i9223372036854775807 0
S|1|bitshift|i1 0/i63|!Overflow
-|1|bitshift|i1 2 3/i62|i4611686018427387904 9223372036854775807 9223372036854775807
S|1|bitshift|i1 2 3/i62|!Overflow
-|1|bitshift|i9223372036854775807/i-62 -63 0|i1 0 9223372036854775807
-|1|bitshift|i1/i64|!ArgRange
-|1|bitshift|i1/i-64|!ArgRange
-|1|bitshift|i-1/i1|!ArgRange
-|1|bitshift|i1 2/i1 2 3|!SizeMismatch
-|1|bitshift|i1 2/i1 2 99|!ArgRange
-|1|bitshift|i1|!ArgCount
-|1|numel|i1 2;3 4;5 6|i6
-|1|numel|i0x7|i0
-|1|numel|c|i0
-|1|numel|_|!ArgCount
-|2|numel|i1|!ArgCount
-|1|length|i1 2;3 4;5 6|i3
-|1|length|i0x7|i0
-|1|length|c|i0
-|1|length|_|!ArgCount
-|2|length|i1|!ArgCount
-|1|isempty|i1 2;3 4;5 6|i0
-|1|isempty|i0x7|i1
-|1|isempty|c|i1
-|1|isempty|_|!ArgCount
-|2|isempty|i1|!ArgCount
-|1|length|cabc|i3
-|1|isempty|i5|i0
-|1|size|i1 2 3;4 5 6|i2 3
-|2|size|i1 2 3;4 5 6|i2/i3
-|0|size|i1 2 3;4 5 6|i2 3
-|1|size|i0x4/i1|i0
-|1|size|i0x4/i2|i4
-|1|size|i0x4/i3|!ArgRange
-|1|size|i1/i0|!ArgRange
-|1|size|i1/i1 2|!NotScalar
-|2|size|i1/i1|!ArgCount
-|3|size|i1|!ArgCount
-|1|size|_|!ArgCount
-|1|size|i1/i1/i1|!ArgCount
-|1|isequal|i1 2/i1 2|l1
-|1|isequal|i97 98/cab|l1
-|1|isequal|i1 2/i1;2|l0
-|1|isequal|i1 2/i1 3|l0
-|1|isequal|i0x0/c|l1
-|1|isequal|i0x0/i0x1|l0
-|1|isequal|l1/i1|l1
-|1|isequal|i1|!ArgCount
-|1|ischar|ca|l1
-|1|ischar|i1|l0
-|1|islogical|l1|l1
-|1|islogical|i1|l0
-|1|isnumeric|i1 2|l1
-|1|isnumeric|l1|l0
-|1|isnumeric|ca|l0
-|1|isscalar|i1|l1
-|1|isscalar|i1 2|l0
-|1|isscalar|i0x0|l0
-|1|isvector|i1 2|l1
-|1|isvector|i1;2|l1
-|1|isvector|i1|l1
-|1|isvector|i1 2;3 4|l0
-|1|isvector|i1x0|l1
-|1|isvector|i0x0|l0
-|1|ischar|_|!ArgCount
-|1|islogical|_|!ArgCount
-|1|isnumeric|_|!ArgCount
-|1|isscalar|_|!ArgCount
-|1|isvector|_|!ArgCount
-|1|class|_|!ArgCount
-|1|int64|_|!ArgCount
-|1|logical|_|!ArgCount
-|1|char|_|!ArgCount
-|1|strcmp|cab/cab|l1
-|1|strcmp|cab/cac|l0
-|1|strcmp|cab/i97 98|l0
-|1|strcmp|c/c|l1
-|1|strcmp|i1/i1|l0
-|1|strcmp|ca/n97;98|l0
-|1|strcmp|ca|!ArgCount
-|1|class|i1|n105 110 116 54 52
-|1|class|l1|n108 111 103 105 99 97 108
-|1|class|c|n99 104 97 114
-|1|class|i1/i1|!ArgCount
-|1|zeros|_|i0
-|1|zeros|i2|i0 0;0 0
-|1|zeros|i2/i3|i0 0 0;0 0 0
-|1|zeros|i1/i2/i3|!ArgCount
-|2|zeros|_|!ArgCount
-|1|ones|_|i1
-|1|ones|i2|i1 1;1 1
-|1|ones|i2/i3|i1 1 1;1 1 1
-|1|ones|i1/i2/i3|!ArgCount
-|2|ones|_|!ArgCount
-|1|true|_|l1
-|1|true|i2|l1 1;1 1
-|1|true|i2/i3|l1 1 1;1 1 1
-|1|true|i1/i2/i3|!ArgCount
-|2|true|_|!ArgCount
-|1|false|_|l0
-|1|false|i2|l0 0;0 0
-|1|false|i2/i3|l0 0 0;0 0 0
-|1|false|i1/i2/i3|!ArgCount
-|2|false|_|!ArgCount
-|1|eye|_|i1
-|1|eye|i2|i1 0;0 1
-|1|eye|i2/i3|i1 0 0;0 1 0
-|1|eye|i1/i2/i3|!ArgCount
-|2|eye|_|!ArgCount
-|1|zeros|i-1|i0x0
-|1|ones|i-1/i3|i0x3
-|1|eye|i3/i2|i1 0;0 1;0 0
-|1|eye|i0|i0x0
-|1|true|i0/i5|l0x5
-|1|zeros|i1 2|!NotScalar
-|1|zeros|i1/i0x0|!NotScalar
-|1|zeros|i1001|!SizeLimit
-|1|zeros|i1/i1000001|!SizeLimit
-|1|zeros|i1000001/i0|!SizeLimit
-|1|ones|i9223372036854775807/i9223372036854775807|!SizeLimit
-|1|zeros|i9223372036854775807/i-9223372036854775808|!SizeLimit
-|1|zeros|ca/l0|i97x0
-|1|zeros|l1|i0
-|1|int64|cab|i97 98
-|1|int64|l1 0|i1 0
-|1|logical|i5 0;-1 0|l1 0;1 0
-|1|logical|cab|l1 1
-|1|char|i97 0 255|n97 0 255
-|1|char|i256|!CharRange
-|1|char|i-1|!CharRange
-|1|char|l1|n1
-|1|char|i0x3|n0x3
-|1|int64|i1/i2|!ArgCount
-|1|intmax|cint64|i9223372036854775807
-|1|intmin|cint64|i-9223372036854775808
-|1|intmax|_|!ArgCount
-|1|intmin|_|!ArgCount
-|1|intmax|cint32|!ArgClass
-|1|intmin|i5|!ArgClass
-|1|intmax|cint64/cint64|!ArgCount
-|1|intmax|n105;110;116;54;52|!ArgClass
-|1|intmin|c|!ArgClass";

#[test]
fn calls(rt: HostRuntime) -> Result<(), Fail> {
    let alloc = rt.alloc();
    for line in CALLS.lines() {
        let mut fields = line.split('|');
        let mode = mode_of(fields.next().ok_or("mode")?);
        let nout = fields.next().ok_or("outputs")?.parse::<u32>()?;
        let f = Builtin::of(fields.next().ok_or("name")?.as_bytes()).ok_or("function")?;
        let args = arrays(alloc, fields.next().ok_or("arguments")?)?;
        let wanted = fields.next().ok_or("answers")?;
        let answer = call_in(alloc, mode, f, args.as_slice(), nout);
        assert!(rt; is_wanted(alloc, answer, wanted)?, "{line}");
    }
    Ok(())
}

#[test]
fn a_call_without_a_mode_clamps(rt: HostRuntime) -> Result<(), Fail> {
    let args = arrays(rt.alloc(), "i9223372036854775807 1 -1")?;
    let answer = call(rt.alloc(), Builtin::Sum, args.as_slice(), 1);
    assert!(rt; is_wanted(rt.alloc(), answer, "i9223372036854775806")?);
    Ok(())
}

#[test]
fn names(rt: HostRuntime) {
    assert!(rt; Builtin::of(b"idivide") == Some(Builtin::Idivide));
    assert!(rt; Builtin::of(b"Sum").is_none());
    assert!(rt; Builtin::of(b"").is_none());
    assert!(rt; Builtin::StrCmp.name() == "strcmp");
}

fn mode_of(word: &str) -> Mode {
    if word == "S" {
        Mode::Strict
    } else {
        Mode::Saturate
    }
}

fn is_wanted(
    alloc: Global,
    answer: Result<Vec<Arr>, Or<ErrKind>>,
    wanted: &str,
) -> Result<bool, Fail> {
    match answer {
        Ok(made) => {
            let list = arrays(alloc, wanted)?;
            Ok(made.as_slice() == list.as_slice())
        }
        Err(Or::Is(kind)) => {
            let name = format!(in alloc; "!{kind:?}")?;
            Ok(name.as_str() == wanted)
        }
        Err(Or::Memory) => Err("no memory".into()),
    }
}

/// The arrays of a list; `_` is none.
fn arrays(alloc: Global, text: &str) -> Result<Vec<Arr>, Fail> {
    let mut list = Vec::new(alloc);
    if text != "_" {
        for word in text.split('/') {
            list.push(array(alloc, word)?)?;
        }
    }
    Ok(list)
}

fn array(alloc: Global, text: &str) -> Result<Arr, Fail> {
    if let Some(bytes) = text.strip_prefix('c') {
        return characters(alloc, bytes);
    }
    if let Some(rows) = text.strip_prefix('n') {
        return of_class(alloc, Class::Char, rows);
    }
    if let Some(rows) = text.strip_prefix('l') {
        return of_class(alloc, Class::Logical, rows);
    }
    of_class(alloc, Class::Int, text.strip_prefix('i').ok_or("class")?)
}

fn of_class(alloc: Global, class: Class, text: &str) -> Result<Arr, Fail> {
    match text.split_once('x') {
        Some((rows, cols)) => no_cells(alloc, class, rows.parse::<u32>()?, cols.parse::<u32>()?),
        None => matrix(alloc, class, text),
    }
}

fn no_cells(alloc: Global, class: Class, rows: u32, cols: u32) -> Result<Arr, Fail> {
    if rows == 0 && cols <= 99 || cols == 0 && rows <= 99 {
        Ok(Arr::new(class, Shape { rows, cols }, Vec::new(alloc)))
    } else {
        Err("extents".into())
    }
}
