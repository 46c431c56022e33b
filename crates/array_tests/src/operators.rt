//! Each call on a few values, by one table. The answers were worked out by hand from the rules.

use crate::written::matrix;
use pl_array::Class;
use pl_base::{ErrKind, Mode, Or, Seq};
use pl_operators::{
    Argument, assign_value, binary, case_fits, chars, column, condition, delete_value, extent,
    given, logical, number, range, rows, select_value, shown, switch, unary,
};
use pl_syntax::{Bin, Un};
use pl_values::Value;
use sqlite_items::Items;
use std::alloc::Global;
use std::test::Fail;

// The call, its values, and what is shown of the answer under the name `x`, with `~` for a line end, or the number of
// the refusal behind `!`. Of a value `'` begins characters, `@` futures, `P` is a pool, `_` no value.
static CASES: &str = "+|1 2|3|x =~4  5~
+|1 2|1 2 3|!1
+|P|1|!18
+|1|'a|x = 98~
*|1 2|3 4|!6
*|2|3 4|x =~6  8~
.*|1 2|3 4|x =~3  8~
/|7|2|x = 4~
/|2|1 2|!6
^|2|10|x = 1024~
^|1 2|2|!6
^|2|-1|!5
<|1 2|2|x =~1  0~
&|1 0|5|x =~1  0~
u+|'a|x = 97~
u-|1 -2|x =~-1   2~
u~|0 3|x =~1  0~
u'|1 2|x =~1~2~
u-|@1|!18
&&|2|x = 1~
&&|1 2|!19
if|1 0|x = 0~
if||x = 0~
if|1 2|x = 1~
case|'ab|'ab|x = 1~
case|'ab|'ac|x = 0~
case|97|'a|x = 1~
case|1 2|1 2|x = 0~
:|1|3|x =~1  2  3~
:|3|1|x = [](1x0)~
:|1 2|3|!7
:|1|1000001|!4
:|9223372036854775806|9223372036854775807|x =~9223372036854775806  9223372036854775807~
::|10|-3|1|x =~10   7   4   1~
::|1|0|5|x = [](1x0)~
::|-9223372036854775808|9223372036854775807|9223372036854775807|x =~-9223372036854775808                    -1   9223372036854775806~
[]|1 2,3/4,5 6|x =~1  2  3~4  5  6~
[]|'ab,99|x = 'abc'~
[]|1 2/3|!2
[]|@1,@2 3|x = <future>~
[]|@1/@2|!18
[]|@1,2|!18
()|10 20 30|2|x = 20~
()|10 20 30|4|!9
()|10 20 30|0|!8
()|1 2;3 4|:,2|x =~2~4~
()|1 2;3 4|1,1,1|!8
()|1 2;3 4|1,1,P|!18
()|@4 5|2|x = <future>~
()|@4 5|3|!9
()|@4 5|:|!8
()|P|1|!18
=|1 2|4|9|x =~1  2  0  9~
=|_|2|9|x =~0  9~
=|1 2|P|9|!18
=|1 2|1|P|!18
=|@1|2|@7|x = <future>~
=|@1|3|@7|!9
=|@1|1|@7 8|!18
=|_|1|@7|x = <future>~
del|1 2 3|2|x =~1  3~
del|@1 2|1|!18
end|1 2;3 4|0|1|x = 4~
end|1 2 3|0|2|x = 1~
end|1 2 3|1|2|x = 3~
end|_|0|1|x = 0~
end|@1 2 3|0|1|x = 3~
end|P|0|1|!18
for|1 2;3 4|1|x =~2~4~
for|7 8|1|x = 8~";

fn futures(alloc: Global, text: &str) -> Result<Value, Fail> {
    let mut calls = Seq::empty(alloc);
    for call in text.split(' ') {
        calls.push(call.parse::<u32>()?)?;
    }
    Ok(Value::Futures(calls))
}

fn value(alloc: Global, text: &str) -> Result<Value, Fail> {
    if text == "P" {
        return Ok(Value::Pool);
    }
    if let Some(calls) = text.strip_prefix('@') {
        return futures(alloc, calls);
    }
    match text.strip_prefix('\'') {
        Some(inside) => Ok(chars(alloc, inside.as_bytes())?),
        None => Ok(Value::Array(matrix(alloc, Class::Int, text)?)),
    }
}

fn held(alloc: Global, text: &str) -> Result<Option<Value>, Fail> {
    if text == "_" {
        return Ok(None);
    }
    Ok(Some(value(alloc, text)?))
}

fn row(alloc: Global, text: &str) -> Result<Items<Value>, Fail> {
    let mut items = Items::new(alloc);
    for element in text.split(',') {
        items.push(value(alloc, element)?)?;
    }
    Ok(items)
}

fn grid(alloc: Global, text: &str) -> Result<Vec<Items<Value>>, Fail> {
    let mut grid = Vec::new(alloc);
    for line in text.split('/') {
        grid.push(row(alloc, line)?)?;
    }
    Ok(grid)
}

fn arguments(alloc: Global, text: &str) -> Result<Vec<Argument>, Fail> {
    let mut all = Vec::new(alloc);
    for word in text.split(',') {
        let argument = if word == ":" {
            Argument::Colon
        } else {
            given(alloc, value(alloc, word)?)
        };
        all.push(argument)?;
    }
    Ok(all)
}

/// The place of a refusal among the kinds, from 1.
fn number_of(kind: ErrKind) -> u32 {
    match kind {
        ErrKind::SizeMismatch => 1,
        ErrKind::ConcatMismatch => 2,
        ErrKind::SizeLimit => 4,
        ErrKind::NegativePower => 5,
        ErrKind::MatrixOp => 6,
        ErrKind::RangeArg => 7,
        ErrKind::BadIndex => 8,
        ErrKind::IndexRange => 9,
        ErrKind::BadKind => 18,
        ErrKind::NotScalar => 19,
        _ => 0,
    }
}

fn binary_by(call: &str) -> Option<Bin> {
    match call {
        "+" => Some(Bin::Add),
        "*" => Some(Bin::Mul),
        ".*" => Some(Bin::DotMul),
        "/" => Some(Bin::Div),
        "^" => Some(Bin::Pow),
        "<" => Some(Bin::Lt),
        "&" => Some(Bin::And),
        _ => None,
    }
}

fn unary_by(call: &str) -> Option<Un> {
    match call {
        "u+" => Some(Un::Plus),
        "u-" => Some(Un::Minus),
        "u~" => Some(Un::Not),
        "u'" => Some(Un::Transpose),
        _ => None,
    }
}

/// What a call that asks for the truth of a value answers.
fn truth_by(call: &str, x: &Value, y: &Value) -> Result<Value, Or<ErrKind>> {
    let answer = match call {
        "&&" => switch(x),
        "if" => condition(x),
        _ => case_fits(x, y),
    };
    match answer {
        Ok(b) => Ok(logical(b)),
        Err(kind) => Err(Or::Is(kind)),
    }
}

fn assigned(
    alloc: Global,
    old: Option<Value>,
    at: &[Argument],
    v: &Value,
) -> Result<Value, Or<ErrKind>> {
    let mut x = old;
    assign_value(alloc, &mut x, at, v)?;
    match x {
        Some(x) => Ok(x),
        None => Err(Or::Memory),
    }
}

fn deleted(alloc: Global, v: Value, at: &[Argument]) -> Result<Value, Or<ErrKind>> {
    let mut x = v;
    delete_value(alloc, &mut x, at)?;
    Ok(x)
}

fn extent_number(v: Option<&Value>, position: &str, count: &str) -> Result<Value, Or<ErrKind>> {
    let position = position.parse::<usize>().unwrap_or(0);
    let count = count.parse::<usize>().unwrap_or(0);
    match extent(v, position, count) {
        Ok(n) => Ok(number(i64::try_from(n).unwrap_or(0))),
        Err(kind) => Err(Or::Is(kind)),
    }
}

fn column_value(alloc: Global, v: &Value, j: &str) -> Result<Value, Or<ErrKind>> {
    let j = j.parse::<u32>().unwrap_or(0);
    match v {
        Value::Array(a) if j < a.shape().cols => Ok(Value::Array(column(alloc, a, j)?)),
        _ => Err(Or::Memory),
    }
}

type Answer = Result<Value, Or<ErrKind>>;

fn by_operator(alloc: Global, op: Bin, a: &str, b: &str) -> Result<Answer, Fail> {
    let x = value(alloc, a)?;
    let y = value(alloc, b)?;
    Ok(binary(alloc, Mode::Saturate, op, &x, &y))
}

fn by_sign(alloc: Global, op: Un, a: &str) -> Result<Answer, Fail> {
    let x = value(alloc, a)?;
    Ok(unary(alloc, Mode::Saturate, op, &x))
}

fn by_range(alloc: Global, a: &str, b: &str) -> Result<Answer, Fail> {
    let x = value(alloc, a)?;
    let y = value(alloc, b)?;
    Ok(range(alloc, &x, None, &y))
}

fn by_steps(alloc: Global, a: &str, b: &str, c: &str) -> Result<Answer, Fail> {
    let x = value(alloc, a)?;
    let y = value(alloc, b)?;
    let z = value(alloc, c)?;
    Ok(range(alloc, &x, Some(&y), &z))
}

fn by_brackets(alloc: Global, a: &str) -> Result<Answer, Fail> {
    let all = grid(alloc, a)?;
    Ok(rows(alloc, all.as_slice()))
}

fn by_index(alloc: Global, a: &str, b: &str) -> Result<Answer, Fail> {
    let x = value(alloc, a)?;
    let at = arguments(alloc, b)?;
    Ok(select_value(alloc, &x, at.as_slice()))
}

fn by_assignment(alloc: Global, a: &str, b: &str, c: &str) -> Result<Answer, Fail> {
    let x = held(alloc, a)?;
    let at = arguments(alloc, b)?;
    let v = value(alloc, c)?;
    Ok(assigned(alloc, x, at.as_slice(), &v))
}

fn by_deletion(alloc: Global, a: &str, b: &str) -> Result<Answer, Fail> {
    let x = value(alloc, a)?;
    let at = arguments(alloc, b)?;
    Ok(deleted(alloc, x, at.as_slice()))
}

fn by_end(alloc: Global, a: &str, b: &str, c: &str) -> Result<Answer, Fail> {
    let x = held(alloc, a)?;
    Ok(extent_number(x.as_ref(), b, c))
}

fn by_column(alloc: Global, a: &str, b: &str) -> Result<Answer, Fail> {
    let x = value(alloc, a)?;
    Ok(column_value(alloc, &x, b))
}

fn by_truth(alloc: Global, call: &str, a: &str, b: &str) -> Result<Answer, Fail> {
    let x = value(alloc, a)?;
    let y = value(alloc, b)?;
    Ok(truth_by(call, &x, &y))
}

fn answer(alloc: Global, call: &str, a: &str, b: &str, c: &str) -> Result<Answer, Fail> {
    if let Some(op) = binary_by(call) {
        return by_operator(alloc, op, a, b);
    }
    if let Some(op) = unary_by(call) {
        return by_sign(alloc, op, a);
    }
    match call {
        ":" => by_range(alloc, a, b),
        "::" => by_steps(alloc, a, b, c),
        "[]" => by_brackets(alloc, a),
        "()" => by_index(alloc, a, b),
        "=" => by_assignment(alloc, a, b, c),
        "del" => by_deletion(alloc, a, b),
        "end" => by_end(alloc, a, b, c),
        "for" => by_column(alloc, a, b),
        _ => by_truth(alloc, call, a, b),
    }
}

/// An answer as the table writes it.
fn told(alloc: Global, answer: Result<Value, Or<ErrKind>>) -> Result<String, Fail> {
    match answer {
        Ok(v) => {
            let mut text = String::new(alloc);
            for byte in shown(alloc, b"x", &v)?.as_slice() {
                text.push(if *byte == b'\n' {
                    '~'
                } else {
                    char::from(*byte)
                })?;
            }
            Ok(text)
        }
        Err(Or::Is(kind)) => Ok(format!(in alloc; "!{}", number_of(kind))?),
        Err(Or::Memory) => Err("out of memory".into()),
    }
}

#[test]
fn calls(rt: HostRuntime) -> Result<(), Fail> {
    let alloc = rt.alloc();
    for line in CASES.lines() {
        let (front, wanted) = line.rsplit_once('|').ok_or("answer")?;
        let mut fields = front.split('|');
        let call = fields.next().ok_or("call")?;
        let a = fields.next().unwrap_or("");
        let b = fields.next().unwrap_or("");
        let c = fields.next().unwrap_or("");
        let made = told(alloc, answer(alloc, call, a, b, c)?)?;
        assert_eq!(rt; made.as_str(), wanted, "{line}");
    }
    Ok(())
}
