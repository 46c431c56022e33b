//! Expressions of single numbers: each is spelled with all its parentheses and with as few as it needs, and both
//! spellings are to have the value that the plain rules give.

use crate::generator::Generator;
use crate::operators::{Binary, OPERAND, PREFIX, clamped};
use crate::running::printed;
use crate::tally::Tally;
use crate::writing::{literal, shown};
use pl_base::NoMemory;
use std::alloc::Global;
use std::sync::Wait;
use std::thread::Threads;

/// An expression in both spellings, how strongly its parts hold together, and its value.
#[derive(Drop)]
struct Expression {
    full: Vec<u8>,
    few: Vec<u8>,
    level: u8,
    value: i64,
}

/// A literal. Below 0 there is none but for the name of the least number.
fn leaf(alloc: Global, generator: &mut Generator) -> Result<Expression, NoMemory> {
    let drawn = generator.number();
    let value = if drawn == i64::MIN {
        drawn
    } else {
        drawn.wrapping_abs()
    };
    let mut full = Vec::new(alloc);
    literal(&mut full, value)?;
    Ok(Expression {
        few: full.clone()?,
        full,
        level: OPERAND,
        value,
    })
}

/// A part of an expression, in parentheses where it holds together less strongly than it has to.
fn part(text: &mut Vec<u8>, inner: &[u8], level: u8, least: u8) -> Result<(), NoMemory> {
    if level < least {
        text.push(b'(')?;
        text.extend_from_slice(inner)?;
        text.push(b')')?;
    } else {
        text.extend_from_slice(inner)?;
    }
    Ok(())
}

fn middle(text: &mut Vec<u8>, operator: Binary) -> Result<(), NoMemory> {
    text.push(b' ')?;
    text.extend_from_slice(operator.sign())?;
    text.push(b' ')?;
    Ok(())
}

fn joined(
    alloc: Global,
    operator: Binary,
    left: &Expression,
    right: &Expression,
) -> Result<Expression, NoMemory> {
    let level = operator.level();
    let mut full = Vec::from_slice(alloc, b"(")?;
    full.extend_from_slice(&left.full)?;
    middle(&mut full, operator)?;
    full.extend_from_slice(&right.full)?;
    full.push(b')')?;
    let mut few = Vec::new(alloc);
    part(&mut few, &left.few, left.level, level)?;
    middle(&mut few, operator)?;
    part(&mut few, &right.few, right.level, level.saturating_add(1))?;
    Ok(Expression {
        full,
        few,
        level,
        value: operator.value(left.value, right.value),
    })
}

/// The operand with a sign before it: `-`, `+` or `~`.
fn signed(
    alloc: Global,
    generator: &mut Generator,
    operand: &Expression,
) -> Result<Expression, NoMemory> {
    let (sign, value) = match generator.below(4) {
        0 => (b'~', i64::from(operand.value == 0)),
        1 => (b'+', operand.value),
        _ => (b'-', clamped(i128::from(operand.value).wrapping_neg())),
    };
    let mut full = Vec::from_slice(alloc, &[b'(', sign])?;
    full.extend_from_slice(&operand.full)?;
    full.push(b')')?;
    let mut few = Vec::from_slice(alloc, &[sign])?;
    part(&mut few, &operand.few, operand.level, PREFIX)?;
    Ok(Expression {
        full,
        few,
        level: PREFIX,
        value,
    })
}

/// Puts an operator over what was made last: a sign over one expression, or an operator between two.
fn join_last(
    alloc: Global,
    generator: &mut Generator,
    made: &mut Vec<Expression>,
) -> Result<(), NoMemory> {
    let Some(right) = made.pop() else {
        return Ok(());
    };
    if generator.one_in(4) {
        made.push(signed(alloc, generator, &right)?)?;
    } else if let Some(left) = made.pop() {
        let operator = Binary::of(generator.below(16));
        made.push(joined(alloc, operator, &left, &right)?)?;
    } else {
        made.push(right)?;
    }
    Ok(())
}

/// Literals and operators in any order, so that trees of every form come.
fn any_expression(alloc: Global, generator: &mut Generator) -> Result<Expression, NoMemory> {
    let mut made = Vec::new(alloc);
    for _ in 0..generator.below(24) {
        if generator.one_in(2) {
            made.push(leaf(alloc, generator)?)?;
        } else {
            join_last(alloc, generator, &mut made)?;
        }
    }
    for _ in 0..16 {
        join_last(alloc, generator, &mut made)?;
    }
    match made.pop() {
        Some(whole) => Ok(whole),
        None => leaf(alloc, generator),
    }
}

fn statements(alloc: Global, expression: &Expression) -> Result<Vec<u8>, NoMemory> {
    let mut text = Vec::from_slice(alloc, b"disp(")?;
    text.extend_from_slice(&expression.full)?;
    text.extend_from_slice(b")\ndisp(")?;
    text.extend_from_slice(&expression.few)?;
    text.push(b')')?;
    Ok(text)
}

/// Both spellings print the value.
fn answer(alloc: Global, value: i64) -> Result<Vec<u8>, NoMemory> {
    let mut text = Vec::new(alloc);
    shown(&mut text, &[value])?;
    shown(&mut text, &[value])?;
    Ok(text)
}

pub fn run<R: Threads + Wait + Sync>(
    rt: &R,
    alloc: Global,
    generator: &mut Generator,
    count: u32,
    tally: &mut Tally,
) -> Result<(), NoMemory> {
    let mut inputs = Vec::new(alloc);
    let mut wanted = Vec::new(alloc);
    for _ in 0..count {
        let made = any_expression(alloc, generator)?;
        inputs.push(statements(alloc, &made)?)?;
        wanted.push(answer(alloc, made.value)?)?;
    }
    let got = printed(rt, alloc, &inputs)?;
    tally.compare(alloc, &inputs, &wanted, &got)
}
