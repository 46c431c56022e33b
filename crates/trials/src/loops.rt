//! Loops over workers: the same loop with the word `parfor` and with the word `for`, of which each is to leave the same
//! variables.

use crate::generator::Generator;
use crate::running::printed;
use crate::tally::Tally;
use crate::writing::{assignment, count as decimal, literal};
use pl_base::NoMemory;
use std::alloc::Global;
use std::sync::Wait;
use std::thread::Threads;

/// The variables that a body may write, each only at the index.
const WRITTEN: &[u8; 3] = b"ABC";

/// Makes the three names variables, also where the loop doesn't write them; they have no value by it.
const NAMED: &[u8] = b"if false, A = 1; B = 1; C = 1; end\n";

/// Each with its class, or that it has no value.
const QUESTIONS: &[u8] = b"try, disp(int64(A)), disp(class(A)), catch, disp('no A'), end
try, disp(int64(B)), disp(class(B)), catch, disp('no B'), end
try, disp(int64(C)), disp(class(C)), catch, disp('no C'), end
disp(P), disp(Q)";

fn written(generator: &mut Generator) -> u8 {
    let place = generator.below(3) as usize;
    WRITTEN.get(place).copied().unwrap_or(b'A')
}

/// What a variable is before the loop, if it has a value then.
fn before(
    alloc: Global,
    generator: &mut Generator,
    text: &mut Vec<u8>,
    name: u8,
) -> Result<(), NoMemory> {
    let given: &[u8] = match generator.below(12) {
        0..=3 => return row_before(alloc, generator, text, name),
        4 => b" = [3; 1; 4; 1; 5];\n",
        5 => b" = [2 7 1; 8 2 8];\n",
        6 => b" = [true false true true];\n",
        7 => b" = 'letters';\n",
        8 => b" = [];\n",
        _ => return Ok(()),
    };
    text.push(name)?;
    text.extend_from_slice(given)?;
    Ok(())
}

fn row_before(
    alloc: Global,
    generator: &mut Generator,
    text: &mut Vec<u8>,
    name: u8,
) -> Result<(), NoMemory> {
    let length = generator.below(8);
    let numbers = generator.numbers(alloc, length)?;
    assignment(text, &[name], &numbers)
}

/// All variables before the loop. `P` and `Q` are never written in it.
fn all_before(
    alloc: Global,
    generator: &mut Generator,
    text: &mut Vec<u8>,
) -> Result<(), NoMemory> {
    text.extend_from_slice(NAMED)?;
    for name in WRITTEN {
        before(alloc, generator, text, *name)?;
    }
    let length = generator.below(3).saturating_add(9);
    let numbers = generator.numbers(alloc, length)?;
    assignment(text, b"P", &numbers)?;
    text.extend_from_slice(b"Q = [5 3 8 2 9 4 7 1 6 10];\n")?;
    Ok(())
}

/// An operand: the index, a constant, an element at the index, or something of what isn't written.
fn operand(generator: &mut Generator, text: &mut Vec<u8>) -> Result<(), NoMemory> {
    let written: &[u8] = match generator.below(14) {
        0..=2 => b"i",
        3 => b"P(end)",
        4 => b"P(Q(i))",
        5 => b"Q(i)",
        6 => b"sum(Q(1:i))",
        7 => b"numel(P)",
        8 => b"max(P(1), i)",
        9 => b"mod(i, 3)",
        10 => b"-i",
        11 => {
            text.push(written(generator))?;
            b"(i)"
        }
        _ => return literal(text, generator.number().max(0)),
    };
    text.extend_from_slice(written)?;
    Ok(())
}

fn sign(generator: &mut Generator) -> &'static [u8] {
    match generator.below(10) {
        0..=2 => b" + ",
        3 | 4 => b" - ",
        5 => b" .* ",
        6 => b" < ",
        7 => b" == ",
        8 => b" & ",
        _ => b" | ",
    }
}

/// Up to three operators, one after another.
fn expression(generator: &mut Generator, text: &mut Vec<u8>) -> Result<(), NoMemory> {
    operand(generator, text)?;
    for _ in 0..generator.below(4) {
        text.extend_from_slice(sign(generator))?;
        operand(generator, text)?;
    }
    Ok(())
}

fn body(generator: &mut Generator, text: &mut Vec<u8>) -> Result<(), NoMemory> {
    for _ in 0..generator.below(4).saturating_add(1) {
        text.extend_from_slice(b"  ")?;
        text.push(written(generator))?;
        text.extend_from_slice(b"(i) = ")?;
        expression(generator, text)?;
        text.extend_from_slice(b";\n")?;
    }
    Ok(())
}

/// What stands behind the word of the loop. The range may be empty.
fn title(generator: &mut Generator, text: &mut Vec<u8>) -> Result<(), NoMemory> {
    let first = generator.below(4).saturating_add(1);
    let last = first.saturating_add(generator.below(6)).saturating_sub(1);
    text.extend_from_slice(b" i = ")?;
    decimal(text, first)?;
    text.push(b':')?;
    decimal(text, last)?;
    text.push(b'\n')?;
    Ok(())
}

/// A loop, cut where its word comes.
fn halves(alloc: Global, generator: &mut Generator) -> Result<(Vec<u8>, Vec<u8>), NoMemory> {
    let mut front = Vec::new(alloc);
    all_before(alloc, generator, &mut front)?;
    let mut back = Vec::new(alloc);
    title(generator, &mut back)?;
    body(generator, &mut back)?;
    back.extend_from_slice(b"end\n")?;
    back.extend_from_slice(QUESTIONS)?;
    Ok((front, back))
}

fn with_word(alloc: Global, halves: &(Vec<u8>, Vec<u8>), word: &[u8]) -> Result<Vec<u8>, NoMemory> {
    let mut text = Vec::from_slice(alloc, &halves.0)?;
    text.extend_from_slice(word)?;
    text.extend_from_slice(&halves.1)?;
    Ok(text)
}

pub fn run<R: Threads + Wait + Sync>(
    rt: &R,
    alloc: Global,
    generator: &mut Generator,
    count: u32,
    tally: &mut Tally,
) -> Result<(), NoMemory> {
    let mut inputs = Vec::new(alloc);
    let mut plain = Vec::new(alloc);
    for _ in 0..count {
        let halves = halves(alloc, generator)?;
        inputs.push(with_word(alloc, &halves, b"parfor")?)?;
        plain.push(with_word(alloc, &halves, b"for")?)?;
    }
    let wanted = printed(rt, alloc, &plain)?;
    let got = printed(rt, alloc, &inputs)?;
    tally.compare(alloc, &inputs, &wanted, &got)
}
