//! Spellings: the same statements spelled plainly, and with white space, continuations, comments, separators and line ends
//! of every kind between their tokens. Both are to print the same.

use crate::generator::Generator;
use crate::running::printed;
use crate::statements::{any_lines, plain, template};
use crate::tally::Tally;
use pl_base::NoMemory;
use std::alloc::Global;
use std::sync::Wait;
use std::thread::Threads;

/// What is one white space to the language.
fn white_space(generator: &mut Generator) -> &'static [u8] {
    match generator.below(16) {
        0..=5 => b" ",
        6..=8 => b"\t",
        9 | 10 => b"  \t  ",
        11 => b"...\n",
        12 => b" ...\r\n\t",
        13 => b"... 'end' % [ x = 5;\n",
        14 => b" ....\n  ...\n",
        _ => b"...%{\n",
    }
}

/// What is one line end to the language, or several.
fn line_end(generator: &mut Generator) -> &'static [u8] {
    match generator.below(16) {
        0..=4 => b"\n",
        5 | 6 => b"\r\n",
        7 => b"\n\n\r\n \t\n",
        8 => b"% x = 5\n",
        9 => b" %it's \"not [ closed ...\r\n",
        10 => b"%{ end\n",
        11 => b"%}\n",
        12 => b"\n%{\nend\n%}\n",
        13 => b"\n \t%{\t\nx = 5 %}\n  %{\r\n%}\n'\n\t%} \r\n",
        14 => b"%\n%%\n",
        _ => b"\n% x\n%{ x\n",
    }
}

/// What ends a statement that is shown.
fn showing(generator: &mut Generator) -> &'static [u8] {
    if generator.one_in(3) {
        b","
    } else {
        line_end(generator)
    }
}

fn separator(generator: &mut Generator) -> &'static [u8] {
    if generator.one_in(3) {
        b";"
    } else {
        showing(generator)
    }
}

/// Up to two separators more.
fn separators(generator: &mut Generator, text: &mut Vec<u8>) -> Result<(), NoMemory> {
    for _ in 0..generator.below(3) {
        let next = separator(generator);
        text.extend_from_slice(next)?;
    }
    Ok(())
}

fn is_wordlike(byte: u8) -> bool {
    byte.is_ascii_alphanumeric() || byte == b'_'
}

/// Nothing, unless it would join two words, or white space.
fn gap(generator: &mut Generator, text: &mut Vec<u8>, next: u8) -> Result<(), NoMemory> {
    let last = text.last().copied().unwrap_or(b' ');
    let joins = is_wordlike(last) && is_wordlike(next);
    if joins || generator.one_in(2) {
        text.extend_from_slice(white_space(generator))?;
    }
    Ok(())
}

/// A byte of a template, with the one behind it.
fn spell(
    generator: &mut Generator,
    text: &mut Vec<u8>,
    byte: u8,
    next: u8,
) -> Result<(), NoMemory> {
    match byte {
        b' ' => gap(generator, text, next),
        b'\n' => {
            text.extend_from_slice(showing(generator))?;
            separators(generator, text)
        }
        b'$' => {
            text.extend_from_slice(separator(generator))?;
            separators(generator, text)
        }
        _ => {
            text.push(byte)?;
            Ok(())
        }
    }
}

fn noisy(alloc: Global, generator: &mut Generator, template: &[u8]) -> Result<Vec<u8>, NoMemory> {
    let mut text = Vec::new(alloc);
    for (place, byte) in template.iter().enumerate() {
        let next = template
            .get(place.saturating_add(1))
            .copied()
            .unwrap_or(b'$');
        spell(generator, &mut text, *byte, next)?;
    }
    Ok(text)
}

pub fn run<R: Threads + Wait + Sync>(
    rt: &R,
    alloc: Global,
    generator: &mut Generator,
    count: u32,
    tally: &mut Tally,
) -> Result<(), NoMemory> {
    let mut inputs = Vec::new(alloc);
    let mut spelled_plainly = Vec::new(alloc);
    for _ in 0..count {
        let lines = any_lines(alloc, generator)?;
        let template = template(alloc, &lines)?;
        spelled_plainly.push(plain(alloc, &template)?)?;
        inputs.push(noisy(alloc, generator, &template)?)?;
    }
    let wanted = printed(rt, alloc, &spelled_plainly)?;
    let got = printed(rt, alloc, &inputs)?;
    tally.compare(alloc, &inputs, &wanted, &got)
}
