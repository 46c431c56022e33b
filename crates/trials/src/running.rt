//! Scripts of many inputs, and what each input printed. An input is a function of its own, so that it has its own
//! variables and an error ends it alone; behind each comes a mark.

use crate::writing::count;
use pl_base::{Free, NoMemory, Text};
use pl_io::{MemFiles, MemSink};
use pl_session::top;
use std::alloc::Global;
use std::sync::Wait;
use std::thread::Threads;

/// What a script may print. Many times what one prints.
const ROOM: u32 = 1_000_000;

/// Stands behind the output of an input. No input prints it.
const MARK: u8 = b'#';

/// What is printed where an input raises an error.
pub const RAISED: &[u8] = b"raised\n";

fn call(script: &mut Vec<u8>, place: usize) -> Result<(), NoMemory> {
    script.extend_from_slice(b"try, input")?;
    count(script, place as u64)?;
    script.extend_from_slice(b"(), catch, disp('raised'), end, fprintf('#')\n")?;
    Ok(())
}

fn function(script: &mut Vec<u8>, place: usize, statements: &[u8]) -> Result<(), NoMemory> {
    script.extend_from_slice(b"function input")?;
    count(script, place as u64)?;
    script.extend_from_slice(b"()\n")?;
    script.extend_from_slice(statements)?;
    script.extend_from_slice(b"\nend\n")?;
    Ok(())
}

fn script_of(alloc: Global, inputs: &[Vec<u8>]) -> Result<Vec<u8>, NoMemory> {
    let mut script = Vec::new(alloc);
    for place in 0..inputs.len() {
        call(&mut script, place)?;
    }
    for (place, statements) in inputs.iter().enumerate() {
        function(&mut script, place, statements)?;
    }
    Ok(script)
}

/// What a script prints, and behind it its notes: they come in the place of an input that didn't run.
fn output<R: Threads + Wait + Sync>(
    rt: &R,
    alloc: Global,
    script: Vec<u8>,
) -> Result<Vec<u8>, NoMemory> {
    let mut words = Vec::new(alloc);
    words.push(Text::of(alloc, b"run")?)?;
    words.push(Text::of(alloc, b"trial.m")?)?;
    let mut names = Vec::new(alloc);
    names.push(Text::of(alloc, b"trial.m")?)?;
    let mut sources = Vec::new(alloc);
    sources.push(script)?;
    let mut files = MemFiles::new(names, sources, Vec::new(alloc));
    let mut out = MemSink::new(alloc, ROOM, Vec::new(alloc))?;
    let mut notes = MemSink::new(alloc, ROOM, Vec::new(alloc))?;
    top(rt, alloc, &words, &mut files, &mut out, &mut notes, &Free);
    let mut output = Vec::from_slice(alloc, out.written())?;
    output.extend_from_slice(notes.written())?;
    Ok(output)
}

fn pieces(alloc: Global, output: &[u8]) -> Result<Vec<Vec<u8>>, NoMemory> {
    let mut pieces = Vec::new(alloc);
    for piece in output.split(|b| *b == MARK) {
        pieces.push(Vec::from_slice(alloc, piece)?)?;
    }
    Ok(pieces)
}

/// What the input at a place printed.
pub fn piece(pieces: &[Vec<u8>], place: usize) -> &[u8] {
    match pieces.get(place) {
        Some(piece) => piece.as_slice(),
        None => b"",
    }
}

/// What each input printed, in one script.
pub fn printed<R: Threads + Wait + Sync>(
    rt: &R,
    alloc: Global,
    inputs: &[Vec<u8>],
) -> Result<Vec<Vec<u8>>, NoMemory> {
    let script = script_of(alloc, inputs)?;
    let output = output(rt, alloc, script)?;
    pieces(alloc, &output)
}
