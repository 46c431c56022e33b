//! The real outside, a few lines over std. They are proved safe; that the system's files and streams do what
//! their names say is not. It tells nothing of bytes, and its counts rise with each error of the system.

ghost use Rattle.std.specs.Prelude.{◌≡◌, None, OnOk, IsUtf8};
ghost use Rattle.std.specs.Io.{ReadsAtMost};

use crate::outside::{Failed, Files, Sink};
use std::fs::File;
use std::io::{Read, Seek, SeekFrom, Write};
use std::{io, str};

/// The files of the system. A name that isn't UTF-8, a folder, a file that is missing or can't be read
/// is a fault.
#[derive(Drop)]
pub struct RealFiles<'r, R: std::rt::Files> {
    rt: &'r R,
    faults: u64,
}

impl<'r, R: std::rt::Files> RealFiles<'r, R> {
    pub fn new(rt: &'r R) -> RealFiles<'r, R>
        ensures { result.faults ≡ 0 }
    {
        RealFiles { rt, faults: 0 }
    }
}

/// Opens the file, goes to the place and reads once.
fn read_once<R: std::rt::Files>(rt: &R, name: &str, at: u64, into: &mut [u8]) -> io::Result<usize>
    ensures { ReadsAtMost result into.new }
{
    let mut file = File::open(rt, name)?;
    file.seek(SeekFrom::Start(at))?;
    file.read(into)
}

/// The read itself, of a name that is text.
fn read_named<R: std::rt::Files>(
    rt: &R,
    name: &[u8],
    at: u64,
    into: &mut [u8],
) -> Result<usize, Failed>
    ensures bound { ReadsAtMost result into.new }
    ensures text { OnOk result (IsUtf8 name.now) }
{
    match str::from_utf8(name) {
        Ok(name) => read_once(rt, name, at, into).map_err(|_| Failed),
        Err(_) => Err(Failed),
    }
}

impl<'r, R: std::rt::Files> Files for RealFiles<'r, R> {
    ghost bytes = { λ _ _. None };

    ghost faults = { λ f. f.faults };

    fn read_at(&mut self, name: &[u8], at: u64, into: &mut [u8]) -> Result<usize, Failed> {
        let result = read_named(self.rt, name, at, into);
        if result.is_err() {
            self.faults = self.faults.saturating_add(1);
        }
        result
    }
}

/// A writer of the system. A write of some bytes that takes none is a fault, as is each error.
#[derive(Drop)]
pub struct RealSink<W: Write> {
    writer: W,
    faults: u64,
}

impl<W: Write> RealSink<W> {
    pub fn new(writer: W) -> RealSink<W>
        ensures { result ≡ record { writer = writer; faults = 0 } }
    {
        RealSink { writer, faults: 0 }
    }
}

impl<W: Write> Sink for RealSink<W> {
    ghost written = { λ _. None };

    ghost faults = { λ s. s.faults };

    fn write(&mut self, piece: &[u8]) -> Result<usize, Failed> {
        match self.writer.write(piece) {
            Ok(n) if n > 0 || piece.is_empty() => Ok(n),
            _ => {
                self.faults = self.faults.saturating_add(1);
                Err(Failed)
            }
        }
    }
}
