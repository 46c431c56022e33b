//! A sink in memory. It tells all that was written to it, has a stated room, and fails the calls of which
//! it was given the numbers.

ghost use Rattle.std.specs.Prelude.{◌≡◌, ◌≤◌, ◌<◌, [], None, Some, length, IfOk, is_ok, vec_len, vec_capacity};
ghost use Rattle.std.specs.Io.{WritesAtMost};
ghost use Rattle.std.specs.Io.KnownBytes.{WriteAppends};
ghost use Rattle.pl_io.specs.Faults.{HasCause};
ghost use Rattle.pl_io.specs.Counted.{counted, faults_after, takes};

use crate::outside::{Failed, Sink};
use pl_base::NoMemory;
use std::alloc::Global;

/// Bytes in memory, at most as many as its room. A piece that is longer than the room left isn't taken,
/// not even in part: that is a fault.
#[derive(Debug, Drop)]
pub struct MemSink {
    bytes: Vec<u8>,
    room: u32,
    fails: Vec<u64>,
    calls: u64,
    faults: u64,
    // The memory is had when the sink is made, so that no write wants any.
    ghost within: { vec_len bytes ≤ room },
    ghost reserved: { room ≤ vec_capacity bytes },
}

impl MemSink {
    /// `fails` has the numbers, from 1, of the calls that are to fail.
    pub fn new(alloc: Global, room: u32, fails: Vec<u64>) -> Result<MemSink, NoMemory>
        ensures empty { IfOk result (λ s. s.bytes.items ≡ []) }
        ensures room { IfOk result (λ s. s.room ≡ room) }
        ensures fails { IfOk result (λ s. s.fails ≡ fails) }
        ensures fresh { IfOk result (λ s. (s.calls ≡ 0) × (s.faults ≡ 0)) }
    {
        let bytes = Vec::with_capacity(alloc, room as usize)?;
        Ok(MemSink {
            bytes,
            room,
            fails,
            calls: 0,
            faults: 0,
        })
    }

    pub fn written(&self) -> &[u8]
        ensures { result.now ≡ self.now.bytes.items }
    {
        self.bytes.as_slice()
    }

    /// The call itself, but for its counts.
    fn attempt(&mut self, piece: &[u8]) -> Result<usize, Failed>
        ensures exact { is_ok result ≡ takes self.old.fails.items self.old.calls self.old.room self.old.bytes.items piece.now }
        ensures count { IfOk result (λ n. n ≡ length piece.now) }
        ensures bytes { WriteAppends (Some self.old.bytes.items) (Some self.new.bytes.items) result piece.now }
        ensures kept { (self.new.room ≡ self.old.room) × (self.new.fails ≡ self.old.fails) }
        ensures counts { (self.new.calls ≡ self.old.calls) × (self.new.faults ≡ self.old.faults) }
    {
        let left = self.room as usize - self.bytes.len();
        if self.fails.contains(&self.calls) || piece.len() > left {
            return Err(Failed);
        }
        match self.bytes.extend_from_slice(piece) {
            Ok(()) => Ok(piece.len()),
            Err(_) => Err(Failed),
        }
    }
}

impl Sink for MemSink {
    ghost written = { λ s. Some s.bytes.items };

    ghost faults = { λ s. s.faults };

    fn write(&mut self, piece: &[u8]) -> Result<usize, Failed>
        ensures bound { WritesAtMost result piece.now }
        ensures some { IfOk result (λ n. 0 < length piece.now → 0 < n) }
        ensures bytes { WriteAppends (Some self.old.bytes.items) (Some self.new.bytes.items) result piece.now }
        ensures silent { Some self.old.bytes.items ≡ None → Some self.new.bytes.items ≡ None }
        ensures cause { HasCause self.old.faults self.new.faults result }
        ensures exact { is_ok result ≡ takes self.old.fails.items (counted self.old.calls) self.old.room self.old.bytes.items piece.now }
        ensures count { IfOk result (λ n. n ≡ length piece.now) }
        ensures counts { (self.new.calls ≡ counted self.old.calls) × (self.new.faults ≡ faults_after self.old.faults result) }
        ensures kept { (self.new.room ≡ self.old.room) × (self.new.fails ≡ self.old.fails) }
    {
        self.calls = self.calls.saturating_add(1);
        let result = self.attempt(piece);
        if result.is_err() {
            self.faults = self.faults.saturating_add(1);
        }
        result
    }
}
