//! A file read to its end under a limit, and bytes written to theirs.

ghost use Rattle.std.specs.Prelude.{◌≡◌, ◌+◌, ◌<◌, ◌≤◌, ℕ, List, [], None, Ok, Err, take, length, Result, IfOk, IfSome, OnOk, OnErr, IfErr, IsOk, vec_len};
ghost use Rattle.std.specs.Io.KnownBytes.{Appends};
ghost use Rattle.pl_base.specs.declared.memory.Or.{Or};
ghost use Rattle.pl_io.specs.Counted.{counted};
ghost use Rattle.pl_io.specs.Faults.{HasCause};
ghost use Rattle.pl_io.specs.Told.{Stays, IsFront, AppendsPrefix};
ghost use Rattle.pl_io.specs.Whole.{IsWhole, IsTooLong};

use crate::outside::{Failed, Files, Sink};
use pl_base::{Or, Seq};
use std::alloc::Global;
use thiserror::Error;

/// The greatest number of bytes that are asked for at once.
const PIECE: usize = 65536;

/// Why a file wasn't read whole.
#[derive(Debug, Drop, Error)]
pub enum ReadFault {
    #[error("a read failed")]
    Failed,
    /// The file is over the limit; these are its first bytes, one more than the limit.
    #[error("the file is too long")]
    TooLong(Seq<u8>),
}

/// A write failed.
#[derive(Clone, Copy, Debug, PartialEq, Eq, Error)]
#[error("a write failed")]
pub struct WriteFault;

/// Reads the file of a name to its end. One of over `limit` bytes is too long: nothing past its first
/// `limit + 1` bytes is read.
pub fn read_all<F: Files>(
    alloc: Global,
    files: &mut F,
    name: &[u8],
    limit: u32,
) -> Result<Vec<u8>, Or<ReadFault>>
    ensures whole { IfOk result (λ v. IsWhole (F.bytes files.old name.now) limit v.items) }
    ensures too_long { (got : List ℕ) → result ≡ Err (Or.Is (ReadFault.TooLong got)) → IsTooLong (F.bytes files.old name.now) limit got }
    ensures told { Stays (F.bytes files.old) (F.bytes files.new) }
    ensures later { F.faults files.old ≤ F.faults files.new }
    ensures failed { result ≡ Err (Or.Is ReadFault.Failed) → F.faults files.new ≡ counted (F.faults files.old) }
    ensures grew { F.faults files.old < F.faults files.new → result ≡ Err (Or.Is ReadFault.Failed) }
    ensures kept { OnOk result (F.faults files.new ≡ F.faults files.old) }
{
    let most = limit as usize + 1;
    match read_front(alloc, files, name, most) {
        Ok(bytes) => {
            if bytes.len() < most {
                Ok(bytes)
            } else {
                Err(Or::Is(ReadFault::TooLong(Seq::of(bytes))))
            }
        }
        Err(Or::Memory) => Err(Or::Memory),
        Err(Or::Is(Failed)) => Err(Or::Is(ReadFault::Failed)),
    }
}

/// Reads the first `most` bytes of the file, or all where it has fewer.
fn read_front<F: Files>(
    alloc: Global,
    files: &mut F,
    name: &[u8],
    most: usize,
) -> Result<Vec<u8>, Or<Failed>>
    requires { 0 < most }
    ensures within { IfOk result (λ v. vec_len v ≤ most) }
    ensures front { IfOk result (λ v. IfSome (F.bytes files.old name.now) (λ bs. v.items ≡ take most bs)) }
    ensures told { Stays (F.bytes files.old) (F.bytes files.new) }
    ensures later { F.faults files.old ≤ F.faults files.new }
    ensures failed { result ≡ Err (Or.Is record {}) → F.faults files.new ≡ counted (F.faults files.old) }
    ensures grew { F.faults files.old < F.faults files.new → result ≡ Err (Or.Is record {}) }
{
    let mut piece = vec![in alloc; 0u8; most.min(PIECE)]?;
    let mut bytes = Vec::new(alloc);
    while bytes.len() < most {
        let want = piece.len().min(most - bytes.len());
        if read_piece(files, name, &mut bytes, &mut piece[..want])? == 0 {
            return Ok(bytes);
        }
    }
    Ok(bytes)
}

/// Reads once behind the bytes that were read already, and answers how many came.
fn read_piece<F: Files>(
    files: &mut F,
    name: &[u8],
    bytes: &mut Vec<u8>,
    piece: &mut [u8],
) -> Result<usize, Or<Failed>>
    requires { 0 < length piece.old }
    ensures len { IfOk result (λ n. vec_len bytes.new ≡ vec_len bytes.old + n) }
    ensures bound { IfOk result (λ n. n ≤ length piece.old) }
    ensures front { IfOk result (λ n. IfSome (F.bytes files.old name.now) (λ bs. IsFront bs bytes.old.items → IsFront bs bytes.new.items)) }
    ensures ends { IfOk result (λ n. IfSome (F.bytes files.old name.now) (λ bs. n ≡ 0 → length bs ≤ vec_len bytes.new)) }
    ensures told { Stays (F.bytes files.old) (F.bytes files.new) }
    ensures later { F.faults files.old ≤ F.faults files.new }
    ensures failed { result ≡ Err (Or.Is record {}) → F.faults files.new ≡ counted (F.faults files.old) }
    ensures grew { F.faults files.old < F.faults files.new → result ≡ Err (Or.Is record {}) }
{
    let count = files
        .read_at(name, bytes.len() as u64, piece)
        .map_err(Or::Is)?;
    bytes.extend_from_slice(&piece[..count])?;
    Ok(count)
}

/// Writes all the bytes, in as many pieces as the sink takes.
pub fn write_all<K: Sink>(sink: &mut K, bytes: &[u8]) -> Result<(), WriteFault>
    ensures all { OnOk result (Appends (K.written sink.old) (K.written sink.new) bytes.now) }
    ensures prefix { OnErr result (AppendsPrefix (K.written sink.old) (K.written sink.new) bytes.now) }
    ensures silent { K.written sink.old ≡ None → K.written sink.new ≡ None }
    ensures cause { HasCause (K.faults sink.old) (K.faults sink.new) result }
    ensures grew { K.faults sink.old < K.faults sink.new → result ≡ Err (record {}) }
    ensures nothing { bytes.now ≡ [] → (sink.new ≡ sink.old) × IsOk result }
{
    let mut at = 0;
    while at < bytes.len() {
        match sink.write(&bytes[at..]) {
            Ok(count) => at += count,
            Err(Failed) => return Err(WriteFault),
        }
    }
    Ok(())
}
