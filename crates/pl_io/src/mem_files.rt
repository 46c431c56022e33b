//! Files in memory. They tell all their bytes, and fail the calls of which they were given the numbers,
//! so that a test can put a fault at any place.

ghost use Rattle.std.specs.Prelude.{◌≡◌, ℕ, ◌-◌, List, length, take, drop, min, nat_eq, position, option_map, option_copied};
ghost use Rattle.std.specs.Result.{result_ok};
ghost use Rattle.std.specs.Cmp.Lexicographic.{pointwise};
ghost use Rattle.std.specs.Io.{ReadsAtMost};
ghost use Rattle.pl_io.specs.Faults.{HasCause};
ghost use Rattle.pl_io.specs.Told.{Stays, Reads};
ghost use Rattle.pl_io.specs.Counted.{counted, faults_after, gives};
ghost use Rattle.pl_io.specs.Named.{at_name, content};

use crate::outside::{Failed, Files};
use pl_base::Word;

/// Files in memory: the bytes of a name stand in `bytes` where the name first stands in `names`. A name
/// that has none can't be opened.
#[derive(Debug, Drop)]
pub struct MemFiles {
    names: Vec<Word>,
    bytes: Vec<Vec<u8>>,
    fails: Vec<u64>,
    calls: u64,
    faults: u64,
}

impl MemFiles {
    /// `fails` has the numbers, from 1, of the calls that are to fail.
    pub fn new(names: Vec<Word>, bytes: Vec<Vec<u8>>, fails: Vec<u64>) -> MemFiles
        ensures fresh { result ≡ record { names = names; bytes = bytes; fails = fails; calls = 0; faults = 0 } }
        ensures told { (name : List ℕ) → content result name ≡ option_map (λ v. v.items) (at_name names.items bytes.items name) }
    {
        MemFiles {
            names,
            bytes,
            fails,
            calls: 0,
            faults: 0,
        }
    }

    /// The call itself, but for its counts.
    fn attempt(&self, name: &[u8], at: u64, into: &mut [u8]) -> Result<usize, Failed>
        ensures exact { result_ok result ≡ gives self.now.fails.items self.now.calls (content self.now name.now) at (length into.old) }
        ensures bound { ReadsAtMost result into.new }
        ensures part { Reads (content self.now name.now) at result into.new }
    {
        if self.fails.contains(&self.calls) {
            return Err(Failed);
        }
        match find(&self.names, &self.bytes, name) {
            Some(content) => Ok(copy_front(content, at, into)),
            None => Err(Failed),
        }
    }
}

/// Where a name first stands.
fn place_of(names: &[Word], name: &[u8]) -> Option<usize>
    ensures { result ≡ position (λ n. pointwise nat_eq n name.now) names.now }
{
    names.iter().position(|n| n.bytes() == name)
}

/// What stands in `bytes` where the name first stands in `names`.
fn find<'a>(names: &[Word], bytes: &'a [Vec<u8>], name: &[u8]) -> Option<&'a [u8]>
    ensures { option_copied result ≡ option_map (λ v. v.items) (at_name names.now bytes.now name.now) }
{
    let at = place_of(names, name)?;
    let found = bytes.get(at)?;
    Some(found.as_slice())
}

/// Copies what there is from `at` on, as far as there is room, and answers how many bytes that was.
fn copy_front(bytes: &[u8], at: u64, into: &mut [u8]) -> usize
    ensures count { result ≡ min (length into.old) (length bytes.now - at) }
    ensures same { take result into.new ≡ take result (drop at bytes.now) }
{
    let start = bytes.len().min(at as usize);
    let count = into.len().min(bytes.len() - start);
    into[..count].copy_from_slice(&bytes[start..start + count]);
    count
}

impl Files for MemFiles {
    ghost bytes = { content };

    ghost faults = { λ f. f.faults };

    fn read_at(&mut self, name: &[u8], at: u64, into: &mut [u8]) -> Result<usize, Failed>
        ensures bound { ReadsAtMost result into.new }
        ensures told { Stays (content self.old) (content self.new) }
        ensures part { Reads (content self.old name.now) at result into.new }
        ensures cause { HasCause self.old.faults self.new.faults result }
        ensures exact { result_ok result ≡ gives self.old.fails.items (counted self.old.calls) (content self.old name.now) at (length into.old) }
        ensures after { self.new ≡ record self.old { calls = counted self.old.calls; faults = faults_after self.old.faults result } }
    {
        self.calls = self.calls.saturating_add(1);
        let result = self.attempt(name, at, into);
        if result.is_err() {
            self.faults = self.faults.saturating_add(1);
        }
        result
    }
}
