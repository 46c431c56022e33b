//! What was wanted held against what came, and the counts of both.

use crate::running::{RAISED, piece};
use pl_base::NoMemory;
use std::alloc::Global;
use std::io;

/// An input of which something else came than was wanted.
#[derive(Drop)]
struct Difference {
    statements: Vec<u8>,
    wanted: Vec<u8>,
    got: Vec<u8>,
}

/// The inputs of one kind: how many there were, how many raised an error, of how many something else came than
/// was wanted, and the first of these.
#[derive(Drop)]
pub struct Tally {
    inputs: u64,
    raised: u64,
    differ: u64,
    first: Option<Difference>,
}

impl Tally {
    pub fn new() -> Tally {
        Tally {
            inputs: 0,
            raised: 0,
            differ: 0,
            first: None,
        }
    }

    pub fn agrees(&self) -> bool {
        self.differ == 0
    }

    /// Holds all inputs of a script against what was wanted of each.
    pub fn compare(
        &mut self,
        alloc: Global,
        inputs: &[Vec<u8>],
        wanted: &[Vec<u8>],
        got: &[Vec<u8>],
    ) -> Result<(), NoMemory> {
        for (place, statements) in inputs.iter().enumerate() {
            let wanted = piece(wanted, place);
            let got = piece(got, place);
            self.count(alloc, statements, wanted, got)?;
        }
        Ok(())
    }

    /// Counts one input. Each prints something, so nothing is no right output.
    fn count(
        &mut self,
        alloc: Global,
        statements: &[u8],
        wanted: &[u8],
        got: &[u8],
    ) -> Result<(), NoMemory> {
        self.inputs = self.inputs.saturating_add(1);
        if got.ends_with(RAISED) {
            self.raised = self.raised.saturating_add(1);
        }
        if wanted != got || got.is_empty() {
            self.differ = self.differ.saturating_add(1);
            self.keep_first(alloc, statements, wanted, got)?;
        }
        Ok(())
    }

    fn keep_first(
        &mut self,
        alloc: Global,
        statements: &[u8],
        wanted: &[u8],
        got: &[u8],
    ) -> Result<(), NoMemory> {
        if self.first.is_none() {
            self.first = Some(Difference {
                statements: Vec::from_slice(alloc, statements)?,
                wanted: Vec::from_slice(alloc, wanted)?,
                got: Vec::from_slice(alloc, got)?,
            });
        }
        Ok(())
    }

    pub fn report(&self, rt: &impl Print, name: &str) -> io::Result<()> {
        println!(rt;
            "{name}: {} inputs, {} differ, {} raise",
            self.inputs, self.differ, self.raised
        )?;
        if let Some(first) = &self.first {
            println!(rt;
                "  the first that differs: \"{}\"",
                first.statements.escape_ascii()
            )?;
            println!(rt; "  wanted \"{}\"", first.wanted.escape_ascii())?;
            println!(rt; "  got    \"{}\"", first.got.escape_ascii())?;
        }
        Ok(())
    }
}
