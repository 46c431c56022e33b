//! A case: what the program is given, and what is wanted of it.

use pl_base::{Seq, Text, Word};

/// What a sink can hold, and the numbers of its calls that are to fail.
#[derive(Debug, Drop)]
pub struct Limits {
    pub room: u32,
    pub fails: Seq<u64>,
}

/// Files in memory, as two lists side by side, and the numbers of the reads that are to fail.
#[derive(Debug, Drop)]
pub struct Given {
    pub names: Seq<Word>,
    pub bytes: Seq<Text>,
    pub fails: Seq<u64>,
}

/// What a run is to leave. The output is one of those that are allowed.
#[derive(Debug, Drop)]
pub struct Wanted {
    pub status: u8,
    pub outs: Seq<Text>,
    pub notes: Text,
    /// The choices of its journal, a line each, where they matter.
    pub choices: Option<Text>,
}

#[derive(Debug, Drop)]
pub struct Case {
    pub name: Text,
    /// The line on which the case begins.
    pub line: u64,
    pub words: Seq<Word>,
    pub given: Given,
    pub out: Limits,
    pub notes: Limits,
    pub wanted: Wanted,
    /// The same is wanted with each of several counts of workers.
    pub with_all_workers: bool,
}
