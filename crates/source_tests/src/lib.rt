//! Tests of the crates of sources and names, and of files and sinks, which have none of their own: a crate with tests
//! is proved twice.
//!
//! Each module is of the crate of its name. What these tests show is what no clause says: that the grammar and the
//! printed text mean what their reader takes them to mean, that a call succeeds at all, and what real files take and
//! give. Nothing stands on this crate.
#![tactic(auto)]

#[cfg(test)]
mod io;
#[cfg(test)]
mod lex;
#[cfg(test)]
mod parse;
#[cfg(test)]
mod print;
#[cfg(test)]
mod resolve;
