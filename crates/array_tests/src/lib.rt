//! Tests of the crates of arrays and values, which have none of their own: a crate with tests is proved twice.
//!
//! Each module is of the crate of its name. Most have a table, a call a line with the answer that the rules give, worked
//! out apart from the code. What such a table shows is what no clause says: that the definitions mean what their reader
//! takes them to mean, and that a call succeeds at all. Nothing stands on this crate.
#![tactic(auto)]

#[cfg(test)]
mod array;
#[cfg(test)]
mod builtin;
#[cfg(test)]
mod errors;
#[cfg(test)]
mod index;
#[cfg(test)]
mod lines;
#[cfg(test)]
mod operators;
#[cfg(test)]
mod setfn;
#[cfg(test)]
mod text;
#[cfg(test)]
mod values;
#[cfg(test)]
mod written;
