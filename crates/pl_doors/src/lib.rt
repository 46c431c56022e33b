//! The doors of the language, tried: a world that answers two extras, and runs of scripts over it.
//!
//! Nothing of a session stands on this crate. It shows that a run promises its definition over any table of
//! extras and any world that keeps its rules: what is asked, when its text is printed, where its errors stand, and
//! that away from the client nothing is asked.
#![tactic(auto)]

mod desk;
mod trying;

pub use desk::Desk;
pub use trying::try_script;

#[cfg(test)]
mod tests;
