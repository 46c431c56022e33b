//! The values of a script, and the workspaces that hold them.
//!
//! A workspace has a slot for each variable of its scope. Contracts see the list of its slots, empty or
//! with a value, and nothing of how it is kept: a workspace of its own, or one that keeps its changes
//! over a base that it borrows. The values are those of the language of the MathWorks Parallel Computing
//! Toolbox User's Guide, narrowed to arrays of two dimensions.
#![tactic(auto)]

mod env;
mod layers;
mod plain;
mod slots;
mod value;

pub use env::Env;
pub use value::{CoPart, PartScheme, Serial, Value};
