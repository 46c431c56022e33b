//! Which variables a script has, and what its names stand for.
//!
//! A script and each of its functions is a scope of its own. A variable of a scope has a slot: its place
//! among the scope's variables in the order of their first occurrence. What every other name stands for
//! is a function, by its number. The rules are those of the MATLAB documentation on workspaces, narrowed.
#![tactic(auto)]

mod expressions;
mod extras;
mod fault;
mod functions;
mod occurrence;
mod resolved;
mod resolving;
mod scope;
mod statements;

pub use extras::{EXTRAS, extra_table};
pub use fault::NameFault;
pub use functions::{Functions, function_number, is_function_name, name_behind};
pub use occurrence::{Occurrence, Use};
pub use pl_values::{CoPart, Env, PartScheme, Serial, Value};
pub use resolved::Resolved;
pub use resolving::{resolve, resolve_beside};
pub use scope::Scope;
pub use statements::occurrences;
