//! A session: the words of the command line, the script that they name, and what becomes of it.
//!
//! The contract of `top` is what parlab promises: for each status what was written, of what file's bytes, and under
//! which choices of the journal. Where a run ends, the output is exactly what the script's run by the definition
//! (`pl_meaning`) prints; where it raises, the notes have its line, too; a source is refused exactly as `pl_source`
//! says; and where a write fails or memory is wanting, what was written is a beginning. The command line is parlab's
//! own; the language is that of the MathWorks Parallel Computing Toolbox User's Guide.
#![tactic(auto)]

mod carrying;
mod client;
mod ended;
mod notes;
mod running;
mod session;
mod words;

pub use ended::{Ended, Journal, Status};
pub use session::top;
