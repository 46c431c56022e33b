//! How a run ended.

use pl_base::ScriptError;
use pl_values::Env;

/// How a run ended: behind its last statement, with its workspace; by an error that nothing caught; or where its
/// world stopped it.
#[derive(Drop)]
pub enum Ended<'b> {
    Done(Env<'b>),
    Raised(ScriptError),
    Stopped,
}
