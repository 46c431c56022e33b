//! A script is run over a desk.

ghost use Rattle.std.specs.Prelude.{◌≡◌, [], length, replicate, None};
ghost use Rattle.pl_meaning.specs.Names.{names_in};
ghost use Rattle.pl_meaning.specs.Runs.{run_of};
ghost use Rattle.pl_doors.specs.Desk.{desk_rules, place_of, Tries};

use crate::desk::Desk;
use pl_base::{NoMemory, ScriptError};
use pl_eval::run_body;
use pl_meaning::{Ended, Frame};
use pl_resolve::Resolved;
use pl_values::Env;
use std::alloc::Global;

/// What a script came to: what it printed, and its error, if it raised one.
#[derive(Drop)]
pub struct Tried {
    pub text: Vec<u8>,
    pub error: Option<ScriptError>,
}

/// How many slots the script's workspace has.
fn slots(program: &Resolved) -> usize
    ensures { result ≡ length (names_in program.now 0) }
{
    match program.scopes.items().first() {
        Some(scope) => scope.len(),
        None => 0,
    }
}

/// Runs a script with so many turns over a new desk, on the client or away from it.
pub fn try_script(
    alloc: Global,
    program: &Resolved,
    client: bool,
    turns: u64,
) -> Result<Tried, NoMemory>
    ensures { Tries (run_of program.now (place_of client) program.now.program.body (replicate (length (names_in program.now 0)) None) turns 1000 (desk_rules []) []) result }
{
    let Ok(slots) = u32::try_from(slots(program)) else {
        return Err(NoMemory);
    };
    let mut desk = Desk {
        alloc,
        text: Vec::new(alloc),
        jobs: Vec::new(alloc),
    };
    let frame = Frame {
        client,
        scope: 0,
        given: 0,
        wanted: 0,
        ends: None,
    };
    let start = Env::new(alloc, slots)?;
    let body = &program.program.body;
    let error = match run_body(alloc, program, frame, body, start, &mut desk, turns, 1_000)? {
        Ended::Done(_) => None,
        Ended::Raised(error) => Some(error),
        Ended::Stopped => return Err(NoMemory),
    };
    Ok(Tried {
        text: desk.text,
        error,
    })
}
