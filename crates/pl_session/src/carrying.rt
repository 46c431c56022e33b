//! A script is carried out over a sink.

ghost use Rattle.std.specs.Prelude.{◌≡◌, [], length, IfOk};
ghost use Rattle.pl_meaning.specs.Names.{names_in};
ghost use Rattle.pl_session.specs.Printing.{start_of, run_of, CarriedOut, Fated};

use crate::client::{Client, DEPTH};
use pl_base::{Choice, NoMemory, ScriptError, Seq};
use pl_eval::run;
use pl_io::Sink;
use pl_meaning::Ended;
use pl_resolve::Resolved;
use pl_values::Env;
use std::alloc::Global;
use std::mem;

/// How a script ended: behind its last statement, by an error, or where a write failed.
#[derive(Debug, Drop)]
pub(crate) enum Fate {
    Done,
    Raised(ScriptError),
    Stopped,
}

/// How a script was carried out, and the choices that were made on the way.
#[derive(Debug, Drop)]
pub(crate) struct Carried {
    pub(crate) fate: Result<Fate, NoMemory>,
    pub(crate) entries: Seq<Choice>,
}

/// How many variables the script has.
fn slots(resolved: &Resolved) -> Result<u32, NoMemory>
    ensures { IfOk result (λ n. n ≡ length (names_in resolved.now 0)) }
{
    let count = match resolved.scopes.items().get(0) {
        Some(scope) => scope.len(),
        None => 0,
    };
    u32::try_from(count).map_err(|_| NoMemory)
}

/// What a run's end is for a session; the workspace is let go.
fn fate_of(ended: Result<Ended<'_>, NoMemory>) -> Result<Fate, NoMemory>
    ensures { Fated ended.entry result }
{
    match ended {
        Ok(Ended::Done(_)) => Ok(Fate::Done),
        Ok(Ended::Raised(error)) => Ok(Fate::Raised(error)),
        Ok(Ended::Stopped) => Ok(Fate::Stopped),
        Err(e) => Err(e),
    }
}

/// Carries a script out over its world, from a workspace without values; the choices are taken out of the world.
fn run_over<K: Sink>(start: Env<'_>, client: &mut Client<'_, K>) -> Carried
    requires start { start ≡ start_of client.old.program.now }
    requires fresh { client.old.entries.now ≡ [] }
    ensures carried { CarriedOut (run_of client.old.program.now client.old.turns result.entries) result.fate (K.written client.old.out.now) (K.written client.new.out.now) (K.faults client.old.out.now) (K.faults client.new.out.now) }
    ensures same_reference { client.new.out.ghost_name ≡ client.old.out.ghost_name }
{
    let alloc = client.alloc;
    let program = client.program;
    let turns = client.turns;
    let ended = run(alloc, program, start, client, turns, DEPTH);
    let fate = fate_of(ended);
    let entries = mem::replace(client.entries, Seq::empty(alloc));
    Carried { fate, entries }
}

/// The workspace in which a script begins.
fn start_in(alloc: Global, resolved: &Resolved) -> Result<Env<'_>, NoMemory>
    ensures { IfOk result (λ e. e ≡ start_of resolved.now) }
{
    Env::new(alloc, slots(resolved)?)
}

/// Carries a script out; what it prints goes to the sink as it comes.
pub(crate) fn carry_out<K: Sink>(
    alloc: Global,
    resolved: &Resolved,
    turns: u64,
    out: &mut K,
) -> Carried
    ensures { CarriedOut (run_of resolved.now turns result.entries) result.fate (K.written out.old) (K.written out.new) (K.faults out.old) (K.faults out.new) }
{
    match start_in(alloc, resolved) {
        Err(e) => Carried {
            fate: Err(e),
            entries: Seq::empty(alloc),
        },
        Ok(start) => {
            let mut entries = Seq::empty(alloc);
            let mut client = Client {
                alloc,
                program: resolved,
                turns,
                entries: &mut entries,
                out,
            };
            run_over(start, &mut client)
        }
    }
}
