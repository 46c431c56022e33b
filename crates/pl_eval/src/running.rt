//! Levels, and the run of a whole script.

ghost use Rattle.std.specs.Prelude.{◌≡◌, ◌<◌, ℕ, [], IfOk, Result, Ok, Err, Some, None};
ghost use Rattle.pl_base.specs.declared.errors.ErrKind.TheVariants.{TooDeep};
ghost use Rattle.pl_errors.specs.Errors.{error_of};
ghost use Rattle.pl_meaning.specs.declared.halt.Halt.{Halt};
ghost use Rattle.pl_meaning.specs.Promises.{Fails};
ghost use Rattle.pl_meaning.specs.Runs.{Run, run_of, Carries};
ghost use Rattle.pl_meaning.specs.Parts.{below, level_at};

use crate::statements::block;
use pl_access::fail;
use pl_base::{ErrKind, NoMemory, Place};
use pl_meaning::{Ended, Frame, Halt, Memory, World};
use pl_resolve::Resolved;
use pl_syntax::Stmt;
use pl_values::Env;
use sqlite_items::Items;
use std::alloc::Global;

/// Goes down by a level.
#[tactic(auto, unfolding(pl_meaning::specs::Parts::below))]
pub(crate) fn descend(
    alloc: Global,
    program: &Resolved,
    levels: u32,
    place: Place,
) -> Result<u32, Halt>
    ensures ok { IfOk result (λ n. below program.now levels ≡ Some (level_at program.now (below program.now n))) }
    ensures less { IfOk result (λ n. n < levels) }
    ensures none { (x : Halt) → result ≡ Err x → below program.now levels ≡ None }
    ensures err { (x : Halt) → result ≡ Err x → Fails (error_of TooDeep place) x }
{
    if levels == 0 {
        return Err(fail(alloc, ErrKind::TooDeep, place));
    }
    Ok(levels - 1)
}

/// Carries out statements of a scope from this workspace, with so many turns and levels.
pub fn run_body<'b, W: World>(
    alloc: Global,
    program: &Resolved,
    frame: Frame,
    body: &Items<Stmt>,
    start: Env<'b>,
    world: &mut W,
    turns: u64,
    depth: u32,
) -> Result<Ended<'b>, NoMemory>
    requires { (W.log world.old).given ≡ [] }
    ensures { Carries (run_of program.now frame body.now start.entry turns depth (W.log world.old).rules (W.log world.new).given) result (W.log world.old) (W.log world.new) }
{
    let mut memory = Memory {
        env: start,
        turns,
        calls: 0,
    };
    match block(alloc, program, depth, frame, &mut memory, world, body) {
        Ok(_) => Ok(Ended::Done(memory.env)),
        Err(Halt::Raise(error)) => Ok(Ended::Raised(error)),
        Err(Halt::Stopped) => Ok(Ended::Stopped),
        Err(Halt::Memory) => Err(NoMemory),
    }
}

/// Carries out a script from this workspace, with so many turns and levels.
#[tactic(auto, unfolding(pl_meaning::specs::Runs::Run))]
pub fn run<'b, W: World>(
    alloc: Global,
    program: &Resolved,
    start: Env<'b>,
    world: &mut W,
    turns: u64,
    depth: u32,
) -> Result<Ended<'b>, NoMemory>
    requires { (W.log world.old).given ≡ [] }
    ensures { Carries (Run program.now start.entry turns depth (W.log world.old).rules (W.log world.new).given) result (W.log world.old) (W.log world.new) }
{
    let outermost = Frame {
        client: true,
        scope: 0,
        given: 0,
        wanted: 0,
        ends: None,
    };
    run_body(
        alloc,
        program,
        outermost,
        &program.program.body,
        start,
        world,
        turns,
        depth,
    )
}
