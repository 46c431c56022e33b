//! Extras: questions to the world of what the language doesn't have.

ghost use Rattle.std.specs.Prelude.{◌≡◌, ℕ, IfOk, Result, Ok, Err};
ghost use Rattle.pl_meaning.specs.declared.halt.Halt.{Halt};
ghost use Rattle.pl_meaning.specs.Extras.{counted as counted_with, count_calls as counting, replied as replied_part, heard as heard_part, extra as extra_part};
ghost use Rattle.pl_meaning.specs.Logs.{Workspace, Log};
ghost use Rattle.pl_meaning.specs.Promises.{Went, Halts, Keeps, at};

use crate::access::take_turn;
use crate::asking::ask;
use crate::failing::fail;
use crate::telling::tell;
use pl_base::{ErrKind, Place, ScriptError, Seq};
use pl_meaning::{Answer, Event, ExtraAnswer, Halt, Memory, Question, World};
use pl_values::Value;
use std::alloc::Global;

/// The most calls of a session.
const MOST_CALLS: u64 = 100_000;

/// So many calls with those that were started before.
fn counted(calls: u32, more: u32) -> u32
    ensures { result ≡ counted_with calls more }
{
    (u64::from(calls) + u64::from(more)).min(MOST_CALLS) as u32
}

/// Counts the calls that an extra started.
#[tactic(auto, unfolding(pl_meaning::specs::Extras::count_calls))]
fn count_calls<W: World>(memory: &mut Memory<'_>, _world: &W, more: u32)
    ensures { Went (counting more) (at memory.old (W.log _world.now)) tt (at memory.new (W.log _world.now)) }
{
    memory.calls = counted(memory.calls, more);
}

/// The outputs of an extra, or its error: at its own place, if it has one.
fn replied(place: Place, reply: ExtraAnswer) -> Result<Vec<Value>, Halt>
    ensures ok { IfOk result (λ gained. (env : Workspace) (turns calls : ℕ) (l : Log) → Went (replied_part place reply) (record { env = env; turns = turns; calls = calls; log = l }) gained.items (record { env = env; turns = turns; calls = calls; log = l })) }
    ensures err { (x : Halt) → result ≡ Err x → (env : Workspace) (turns calls : ℕ) (l : Log) → Halts (replied_part place reply) (record { env = env; turns = turns; calls = calls; log = l }) x (record { env = env; turns = turns; calls = calls; log = l }) }
{
    match reply {
        ExtraAnswer::Values(outputs) => Ok(outputs.into_vec()),
        ExtraAnswer::Raised(kind, text, at) => Err(Halt::Raise(ScriptError {
            kind,
            place: at.unwrap_or(place),
            text,
        })),
    }
}

/// Hears an answer: its text is printed, its calls are counted, and then its outputs are given.
fn heard<W: World>(
    alloc: Global,
    memory: &mut Memory<'_>,
    world: &mut W,
    place: Place,
    answer: Answer,
) -> Result<Vec<Value>, Halt>
    ensures ok { IfOk result (λ gained. Went (heard_part place answer) (at memory.old (W.log world.old)) gained.items (at memory.new (W.log world.new))) }
    ensures err { (x : Halt) → result ≡ Err x → Halts (heard_part place answer) (at memory.old (W.log world.old)) x (at memory.new (W.log world.new)) }
    ensures keeps { Keeps (at memory.old (W.log world.old)) (at memory.new (W.log world.new)) }
{
    match answer {
        Answer::Extra(reply, text, calls) => {
            tell(memory, world, Event::Print(text))?;
            count_calls(memory, world, calls);
            replied(place, reply)
        }
        Answer::Raised(_) => Err(fail(alloc, ErrKind::WrongPlace, place)),
        Answer::Looped(_) => Err(fail(alloc, ErrKind::WrongPlace, place)),
    }
}

/// Asks the world for an extra, which takes a turn.
#[tactic(auto, using(pl_meaning::proofs::Cut::cut), unfolding(pl_meaning::specs::Extras::extra))]
pub fn extra<W: World>(
    alloc: Global,
    memory: &mut Memory<'_>,
    world: &mut W,
    place: Place,
    number: usize,
    operands: Vec<Value>,
    wanted: usize,
) -> Result<Vec<Value>, Halt>
    ensures ok { IfOk result (λ gained. Went (extra_part place number operands.items wanted) (at memory.old (W.log world.old)) gained.items (at memory.new (W.log world.new))) }
    ensures err { (x : Halt) → result ≡ Err x → Halts (extra_part place number operands.items wanted) (at memory.old (W.log world.old)) x (at memory.new (W.log world.new)) }
    ensures keeps { Keeps (at memory.old (W.log world.old)) (at memory.new (W.log world.new)) }
{
    let (Ok(number), Ok(wanted)) = (u32::try_from(number), u32::try_from(wanted)) else {
        return Err(Halt::Memory);
    };
    take_turn(alloc, memory, world, place)?;
    let question = Question::Extra(number, Seq::of(operands), wanted);
    let answer = ask(memory, world, question)?;
    heard(alloc, memory, world, place, answer)
}
