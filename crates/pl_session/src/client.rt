//! The world of a script that runs on the client: what it prints goes to a sink as it comes, and its loops over workers
//! are carried out where they are asked for. The choices under which they are answered are kept. An extra is refused:
//! nothing that is built so far brings one.

ghost use Rattle.std.specs.Prelude.{◌≡◌, IfOk};
ghost use Rattle.pl_meaning.specs.Loops.{no_extra};

use pl_base::{Choice, ErrKind, NoMemory, Or, Seq, Text};
use pl_errors::message;
use pl_io::{Sink, WriteFault, write_all};
use pl_loop::run_loop;
use pl_meaning::{Answer, Event, ExtraAnswer, Question, Stop, World};
use pl_resolve::Resolved;
use pl_values::Env;
use std::alloc::Global;

/// The most levels of a run: of calls, operators, brackets, ranges and statements.
pub(crate) const DEPTH: u32 = 1_000;

/// A world that writes to a sink, and answers a program's loops, whose activities have so many turns each. It stops
/// where a write fails. The list of its choices is lent to it: a struct that owned memory would keep the sink that is
/// lent to it, and nobody would learn what was written there.
#[derive(Drop)]
pub(crate) struct Client<'k, K> {
    pub(crate) alloc: Global,
    pub(crate) program: &'k Resolved,
    pub(crate) turns: u64,
    pub(crate) entries: &'k mut Seq<Choice>,
    pub(crate) out: &'k mut K,
}

/// The answer to an extra.
fn refused(alloc: Global) -> Result<Answer, NoMemory>
    ensures { IfOk result (λ answer. answer ≡ no_extra) }
{
    let text = Text::of(alloc, message(ErrKind::WrongPlace).as_bytes())?;
    let raised = ExtraAnswer::Raised(ErrKind::WrongPlace, text, None);
    Ok(Answer::Extra(raised, Text::of(alloc, b"")?, 0))
}

impl<K: Sink> World for Client<'_, K> {
    ghost use Rattle.std.specs.Prelude.{Some};
    ghost use Rattle.pl_meaning.specs.Loops.{loop_rules};
    ghost use Rattle.pl_session.specs.Levels.{levels};
    ghost use Rattle.pl_session.specs.Told.{told};

    ghost log = { λ c. record { given = c.entries.now; shown = told (K.written c.out.now); stops = K.faults c.out.now; sink = Some c.out.ghost_name; rules = loop_rules c.program.now c.turns levels } };

    fn event(&mut self, event: Event) -> Result<(), Or<Stop>> {
        match event {
            Event::Print(text) => match write_all(self.out, text.bytes()) {
                Ok(()) => Ok(()),
                Err(WriteFault) => Err(Or::Is(Stop)),
            },
        }
    }

    fn ask(&mut self, env: &Env<'_>, question: Question<'_>) -> Result<Answer, Or<Stop>> {
        match question {
            Question::Loop(asked) => {
                let done = run_loop(self.alloc, self.program, asked, env, self.turns, DEPTH)?;
                self.entries.push(done.choice)?;
                Ok(done.answer)
            }
            Question::Extra(_, _operands, _) => {
                let answer = refused(self.alloc)?;
                Ok(answer)
            }
        }
    }
}
