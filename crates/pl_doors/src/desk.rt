//! A world that answers two extras.

ghost use Rattle.std.specs.Prelude.{◌≡◌, ◌+◌, [], ◌∷◌, IfOk};
ghost use Rattle.pl_doors.specs.Desk.{made, told};

use pl_base::{ErrKind, NoMemory, Or, Place, Seq, Text};
use pl_meaning::{Answer, Event, ExtraAnswer, Question, Stop, World};
use pl_operators::number;
use pl_values::{Env, Value};
use std::alloc::Global;

/// A world that keeps what it is told to print. It makes jobs and counts operands; any other question is
/// beyond its memory.
#[derive(Drop)]
pub struct Desk {
    pub(crate) alloc: Global,
    /// What was printed.
    pub text: Vec<u8>,
    /// A value for each job that was made.
    pub jobs: Vec<Value>,
}

/// A job is made, which is said and starts two calls.
fn make(alloc: Global, job: u32) -> Result<Answer, NoMemory>
    ensures { IfOk result (λ a. a ≡ made job) }
{
    let mut outputs = Vec::new(alloc);
    outputs.push(Value::Opaque(1, job))?;
    let reply = ExtraAnswer::Values(Seq::of(outputs));
    Ok(Answer::Extra(reply, Text::of(alloc, b"made\n")?, 2))
}

/// The count of operands; one alone is an error at a place of its own.
fn tell(alloc: Global, count: u32) -> Result<Answer, NoMemory>
    ensures { IfOk result (λ a. a ≡ told count) }
{
    if count == 1 {
        let far = Place {
            line: 9,
            col: 9,
            at: 0,
        };
        let reply = ExtraAnswer::Raised(ErrKind::User, Text::of(alloc, b"alone")?, Some(far));
        return Ok(Answer::Extra(reply, Text::from_vec(Vec::new(alloc)), 0));
    }
    let mut outputs = Vec::new(alloc);
    outputs.push(number(i64::from(count)))?;
    let reply = ExtraAnswer::Values(Seq::of(outputs));
    Ok(Answer::Extra(reply, Text::from_vec(Vec::new(alloc)), 0))
}

impl World for Desk {
    ghost use Rattle.std.specs.Prelude.{[], Some, None, map};
    ghost use Rattle.pl_meaning.specs.Logs.{Byte};
    ghost use Rattle.pl_doors.specs.Desk.{desk_rules};

    ghost log = { λ d. record { given = []; shown = Some (map Byte d.text.items); stops = 0; sink = None; rules = desk_rules d.jobs.items } };

    fn event(&mut self, event: Event) -> Result<(), Or<Stop>> {
        match event {
            Event::Print(text) => match self.text.extend_from_slice(text.bytes()) {
                Ok(()) => Ok(()),
                Err(_) => Err(Or::Memory),
            },
        }
    }

    fn ask(&mut self, _env: &Env<'_>, question: Question<'_>) -> Result<Answer, Or<Stop>> {
        match question {
            Question::Loop(_) => Err(Or::Memory),
            Question::Extra(0, _, _) => {
                let Ok(before) = u32::try_from(self.jobs.len()) else {
                    return Err(Or::Memory);
                };
                let Some(job) = before.checked_add(1) else {
                    return Err(Or::Memory);
                };
                let answer = make(self.alloc, job)?;
                self.jobs.insert(0, Value::Pool)?;
                Ok(answer)
            }
            Question::Extra(1, operands, _) => {
                let Ok(count) = u32::try_from(operands.items().len()) else {
                    return Err(Or::Memory);
                };
                Ok(tell(self.alloc, count)?)
            }
            Question::Extra(_, _, _) => Err(Or::Memory),
        }
    }
}
