//! Questions to the world, and their answers.

ghost use Rattle.std.specs.Prelude.{◌≡◌, IfOk, Result, Ok, Err};
ghost use Rattle.pl_meaning.specs.declared.halt.Halt.{Halt};
ghost use Rattle.pl_meaning.specs.Logs.{question_of};
ghost use Rattle.pl_meaning.specs.Promises.{Went, Halts, Keeps, at};
ghost use Rattle.pl_meaning.specs.Running.{ask as asking};

use pl_base::Or;
use pl_meaning::{Answer, Halt, Memory, Question, World};

/// Asks the world a question.
pub fn ask<W: World>(
    memory: &Memory<'_>,
    world: &mut W,
    question: Question<'_>,
) -> Result<Answer, Halt>
    ensures ok { IfOk result (λ answer. Went (asking (question_of question.entry)) (at memory.now (W.log world.old)) answer (at memory.now (W.log world.new))) }
    ensures err { (x : Halt) → result ≡ Err x → Halts (asking (question_of question.entry)) (at memory.now (W.log world.old)) x (at memory.now (W.log world.new)) }
    ensures keeps { Keeps (at memory.now (W.log world.old)) (at memory.now (W.log world.new)) }
{
    match world.ask(&memory.env, question) {
        Ok(answer) => Ok(answer),
        Err(Or::Memory) => Err(Halt::Memory),
        Err(Or::Is(_)) => Err(Halt::Stopped),
    }
}
