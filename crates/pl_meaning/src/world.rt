//! The world of a run.

ghost use Rattle.std.specs.Prelude.{◌≡◌};
ghost use Rattle.pl_meaning.specs.Logs.{Log, Heard, Answered, question_of};

use crate::event::{Answer, Event, Question};
use crate::halt::Stop;
use pl_base::Or;
use pl_values::Env;

/// What a run speaks to. Its log has the choices under which it answered, the bytes that it was told to show, how
/// often it answered `Stop`, and the rules by which choices make an answer.
pub trait World {
    ghost log: { Self → Log };

    fn event(&mut self, event: Event) -> Result<(), Or<Stop>>
        ensures { Heard event result (log self.old) (log self.new) };

    /// Answers a question of a run whose workspace is `env`, by the rules, under choices that are then in the log.
    fn ask(&mut self, env: &Env<'_>, question: Question<'_>) -> Result<Answer, Or<Stop>>
        ensures { Answered env.now (question_of question.entry) result (log self.old) (log self.new) };
}
