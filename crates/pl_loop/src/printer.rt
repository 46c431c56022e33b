//! The world of an iteration.

use pl_base::Or;
use pl_meaning::{Answer, Event, Question, Stop, World};
use pl_values::Env;

/// A world that keeps what it is told to print, and answers nothing.
#[derive(Drop)]
pub(crate) struct Printer {
    pub(crate) text: Vec<u8>,
}

impl World for Printer {
    ghost use Rattle.std.specs.Prelude.{[], Some, None, map};
    ghost use Rattle.pl_meaning.specs.Logs.{Byte};
    ghost use Rattle.pl_meaning.specs.Loops.{no_rules};

    ghost log = { λ p. record { given = []; shown = Some (map Byte p.text.items); stops = 0; sink = None; rules = no_rules } };

    fn event(&mut self, event: Event) -> Result<(), Or<Stop>> {
        match event {
            Event::Print(text) => match self.text.extend_from_slice(text.bytes()) {
                Ok(()) => Ok(()),
                Err(_) => Err(Or::Memory),
            },
        }
    }

    fn ask(&mut self, _env: &Env<'_>, question: Question<'_>) -> Result<Answer, Or<Stop>> {
        match question {
            Question::Loop(_) => Err(Or::Memory),
            Question::Extra(_, _operands, _) => Err(Or::Memory),
        }
    }
}
