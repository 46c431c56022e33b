//! The law that joins the parser's machine to that of the grammar.

ghost use Rattle.std.specs.Prelude.{◌≡◌, List};
ghost use Rattle.pl_grammar.specs.declared.terminal.Terminal.{Terminal};
ghost use Rattle.pl_grammar.specs.Programs.{strict};
ghost use Rattle.pl_grammar.specs.Machine as grammar;
ghost use Rattle.pl_grammar.specs.Steps as steps;
ghost use Rattle.pl_states.specs.Run as run;
ghost use Rattle.pl_parse.specs.Image.{state_of, step_of, answer_of};

/// Holds of all states of the grammar's machine, reached or not, and of all terminals; it does nothing when it runs.
pub fn one_machine()
    ensures step { (state : grammar.State) (terminal : Terminal) → run.step (state_of state) terminal ≡ step_of (steps.step (strict 200) state terminal) }
    ensures answer { (terminals : List Terminal) → run.run run.beginning terminals ≡ answer_of (steps.run (strict 200) grammar.beginning terminals) }
{}
