//! The parser: one terminal after another, and the end.

ghost use Rattle.std.specs.Prelude.{◌≡◌, if◌then◌else◌, None, Ok, Err, IfOk};
ghost use Rattle.pl_frames.specs.Reduce as reduce_spec;
ghost use Rattle.pl_steps.specs.Steps as step_spec;
ghost use Rattle.pl_states.specs.Run as spec;

use crate::statements::{
    behind_heading, behind_index, behind_loop, behind_loop_in, behind_statement, read_start,
};
use crate::titles::{behind_function, read_titling};
use pl_base::{NoMemory, Or};
use pl_behind::{read_after, untear};
use pl_frames::{
    Bottom, Done, Goal, Held, Inner, Lead, Mark, Operand, Pile, Root, Site, Stack, State, Top,
    reduce, site_open, stack_open,
};
use pl_grammar::{FaultKind, Terminal, Word};
use pl_outputs::{
    behind_at, behind_colon, behind_dot, behind_output, behind_outputs, behind_stem, read_output,
};
use pl_steps::{Step, ended, read_operand, refused, settle};
use pl_syntax::{Program, Stmt};
use sqlite_items::Items;
use std::alloc::Global;

/// Why terminals are no program, and how many are left from the one on that no program has there; none where they
/// end too early.
#[derive(Clone, Copy, Debug, PartialEq, Eq)]
pub struct Refusal {
    pub kind: FaultKind,
    pub left: usize,
}

/// No program; what was held is let go.
fn nothing<T: Drop, U>(held: T) -> Option<U>
    ensures { result ≡ None }
{
    drop(held);
    None
}

/// A terminal in the header of a statement, or between statements.
#[tactic(auto, unfolding(crate::specs::Run::on_rest))]
fn on_rest(alloc: Global, state: State, word: &Word, mark: Mark) -> Step
    ensures { step_spec.Gives result (spec.on_rest state word.now mark) }
{
    match state {
        State::Loop(key, at, spot) => behind_loop(alloc, word, mark, key, at, spot),
        State::LoopIn(key, at, spot) => behind_loop_in(alloc, word, mark, key, at, spot),
        State::Index(key, at, name, spot) => {
            let lead = Lead::Each(key, at, name);
            behind_index(alloc, word, Bottom::Lead(lead, spot))
        }
        State::IndexIn(key, at, name, spot) => {
            let inner = Inner::EachIn(key, at, name);
            behind_index(alloc, word, Bottom::Inner(inner, spot))
        }
        State::Ready(heading, spot) => behind_heading(alloc, word, heading, spot),
        State::Titling(top, titling) => read_titling(alloc, word, mark, top, titling),
        State::Between(top) => behind_function(word, top),
        state => refused(state),
    }
}

/// A terminal, by the state.
#[tactic(auto, unfolding(crate::specs::Run::on_word))]
fn on_word(alloc: Global, state: State, word: &Word, mark: Mark) -> Step
    ensures { step_spec.Gives result (spec.on_word state word.now mark) }
{
    match state {
        State::Start(site) => read_start(alloc, word, mark, site),
        State::Finished(done, site) => behind_statement(word, done, site),
        State::Operand(stack) => read_operand(alloc, word, mark, stack),
        State::After(operand, stack) => read_after(alloc, word, mark, operand, stack),
        State::Coloned(colon, stack) => behind_colon(alloc, word, colon, stack),
        State::Torn(operand, sign, at, stack) => {
            untear(alloc, operand, sign, at, stack, word, mark)
        }
        State::AtSign(at, stack) => behind_at(alloc, word, mark, at, stack),
        State::Stemmed(operand, stack) => behind_stem(word, operand, stack),
        State::Dot(operand, stack) => behind_dot(alloc, word, operand, stack),
        State::Output(bracket, before, site) => read_output(
            alloc, word, mark, bracket, before, site,
        ),
        State::OutputRead(bracket, before, own, target, site) => {
            behind_output(alloc, word, mark, bracket, before, own, target, site)
        }
        State::OutputsShut(bracket, outputs, site) => {
            behind_outputs(alloc, word, bracket, outputs, site)
        }
        state => on_rest(alloc, state, word, mark),
    }
}

fn advance(alloc: Global, state: State, terminal: &Terminal) -> Step
    ensures { step_spec.Gives result (spec.step state terminal.now) }
{
    let (gap, place) = (terminal.gap, terminal.place);
    on_word(alloc, state, &terminal.word, Mark { gap, place })
}

/// Whether an `end` has to come.
#[tactic(auto, unfolding(crate::specs::Run::is_open))]
fn is_open(state: &State) -> bool
    ensures { result ≡ spec.is_open state.now }
{
    match state {
        State::Start(site) => site_open(site),
        State::Finished(_, site) => site_open(site),
        State::Operand(stack) => stack_open(stack),
        State::After(_, stack) => stack_open(stack),
        State::Coloned(_, stack) => stack_open(stack),
        State::Torn(_, _, _, stack) => stack_open(stack),
        State::AtSign(_, stack) => stack_open(stack),
        State::Stemmed(_, stack) => stack_open(stack),
        State::Dot(_, stack) => stack_open(stack),
        State::Output(_, _, site) => site_open(site),
        State::OutputRead(_, _, _, _, site) => site_open(site),
        State::OutputsShut(_, _, site) => site_open(site),
        State::Between(_) => false,
        _ => true,
    }
}

/// The program of the statements of a script.
fn script_of(alloc: Global, root: Root, block: Items<Stmt>) -> Option<Program>
    ensures { result ≡ spec.script_of root block }
{
    match root {
        Root::Script => Some(Program {
            body: block,
            functions: Items::new(alloc),
        }),
        Root::Function(top, _) => nothing(top),
    }
}

/// The program of a script without functions, if no statement is open.
fn script(alloc: Global, site: Site) -> Option<Program>
    ensures { result ≡ spec.script site }
{
    let Site {
        root,
        levels,
        block,
    } = site;
    if levels.is_empty() {
        script_of(alloc, root, block)
    } else {
        nothing(root)
    }
}

/// A script whose last statement lacks its separator.
fn unended(alloc: Global, done: Done, site: Site) -> Result<Option<Program>, NoMemory>
    ensures { IfOk result (λ p. p ≡ spec.unended done site) }
{
    Ok(script(alloc, ended(done, true, site)?))
}

/// A script whose last statement ends with this expression.
fn unsettled(
    alloc: Global,
    goal: Goal,
    site: Site,
    operand: Operand,
) -> Result<Option<Program>, NoMemory>
    ensures { IfOk result (λ p. p ≡ spec.unended (step_spec.settle goal operand) site) }
{
    let done = settle(alloc, goal, operand)?;
    unended(alloc, done, site)
}

/// The terminals end behind the whole expression of a statement.
fn end_bottom(alloc: Global, operand: Operand, bottom: Bottom) -> Result<Option<Program>, NoMemory>
    ensures { IfOk result (λ p. p ≡ spec.end_bottom operand bottom) }
{
    match bottom {
        Bottom::Goal(goal, site) => unsettled(alloc, goal, site, operand),
        bottom => Ok(nothing(bottom)),
    }
}

/// The terminals end behind an expression.
fn end_after(alloc: Global, held: Held) -> Result<Option<Program>, NoMemory>
    ensures { IfOk result (λ p. p ≡ spec.end_after held) }
{
    let Held { operand, stack } = held;
    let Stack { frames, bottom } = stack;
    if frames.is_empty() {
        end_bottom(alloc, operand, bottom)
    } else {
        Ok(nothing(operand))
    }
}

/// The terminals end behind an operand.
fn end_operand(alloc: Global, operand: Operand, stack: Stack) -> Result<Option<Program>, NoMemory>
    ensures { IfOk result (λ p. p ≡ spec.end_after (reduce_spec.reduce 0 operand stack)) }
{
    let held = reduce(alloc, 0, operand, stack)?;
    end_after(alloc, held)
}

/// The program of a script and its functions.
#[tactic(auto, unfolding(crate::specs::Run::ended))]
fn whole(top: Top) -> Option<Program>
    ensures { result ≡ spec.ended (State.Between top) }
{
    let Top { body, functions } = top;
    Some(Program { body, functions })
}

/// The program, where the terminals may end.
#[tactic(auto, unfolding(crate::specs::Run::ended))]
fn at_end(alloc: Global, state: State) -> Result<Option<Program>, NoMemory>
    ensures { IfOk result (λ p. p ≡ spec.ended state) }
{
    match state {
        State::Start(site) => Ok(script(alloc, site)),
        State::Finished(done, site) => unended(alloc, done, site),
        State::After(operand, stack) => end_operand(alloc, operand, stack),
        State::Between(top) => Ok(whole(top)),
        state => Ok(nothing(state)),
    }
}

/// The program, or why there is none.
fn finish_with(inside: bool, program: Option<Program>) -> Result<Program, Refusal>
    ensures { result ≡ spec.finish_with inside program }
{
    let kind = missing(inside);
    program.ok_or(Refusal { kind, left: 0 })
}

/// Why the terminals may not end.
fn missing(inside: bool) -> FaultKind
    ensures { result ≡ (if inside then FaultKind.MissingEnd else FaultKind.Unexpected) }
{
    if inside {
        FaultKind::MissingEnd
    } else {
        FaultKind::Unexpected
    }
}

/// The terminals end here.
fn finish(alloc: Global, state: State) -> Result<Program, Or<Refusal>>
    ensures { spec.Answers result (spec.finish state) }
{
    let inside = is_open(&state);
    let program = at_end(alloc, state)?;
    finish_with(inside, program).map_err(Or::Is)
}

/// The program of terminals, or where and why they are none.
///
/// It reads forwards, and each terminal takes a time that only the nesting bounds.
#[tactic(auto, using(crate::proofs::Reading::run_on, crate::proofs::Reading::run_stops, crate::proofs::Reading::run_ends))]
pub fn read(alloc: Global, terminals: &[Terminal]) -> Result<Program, Or<Refusal>>
    ensures { spec.Answers result (spec.run spec.beginning terminals.now) }
{
    let mut state = State::Start(Site {
        root: Root::Script,
        levels: Pile::new(alloc),
        block: Items::new(alloc),
    });
    for (at, terminal) in terminals.iter().enumerate() {
        let left = terminals.len() - at;
        state = match advance(alloc, state, terminal) {
            Ok(state) => state,
            Err(Or::Memory) => return Err(Or::Memory),
            Err(Or::Is(kind)) => return Err(Or::Is(Refusal { kind, left })),
        };
    }
    finish(alloc, state)
}
