//! Names behind a dot or `@`, and outputs that are no expressions.

ghost use Rattle.std.specs.Prelude.{◌≡◌, ◌∷◌, false, if◌then◌else◌, Some, None, Ok, Err, IfOk};
ghost use Rattle.pl_grammar.specs.Words as words;
ghost use Rattle.pl_steps.specs.Steps as spec;

use pl_base::{NoMemory, Text};
use pl_frames::{
    Bottom, Callee, Form, Frame, Goal, Listed, Mark, Operand, Outgoing, Pile, Site, Stack, State,
    listed, outgoing_room, plain, plus, tree,
};
use pl_grammar::Word;
use pl_steps::{
    Dots, Step, called, dots_of, has_state, is_state, laid, nothing, refused, refused_with, roomy,
    target_name,
};
use pl_syntax::{Expr, ExprKind, Name, Target};
use sqlite_items::{Boxed, Items};
use std::alloc::Global;

/// A colon as an argument.
fn colon_tree(mark: Mark) -> Expr
    ensures { result ≡ spec.colon_tree mark }
{
    let place = mark.place;
    let kind = ExprKind::Colon;
    Expr { kind, place }
}

/// What comes behind an argument that is a colon.
fn colon_word(
    word: &Word,
    callee: Callee,
    mark: Mark,
    height: usize,
    list: Listed,
    stack: Stack,
) -> Step
    ensures { spec.Gives result (spec.colon_word word.now callee mark height list stack) }
{
    match word {
        Word::Comma => {
            let frame = Frame::Args(callee, mark, height, Some(list));
            Ok(State::Operand(laid(frame, stack)?))
        }
        Word::Close => called(callee, mark, height, list, stack),
        _ => refused_with(Frame::Args(callee, mark, height, Some(list)), stack),
    }
}

/// Behind a colon that is an argument of this list.
fn colon_in(
    alloc: Global,
    word: &Word,
    colon: Mark,
    callee: Callee,
    mark: Mark,
    height: usize,
    list: Option<Listed>,
    stack: Stack,
) -> Step
    ensures { spec.Gives result (spec.colon_on word.now colon (Frame.Args callee mark height list ∷ stack.frames) stack.bottom) }
{
    let list = listed(alloc, list, colon_tree(colon), 0)?;
    colon_word(word, callee, mark, height, list, stack)
}

/// Behind a colon that is an argument.
#[tactic(auto, unfolding(pl_steps::specs::Steps::behind_colon))]
pub fn behind_colon(alloc: Global, word: &Word, colon: Mark, stack: Stack) -> Step
    ensures { spec.Gives result (spec.behind_colon word.now colon stack) }
{
    let Stack { frames, bottom } = stack;
    let mut frames = frames;
    match frames.pop() {
        Some(Frame::Args(callee, mark, height, list)) => {
            let stack = Stack { frames, bottom };
            colon_in(alloc, word, colon, callee, mark, height, list, stack)
        }
        other => refused_with(other, Stack { frames, bottom }),
    }
}

/// Behind `@`.
#[tactic(auto, unfolding(pl_steps::specs::Steps::behind_at))]
pub fn behind_at(alloc: Global, word: &Word, mark: Mark, at: Mark, stack: Stack) -> Step
    ensures { spec.Gives result (spec.behind_at word.now mark at stack) }
{
    match word {
        Word::Name(text) => {
            let text = text.copy(alloc)?;
            let place = mark.place;
            let kind = ExprKind::Func(Name { text, place });
            let operand = plain(Expr { kind, place }, at, 0);
            Ok(State::After(operand, stack))
        }
        _ => refused(stack),
    }
}

/// `.State` behind an operand.
fn state_of(alloc: Global, operand: Operand) -> Result<Operand, NoMemory>
    ensures { IfOk result (λ e. e ≡ spec.state_of operand) }
{
    let (mark, height) = (operand.mark, operand.height);
    let place = mark.place;
    let tree = tree(alloc, operand)?;
    let kind = ExprKind::StateOf(Boxed::new(alloc, tree)?);
    Ok(plain(Expr { kind, place }, mark, height))
}

/// A name, perhaps with dots.
fn dotted_name(form: Form) -> Option<Name>
    ensures { result ≡ spec.dotted_name form }
{
    match form {
        Form::Target(target) => target_name(target),
        Form::Dotted(name) => Some(name),
        other => nothing(other),
    }
}

/// A name with a dot and a word more.
fn longer_name(name: Name, more: &Text) -> Result<Name, NoMemory>
    ensures { IfOk result (λ n. n ≡ spec.longer_name name more.now) }
{
    let Name { text, place } = name;
    let mut text = text;
    text.append(b".")?;
    text.append(more.bytes())?;
    Ok(Name { text, place })
}

/// Names with dots: one of the language, or the beginning of one.
fn dot_or(name: Name, mark: Mark, stack: Stack) -> Step
    ensures { spec.Gives result (spec.dot_or name mark stack) }
{
    let found = dots_of(&name.text);
    let form = Form::Dotted(name);
    let height = 0;
    let operand = Operand { form, mark, height };
    match found {
        Dots::Whole => Ok(State::After(operand, stack)),
        Dots::Stem => Ok(State::Stemmed(operand, stack)),
        Dots::Neither => refused(operand),
    }
}

/// A name behind a name and a dot.
fn longer(operand: Operand, more: &Text, stack: Stack) -> Step
    ensures { spec.Gives result (spec.longer operand more.now stack) }
{
    let mark = operand.mark;
    match dotted_name(operand.form) {
        None => refused(stack),
        Some(name) => dot_or(longer_name(name, more)?, mark, stack),
    }
}

/// Behind a dot.
#[tactic(auto, unfolding(pl_steps::specs::Steps::behind_dot))]
pub fn behind_dot(alloc: Global, word: &Word, operand: Operand, stack: Stack) -> Step
    ensures { spec.Gives result (spec.behind_dot word.now operand stack) }
{
    match word {
        Word::Name(text) => {
            if !is_state(text) {
                return longer(operand, text, stack);
            }
            if !has_state(&operand.form) {
                return refused(stack);
            }
            Ok(State::After(state_of(alloc, operand)?, stack))
        }
        _ => refused(stack),
    }
}

/// Behind names that only a dot can follow.
pub fn behind_stem(word: &Word, operand: Operand, stack: Stack) -> Step
    ensures { spec.Gives result (spec.behind_stem word.now operand stack) }
{
    match word {
        Word::Dot => Ok(State::Dot(operand, stack)),
        _ => refused(stack),
    }
}

/// Where an output has to come.
#[tactic(auto, unfolding(pl_steps::specs::Steps::read_output))]
pub fn read_output(
    alloc: Global,
    word: &Word,
    mark: Mark,
    bracket: Mark,
    before: Outgoing,
    site: Site,
) -> Step
    ensures { spec.Gives result (spec.read_output word.now mark bracket before site) }
{
    match word {
        Word::Name(text) => {
            let text = text.copy(alloc)?;
            let place = mark.place;
            let target = Target::Whole(Name { text, place });
            Ok(State::OutputRead(bracket, before, mark, Some(target), site))
        }
        Word::Not => {
            let fits = outgoing_room(&before, &site);
            roomy(fits, State::OutputRead(bracket, before, mark, None, site))
        }
        _ => refused(site),
    }
}

/// Outputs and a target.
fn with_target(before: Outgoing, target: Target) -> Result<Outgoing, NoMemory>
    ensures { IfOk result (λ o. o ≡ spec.with_output before (Some target)) }
{
    let Outgoing { outputs, .. } = before;
    let mut outputs = outputs;
    outputs.push(Some(target))?;
    Ok(Outgoing { outputs, run: 0 })
}

/// Outputs and a `~`.
fn with_skip(before: Outgoing) -> Result<Outgoing, NoMemory>
    ensures { IfOk result (λ o. o ≡ spec.with_output before None) }
{
    let Outgoing { outputs, run } = before;
    let mut outputs = outputs;
    outputs.push(None)?;
    let run = plus(1, run);
    Ok(Outgoing { outputs, run })
}

/// Outputs and one more, and how many levels they put over the next one where white space alone separates it.
fn with_output(before: Outgoing, target: Option<Target>) -> Result<Outgoing, NoMemory>
    ensures { IfOk result (λ o. o ≡ spec.with_output before target) }
{
    match target {
        Some(target) => with_target(before, target),
        None => with_skip(before),
    }
}

fn output_frame(brace: bool, own: Mark, name: Name) -> Frame
    ensures { result ≡ spec.output_frame brace own name }
{
    match brace {
        true => Frame::Brace(name, own),
        false => Frame::Args(Callee::Alone(name), own, 0, None),
    }
}

/// `(` or `{` behind a name that is an output.
fn open_output(
    alloc: Global,
    brace: bool,
    own: Mark,
    name: Name,
    bracket: Mark,
    before: Outgoing,
    site: Site,
) -> Step
    ensures { spec.Gives result (spec.open_output brace own name bracket before site) }
{
    let fits = outgoing_room(&before, &site);
    let frame = output_frame(brace, own, name);
    let frames = Pile::new(alloc);
    let bottom = Bottom::Outputs(bracket, before, site);
    let stack = laid(frame, Stack { frames, bottom })?;
    roomy(fits, State::Operand(stack))
}

/// The name of an output that is no more.
fn output_name(target: Option<Target>) -> Option<Name>
    ensures { result ≡ spec.output_name target }
{
    match target {
        Some(target) => target_name(target),
        None => None,
    }
}

/// `(` or `{` behind an output.
fn bracket_output(
    alloc: Global,
    brace: bool,
    own: Mark,
    target: Option<Target>,
    bracket: Mark,
    before: Outgoing,
    site: Site,
) -> Step
    ensures { spec.Gives result (spec.bracket_output brace own target bracket before site) }
{
    match output_name(target) {
        Some(name) => open_output(alloc, brace, own, name, bracket, before, site),
        None => refused(site),
    }
}

/// `(` behind an output: white space may not stand before it.
fn list_output(
    alloc: Global,
    mark: Mark,
    own: Mark,
    target: Option<Target>,
    bracket: Mark,
    before: Outgoing,
    site: Site,
) -> Step
    ensures { spec.Gives result (if mark.gap then spec.refused else spec.bracket_output false own target bracket before site) }
{
    if mark.gap {
        drop(target);
        return refused(site);
    }
    bracket_output(alloc, false, own, target, bracket, before, site)
}

/// Behind an output and white space, the next output.
#[tactic(auto, unfolding(pl_steps::specs::Steps::next_output))]
fn next_output(
    alloc: Global,
    word: &Word,
    mark: Mark,
    bracket: Mark,
    before: Outgoing,
    site: Site,
) -> Step
    ensures { spec.Gives result (spec.next_output word.now mark bracket before site) }
{
    if mark.gap {
        read_output(alloc, word, mark, bracket, before, site)
    } else {
        refused(site)
    }
}

/// Outputs and a comma.
fn comma_output(bracket: Mark, before: Outgoing, target: Option<Target>, site: Site) -> Step
    ensures { spec.Gives result (spec.comma_output bracket before target site) }
{
    let outputs = with_output(before, target)?.outputs;
    let before = Outgoing { outputs, run: 0 };
    Ok(State::Output(bracket, before, site))
}

/// An output behind white space.
fn gap_output(
    alloc: Global,
    word: &Word,
    mark: Mark,
    bracket: Mark,
    before: Outgoing,
    target: Option<Target>,
    site: Site,
) -> Step
    ensures { spec.Gives result (spec.next_output word.now mark bracket (spec.with_output before target) site) }
{
    let before = with_output(before, target)?;
    next_output(alloc, word, mark, bracket, before, site)
}

/// `]` behind an output.
fn shut_outputs(bracket: Mark, before: Outgoing, target: Option<Target>, site: Site) -> Step
    ensures { spec.Gives result (Ok (State.OutputsShut bracket (spec.with_output before target).outputs site)) }
{
    let outputs = with_output(before, target)?.outputs;
    Ok(State::OutputsShut(bracket, outputs, site))
}

/// Behind an output.
#[tactic(auto, unfolding(pl_steps::specs::Steps::behind_output))]
pub fn behind_output(
    alloc: Global,
    word: &Word,
    mark: Mark,
    bracket: Mark,
    before: Outgoing,
    own: Mark,
    target: Option<Target>,
    site: Site,
) -> Step
    ensures { spec.Gives result (spec.behind_output word.now mark bracket before own target site) }
{
    match word {
        Word::Comma => comma_output(bracket, before, target, site),
        Word::CloseSquare => shut_outputs(bracket, before, target, site),
        Word::Open => list_output(alloc, mark, own, target, bracket, before, site),
        Word::OpenBrace => bracket_output(alloc, true, own, target, bracket, before, site),
        _ => gap_output(alloc, word, mark, bracket, before, target, site),
    }
}

/// Behind all outputs.
pub fn behind_outputs(
    alloc: Global,
    word: &Word,
    bracket: Mark,
    outputs: Items<Option<Target>>,
    site: Site,
) -> Step
    ensures { spec.Gives result (spec.behind_outputs word.now bracket outputs site) }
{
    match word {
        Word::Equal => {
            let frames = Pile::new(alloc);
            let bottom = Bottom::Goal(Goal::Spread(bracket, outputs), site);
            Ok(State::Operand(Stack { frames, bottom }))
        }
        _ => refused(site),
    }
}
