//! The titles of functions, and what stands behind functions.

ghost use Rattle.std.specs.Prelude.{◌≡◌, [], ◌∷◌, ◌++◌, Ok, Err, IfOk};
ghost use Rattle.std.specs.List.{list_any};
ghost use Rattle.pl_grammar.specs.Words as words;
ghost use Rattle.pl_states.specs.Titles as spec;
ghost use Rattle.pl_steps.specs.Steps.{Gives, named};

use crate::statements::shows;
use pl_base::{NoMemory, Or, Place, Seq, Text};
use pl_frames::{Mark, Pile, Root, Site, State, Title, Titling, Top};
use pl_grammar::{FaultKind, Keyword, Word};
use pl_steps::{Step, refused};
use pl_syntax::{Function, Name};
use sqlite_items::Items;
use std::alloc::Global;

/// The title goes on so.
fn goes(top: Top, titling: Titling) -> Step
    ensures { Gives result (spec.goes top titling) }
{
    Ok(State::Titling(top, titling))
}

fn name_at(alloc: Global, text: &Text, place: Place) -> Result<Name, NoMemory>
    ensures { IfOk result (λ n. n ≡ named text.now place) }
{
    let text = text.copy(alloc)?;
    Ok(Name { text, place })
}

/// Whether a function of this name stands there.
fn has_function(functions: &Items<Function>, text: &Text) -> bool
    ensures { result ≡ spec.has_function text.now functions.now }
{
    for function in functions.as_slice() {
        if function.name.text == *text {
            return true;
        }
    }
    false
}

/// The fault of a name that stands twice, where the terminal goes on with the title.
fn once(twice: bool, step: Step) -> Step
    ensures { spec.Once twice step result }
{
    match step {
        Ok(state) => {
            if twice {
                return Err(Or::Is(FaultKind::FunctionTwice));
            }
            Ok(state)
        }
        Err(fault) => Err(fault),
    }
}

/// The statements of a function come.
fn enter_function(alloc: Global, top: Top, title: Title) -> Step
    ensures { Gives result (spec.enter_function top title) }
{
    let root = Root::Function(top, title);
    let levels = Pile::new(alloc);
    let block = Items::new(alloc);
    Ok(State::Start(Site {
        root,
        levels,
        block,
    }))
}

/// Behind a whole title.
fn titled_end(alloc: Global, word: &Word, top: Top, title: Title) -> Step
    ensures { Gives result (spec.titled_end word.now top title) }
{
    match shows(word) {
        None => refused(top),
        Some(_) => enter_function(alloc, top, title),
    }
}

/// A title without parameters.
fn bare_title(alloc: Global, outs: Seq<Name>, name: Name) -> Title
    ensures { result ≡ spec.title_of outs name [] }
{
    let params = Seq::empty(alloc);
    Title { name, params, outs }
}

/// Behind the function's name.
fn behind_title(alloc: Global, word: &Word, top: Top, outs: Seq<Name>, name: Name) -> Step
    ensures { Gives result (spec.behind_title word.now top outs name) }
{
    match word {
        Word::Open => goes(top, Titling::ParamsOf(outs, name, None)),
        _ => titled_end(alloc, word, top, bare_title(alloc, outs, name)),
    }
}

/// The name is that of the only output.
fn output_alone(alloc: Global, top: Top, name: Name) -> Step
    ensures { Gives result (spec.goes top (Titling.Naming (name ∷ []))) }
{
    let outs = named_after(Seq::empty(alloc), name)?;
    goes(top, Titling::Naming(outs))
}

/// The name is the function's, and whether it stands twice.
#[tactic(auto, using(crate::proofs::Once::once_gives))]
fn named_if(alloc: Global, twice: bool, word: &Word, top: Top, name: Name) -> Step
    ensures { Gives result (spec.once twice (spec.behind_title word.now top [] name)) }
{
    let step = behind_title(alloc, word, top, Seq::empty(alloc), name);
    once(twice, step)
}

/// The name is the function's.
fn named_title(alloc: Global, word: &Word, top: Top, name: Name) -> Step
    ensures { Gives result (spec.once (spec.has_function name.text top.functions) (spec.behind_title word.now top [] name)) }
{
    let twice = has_function(&top.functions, &name.text);
    named_if(alloc, twice, word, top, name)
}

/// Behind a name that is the function's or its output's.
fn behind_word(alloc: Global, word: &Word, top: Top, name: Name) -> Step
    ensures { Gives result (spec.behind_word word.now top name) }
{
    match word {
        Word::Equal => output_alone(alloc, top, name),
        _ => named_title(alloc, word, top, name),
    }
}

/// Behind `function`.
fn read_title(alloc: Global, word: &Word, mark: Mark, top: Top) -> Step
    ensures { Gives result (spec.read_title word.now mark top) }
{
    match word {
        Word::Name(text) => {
            let name = name_at(alloc, text, mark.place)?;
            goes(top, Titling::Worded(name))
        }
        Word::OpenSquare => goes(top, Titling::OutsOf(None)),
        _ => refused(top),
    }
}

/// Names and one more.
fn named_after(names: Seq<Name>, name: Name) -> Result<Seq<Name>, NoMemory>
    ensures { IfOk result (λ ns. ns ≡ names ++ name ∷ []) }
{
    let mut names = names;
    names.push(name)?;
    Ok(names)
}

/// An output more.
fn with_out(alloc: Global, outs: Option<Seq<Name>>, name: Name) -> Result<Seq<Name>, NoMemory>
    ensures { IfOk result (λ ns. ns ≡ spec.with_out outs name) }
{
    match outs {
        None => named_after(Seq::empty(alloc), name),
        Some(outs) => named_after(outs, name),
    }
}

/// The outputs are none.
fn close_outs(alloc: Global, outs: Option<Seq<Name>>, top: Top) -> Step
    ensures { Gives result (spec.close_outs outs top) }
{
    match outs {
        None => goes(top, Titling::OutsShut(Seq::empty(alloc))),
        Some(outs) => refused(outs),
    }
}

/// One output more has come.
fn one_out(alloc: Global, text: &Text, place: Place, top: Top, outs: Option<Seq<Name>>) -> Step
    ensures { Gives result (spec.goes top (Titling.OutOf (spec.with_out outs (named text.now place)))) }
{
    let name = name_at(alloc, text, place)?;
    let outs = with_out(alloc, outs, name)?;
    goes(top, Titling::OutOf(outs))
}

/// Where an output of the title has to come.
fn read_out(alloc: Global, word: &Word, mark: Mark, top: Top, outs: Option<Seq<Name>>) -> Step
    ensures { Gives result (spec.read_out word.now mark top outs) }
{
    match word {
        Word::Name(text) => { one_out(alloc, text, mark.place, top, outs) }
        Word::CloseSquare => close_outs(alloc, outs, top),
        _ => refused(top),
    }
}

/// Behind an output of the title.
fn behind_out(word: &Word, top: Top, outs: Seq<Name>) -> Step
    ensures { Gives result (spec.behind_out word.now top outs) }
{
    match word {
        Word::Comma => goes(top, Titling::OutsOf(Some(outs))),
        Word::CloseSquare => goes(top, Titling::OutsShut(outs)),
        _ => refused(top),
    }
}

/// Behind the outputs of the title.
fn behind_outs_shut(word: &Word, top: Top, outs: Seq<Name>) -> Step
    ensures { Gives result (spec.behind_outs_shut word.now top outs) }
{
    match word {
        Word::Equal => goes(top, Titling::Naming(outs)),
        _ => refused(top),
    }
}

/// The title's outputs and its name, unless the name stands twice.
fn entitled(twice: bool, top: Top, outs: Seq<Name>, name: Name) -> Step
    ensures { Gives result (spec.once twice (spec.goes top (Titling.Entitled outs name))) }
{
    if twice {
        return Err(Or::Is(FaultKind::FunctionTwice));
    }
    goes(top, Titling::Entitled(outs, name))
}

/// The function's name has to come.
fn read_name(alloc: Global, word: &Word, mark: Mark, top: Top, outs: Seq<Name>) -> Step
    ensures { Gives result (spec.read_name word.now mark top outs) }
{
    match word {
        Word::Name(text) => {
            let twice = has_function(&top.functions, text);
            let name = name_at(alloc, text, mark.place)?;
            entitled(twice, top, outs, name)
        }
        _ => refused(top),
    }
}

/// Parameters and one more.
fn taken_after(
    params: Seq<Option<Name>>,
    param: Option<Name>,
) -> Result<Seq<Option<Name>>, NoMemory>
    ensures { IfOk result (λ ps. ps ≡ params ++ param ∷ []) }
{
    let mut params = params;
    params.push(param)?;
    Ok(params)
}

/// A parameter more.
fn with_param(
    alloc: Global,
    params: Option<Seq<Option<Name>>>,
    param: Option<Name>,
) -> Result<Seq<Option<Name>>, NoMemory>
    ensures { IfOk result (λ ps. ps ≡ spec.with_param params param) }
{
    match params {
        None => taken_after(Seq::empty(alloc), param),
        Some(params) => taken_after(params, param),
    }
}

/// The parameters are none.
fn close_params(
    alloc: Global,
    top: Top,
    outs: Seq<Name>,
    name: Name,
    params: Option<Seq<Option<Name>>>,
) -> Step
    ensures { Gives result (spec.close_params top outs name params) }
{
    match params {
        None => {
            let params = Seq::empty(alloc);
            goes(top, Titling::Titled(Title { name, params, outs }))
        }
        Some(params) => refused(params),
    }
}

/// Where a parameter has to come.
fn read_param(
    alloc: Global,
    word: &Word,
    mark: Mark,
    top: Top,
    outs: Seq<Name>,
    name: Name,
    params: Option<Seq<Option<Name>>>,
) -> Step
    ensures { Gives result (spec.read_param word.now mark top outs name params) }
{
    match word {
        Word::Name(text) => {
            let param = name_at(alloc, text, mark.place)?;
            let params = with_param(alloc, params, Some(param))?;
            goes(top, Titling::ParamOf(outs, name, params))
        }
        Word::Not => {
            let params = with_param(alloc, params, None)?;
            goes(top, Titling::ParamOf(outs, name, params))
        }
        Word::Close => close_params(alloc, top, outs, name, params),
        _ => refused(top),
    }
}

/// Behind a parameter.
fn behind_param(
    word: &Word,
    top: Top,
    outs: Seq<Name>,
    name: Name,
    params: Seq<Option<Name>>,
) -> Step
    ensures { Gives result (spec.behind_param word.now top outs name params) }
{
    match word {
        Word::Comma => goes(top, Titling::ParamsOf(outs, name, Some(params))),
        Word::Close => goes(top, Titling::Titled(Title { name, params, outs })),
        _ => refused(top),
    }
}

/// In a title.
#[tactic(auto, unfolding(crate::specs::Titles::read_titling))]
pub fn read_titling(alloc: Global, word: &Word, mark: Mark, top: Top, titling: Titling) -> Step
    ensures { Gives result (spec.read_titling word.now mark top titling) }
{
    match titling {
        Titling::Begun => read_title(alloc, word, mark, top),
        Titling::Worded(name) => behind_word(alloc, word, top, name),
        Titling::OutsOf(outs) => read_out(alloc, word, mark, top, outs),
        Titling::OutOf(outs) => behind_out(word, top, outs),
        Titling::OutsShut(outs) => behind_outs_shut(word, top, outs),
        Titling::Naming(outs) => read_name(alloc, word, mark, top, outs),
        Titling::Entitled(outs, name) => behind_title(alloc, word, top, outs, name),
        Titling::ParamsOf(outs, name, params) => {
            read_param(alloc, word, mark, top, outs, name, params)
        }
        Titling::ParamOf(outs, name, params) => behind_param(word, top, outs, name, params),
        Titling::Titled(title) => titled_end(alloc, word, top, title),
    }
}

/// Behind a function.
pub fn behind_function(word: &Word, top: Top) -> Step
    ensures { Gives result (spec.behind_function word.now top) }
{
    if let Word::Key(Keyword::Function) = word {
        return goes(top, Titling::Begun);
    }
    match shows(word) {
        None => refused(top),
        Some(_) => Ok(State::Between(top)),
    }
}
