//! Where a statement may come, and the headers of compound statements.

ghost use Rattle.std.specs.Prelude.{◌≡◌, if◌then◌else◌, ◌∷◌, Some, None, Ok, Err, IfOk, MatchOption};
ghost use Rattle.pl_grammar.specs.Trees as tree_spec;
ghost use Rattle.pl_grammar.specs.Words as words;
ghost use Rattle.pl_frames.specs.Below as below_spec;
ghost use Rattle.pl_frames.specs.Parts as part_spec;
ghost use Rattle.pl_states.specs.Statements as spec;
ghost use Rattle.pl_steps.specs.Steps as step_spec;
ghost use Rattle.pl_steps.specs.Steps.{Gives};

use pl_base::Or;
use pl_frames::{
    Bottom, Done, Goal, Heading, Inner, Lead, Level, Mark, Part, Pile, Root, Site, Spot, Stack,
    State, Title, Titling, Top, allows, closed, enter, holds, site_room, spot_room,
};
use pl_grammar::{FaultKind, Keyword, Word};
use pl_steps::{Step, ended, read_operand, refused, roomy};
use pl_syntax::{Function, Name, Stmt, StmtKind};
use sqlite_items::Items;
use std::alloc::Global;

/// What a keyword is in a program.
#[derive(Clone, Copy)]
pub enum Use {
    /// Begins a part with a value.
    Tests,
    Loops,
    /// Begins a part without a header.
    Direct,
    /// Begins a part with a separator.
    Plain,
    Leaves,
    Ends,
    Defines,
    Unused,
}

fn use_of(word: Keyword) -> Use
    ensures { result ≡ spec.use_of word }
{
    match word {
        Keyword::If | Keyword::While | Keyword::Switch => Use::Tests,
        Keyword::Elseif | Keyword::Case => Use::Tests,
        Keyword::For | Keyword::Parfor => Use::Loops,
        Keyword::Else | Keyword::Otherwise | Keyword::Try => Use::Direct,
        Keyword::Catch | Keyword::Spmd => Use::Plain,
        Keyword::Break | Keyword::Continue | Keyword::Return => Use::Leaves,
        Keyword::End => Use::Ends,
        Keyword::Function => Use::Defines,
        Keyword::Classdef | Keyword::Global | Keyword::Persistent => Use::Unused,
    }
}

/// Whether a part with this keyword goes on with a compound statement.
fn is_link(word: Keyword) -> bool
    ensures { result ≡ words.is_link word }
{
    match word {
        Keyword::Elseif | Keyword::Else | Keyword::Case => true,
        Keyword::Otherwise | Keyword::Catch => true,
        _ => false,
    }
}

fn is_arm(word: Keyword) -> bool
    ensures { result ≡ words.is_arm word }
{
    matches!(word, Keyword::If | Keyword::Elseif)
}

fn is_choice(word: Keyword) -> bool
    ensures { result ≡ words.is_choice word }
{
    matches!(word, Keyword::Switch | Keyword::Case)
}

fn is_try(word: Keyword) -> bool
    ensures { result ≡ words.is_try word }
{
    matches!(word, Keyword::Try)
}

/// Whether the second part may stand behind the first.
fn follows(before: Keyword, word: Keyword) -> bool
    ensures { result ≡ words.follows before word }
{
    match word {
        Keyword::Elseif | Keyword::Else => is_arm(before),
        Keyword::Case | Keyword::Otherwise => is_choice(before),
        Keyword::Catch => is_try(before),
        _ => false,
    }
}

/// A part that goes on with a compound statement, if it may.
fn linked_if(
    fits: bool,
    level: Level,
    root: Root,
    levels: Pile<Level>,
    block: Items<Stmt>,
) -> Option<Spot>
    ensures { result ≡ (if fits then Some (Spot.Linked level.opened block (spec.site_of root levels level.before)) else None) }
{
    if fits {
        let Level { opened, before } = level;
        let site = Site {
            root,
            levels,
            block: before,
        };
        Some(Spot::Linked(opened, block, site))
    } else {
        None
    }
}

/// A part that goes on with this compound statement.
fn linked(
    word: Keyword,
    level: Level,
    root: Root,
    levels: Pile<Level>,
    block: Items<Stmt>,
) -> Option<Spot>
    ensures { result ≡ spec.link_on word root (level ∷ levels) block }
{
    let fits = follows(level.opened.word, word);
    linked_if(fits, level, root, levels, block)
}

/// Where a part stands that goes on with the compound statement at hand.
fn link_spot(word: Keyword, site: Site) -> Option<Spot>
    ensures { result ≡ spec.link_spot word site }
{
    let Site {
        root,
        levels,
        block,
    } = site;
    let mut levels = levels;
    match levels.pop() {
        None => None,
        Some(level) => linked(word, level, root, levels, block),
    }
}

/// A part that begins a compound statement, if it may.
fn spot_here(fits: bool, site: Site) -> Option<Spot>
    ensures { result ≡ (if fits then Some (Spot.Here site) else None) }
{
    if fits { Some(Spot::Here(site)) } else { None }
}

/// Where a part stands that goes on with a compound statement, or begins one.
fn spot_by(link: bool, word: Keyword, site: Site) -> Option<Spot>
    ensures { result ≡ (if link then spec.link_spot word site else (if below_spec.allows site word then Some (Spot.Here site) else None)) }
{
    if link {
        link_spot(word, site)
    } else {
        let fits = allows(&site, word);
        spot_here(fits, site)
    }
}

/// Where a part with this keyword stands.
fn spot_of(word: Keyword, site: Site) -> Option<Spot>
    ensures { result ≡ spec.spot_of word site }
{
    spot_by(is_link(word), word, site)
}

/// The statements of a part without a header come.
fn enter_direct(alloc: Global, fits: bool, word: Keyword, mark: Mark, spot: Spot) -> Step
    ensures { Gives result (step_spec.roomy fits (Ok (spec.part_state Use.Direct word mark spot))) }
{
    let site = enter(alloc, Part::Unheaded(word, mark), spot)?;
    roomy(fits, State::Start(site))
}

/// The value of a part has to come.
fn test_of(alloc: Global, word: Keyword, mark: Mark, spot: Spot) -> State
    ensures { result ≡ spec.part_state Use.Tests word mark spot }
{
    let frames = Pile::new(alloc);
    let bottom = Bottom::Lead(Lead::Test(word, mark), spot);
    State::Operand(Stack { frames, bottom })
}

/// The keyword of a part at its spot.
fn on_spot(alloc: Global, kind: Use, word: Keyword, mark: Mark, spot: Spot) -> Step
    ensures { Gives result (spec.on_spot kind word mark spot) }
{
    let fits = spot_room(&spot);
    match kind {
        Use::Loops => roomy(fits, State::Loop(word, mark, spot)),
        Use::Direct => enter_direct(alloc, fits, word, mark, spot),
        Use::Plain => roomy(fits, State::Ready(Heading::NoValue(word, mark), spot)),
        _ => roomy(fits, test_of(alloc, word, mark, spot)),
    }
}

/// The keyword of a part, at its spot if it has one.
fn part_at(alloc: Global, kind: Use, word: Keyword, mark: Mark, spot: Option<Spot>) -> Step
    ensures { Gives result (spec.part_at kind word mark spot) }
{
    match spot {
        None => refused(()),
        Some(spot) => on_spot(alloc, kind, word, mark, spot),
    }
}

/// A keyword that begins a part.
fn begin_part(alloc: Global, kind: Use, word: Keyword, mark: Mark, site: Site) -> Step
    ensures { Gives result (spec.part_word kind word mark site) }
{
    part_at(alloc, kind, word, mark, spot_of(word, site))
}

fn leave_kind(word: Keyword) -> StmtKind
    ensures { result ≡ tree_spec.leave_tree word }
{
    match word {
        Keyword::Continue => StmtKind::Continue,
        Keyword::Return => StmtKind::Return,
        _ => StmtKind::Break,
    }
}

/// `break`, `continue` or `return`.
#[tactic(auto, unfolding(crate::specs::Statements::leaving))]
fn leaving(word: Keyword, mark: Mark, site: Site) -> Step
    ensures { Gives result (spec.leaving word mark site) }
{
    if !allows(&site, word) {
        return refused(site);
    }
    let fits = site_room(1, &site);
    let kind = leave_kind(word);
    roomy(fits, State::Finished(Done { kind, mark }, site))
}

/// `end` behind the statements of a compound statement.
fn close_level(
    alloc: Global,
    level: Level,
    root: Root,
    levels: Pile<Level>,
    block: Items<Stmt>,
) -> Step
    ensures { Gives result (spec.close_level level root levels block) }
{
    let Level { opened, before } = level;
    let mark = opened.mark;
    let kind = closed(opened.owner, block, alloc)?;
    let site = Site {
        root,
        levels,
        block: before,
    };
    Ok(State::Finished(Done { kind, mark }, site))
}

/// A function is done.
fn end_function(top: Top, title: Title, block: Items<Stmt>) -> Step
    ensures { Gives result (spec.close_root (Root.Function top title) block) }
{
    let Top { body, functions } = top;
    let Title { name, params, outs } = title;
    let mut functions = functions;
    functions.push(Function {
        name,
        params,
        outs,
        body: block,
    })?;
    Ok(State::Between(Top { body, functions }))
}

/// `end` behind the statements of a function.
fn close_root(root: Root, block: Items<Stmt>) -> Step
    ensures { Gives result (spec.close_root root block) }
{
    match root {
        Root::Script => refused(block),
        Root::Function(top, title) => end_function(top, title, block),
    }
}

/// `end` where a statement may come.
#[tactic(auto, unfolding(crate::specs::Statements::ending))]
fn ending(alloc: Global, site: Site) -> Step
    ensures { Gives result (spec.ending site) }
{
    let Site {
        root,
        levels,
        block,
    } = site;
    let mut levels = levels;
    match levels.pop() {
        None => close_root(root, block),
        Some(level) => close_level(alloc, level, root, levels, block),
    }
}

/// `function` behind the statements of a script.
fn define_root(alloc: Global, root: Root, block: Items<Stmt>) -> Step
    ensures { Gives result (spec.define_root root block) }
{
    match root {
        Root::Script => {
            let functions = Items::new(alloc);
            let top = Top {
                body: block,
                functions,
            };
            Ok(State::Titling(top, Titling::Begun))
        }
        Root::Function(top, _) => refused(top),
    }
}

/// `function` where a statement may come.
#[tactic(auto, unfolding(crate::specs::Statements::defining))]
fn defining(alloc: Global, site: Site) -> Step
    ensures { Gives result (spec.defining site) }
{
    let Site {
        root,
        levels,
        block,
    } = site;
    if levels.is_empty() {
        define_root(alloc, root, block)
    } else {
        refused(root)
    }
}

/// A keyword where a statement may come, by what it is.
#[tactic(auto, unfolding(crate::specs::Statements::by_use))]
fn by_kind(alloc: Global, kind: Use, word: Keyword, mark: Mark, site: Site) -> Step
    ensures { Gives result (spec.by_use kind word mark site) }
{
    match kind {
        Use::Leaves => leaving(word, mark, site),
        Use::Ends => ending(alloc, site),
        Use::Defines => defining(alloc, site),
        Use::Unused => refused(site),
        kind => begin_part(alloc, kind, word, mark, site),
    }
}

/// A keyword where a statement may come.
fn by_use(alloc: Global, word: Keyword, mark: Mark, site: Site) -> Step
    ensures { Gives result (spec.by_use (spec.use_of word) word mark site) }
{
    by_kind(alloc, use_of(word), word, mark, site)
}

/// An expression begins a statement.
#[tactic(auto, unfolding(crate::specs::Statements::begin))]
fn begin(alloc: Global, word: &Word, mark: Mark, site: Site) -> Step
    ensures { Gives result (spec.begin word.now mark site) }
{
    if !holds(&site) {
        return refused(site);
    }
    let fits = site_room(1, &site);
    let frames = Pile::new(alloc);
    let bottom = Bottom::Goal(Goal::Shown, site);
    match read_operand(alloc, word, mark, Stack { frames, bottom }) {
        Ok(state) => roomy(fits, state),
        Err(fault) => Err(fault),
    }
}

/// Where a statement may come.
#[tactic(auto, unfolding(crate::specs::Statements::read_start))]
pub fn read_start(alloc: Global, word: &Word, mark: Mark, site: Site) -> Step
    ensures { Gives result (spec.read_start word.now mark site) }
{
    match word {
        Word::Comma | Word::Semicolon | Word::LineEnd => Ok(State::Start(site)),
        Word::Key(word) => by_use(alloc, *word, mark, site),
        _ => begin(alloc, word, mark, site),
    }
}

/// Whether a separator shows the value of what stands before it; nothing, for any other word.
pub fn shows(word: &Word) -> Option<bool>
    ensures { result ≡ spec.shows word.now }
{
    match word {
        Word::Comma | Word::LineEnd => Some(true),
        Word::Semicolon => Some(false),
        _ => None,
    }
}

/// No program; two things are let go.
fn refused_both<T: Drop, U: Drop>(held: T, other: U) -> Step
    ensures { result ≡ Err (Or.Is FaultKind.Unexpected) }
{
    drop(other);
    refused(held)
}

/// A statement and its separator.
fn end_statement(done: Done, show: bool, site: Site) -> Step
    ensures { Gives result (Ok (State.Start (step_spec.ended done show site))) }
{
    let site = ended(done, show, site)?;
    Ok(State::Start(site))
}

/// Behind a statement.
#[tactic(auto, unfolding(crate::specs::Statements::behind_statement))]
pub fn behind_statement(word: &Word, done: Done, site: Site) -> Step
    ensures { Gives result (spec.behind_statement word.now done site) }
{
    match shows(word) {
        None => refused_both(done, site),
        Some(show) => end_statement(done, show, site),
    }
}

/// Memory is wanting; what was held is let go. In a function of its own, so that nothing is dropped where it is called.
fn wanting<T: Drop>(held: T) -> Step
    ensures { result ≡ Err Or.Memory }
{
    drop(held);
    Err(Or::Memory)
}

/// Behind `for` or `parfor`.
#[tactic(auto, unfolding(crate::specs::Statements::behind_loop))]
pub fn behind_loop(
    alloc: Global,
    word: &Word,
    mark: Mark,
    key: Keyword,
    at: Mark,
    spot: Spot,
) -> Step
    ensures { Gives result (spec.behind_loop word.now mark key at spot) }
{
    match word {
        Word::Name(text) => match text.copy(alloc) {
            Ok(text) => {
                let place = mark.place;
                Ok(State::Index(key, at, Name { text, place }, spot))
            }
            Err(_) => wanting(spot),
        },
        Word::Open => Ok(State::LoopIn(key, at, spot)),
        _ => refused(spot),
    }
}

/// Behind the parenthesis of a loop's header.
#[tactic(auto, unfolding(crate::specs::Statements::behind_loop_in))]
pub fn behind_loop_in(
    alloc: Global,
    word: &Word,
    mark: Mark,
    key: Keyword,
    at: Mark,
    spot: Spot,
) -> Step
    ensures { Gives result (spec.behind_loop_in word.now mark key at spot) }
{
    match word {
        Word::Name(text) => match text.copy(alloc) {
            Ok(text) => {
                let place = mark.place;
                Ok(State::IndexIn(key, at, Name { text, place }, spot))
            }
            Err(_) => wanting(spot),
        },
        _ => refused(spot),
    }
}

/// Behind the name of a loop.
pub fn behind_index(alloc: Global, word: &Word, bottom: Bottom) -> Step
    ensures { Gives result (spec.behind_index word.now bottom) }
{
    match word {
        Word::Equal => {
            let frames = Pile::new(alloc);
            Ok(State::Operand(Stack { frames, bottom }))
        }
        _ => refused(bottom),
    }
}

/// The mark of `spmd` without its count of workers; nothing, for any other header.
fn spmd_mark(heading: &Heading) -> Option<Mark>
    ensures { MatchOption result ((spot : Spot) → spec.count_of heading.now spot ≡ step_spec.refused) (λ mark. heading.now ≡ Heading.NoValue Keyword.Spmd mark) }
{
    match heading {
        Heading::NoValue(Keyword::Spmd, mark) => Some(*mark),
        _ => None,
    }
}

/// The count of workers has to come.
fn workers_of(alloc: Global, mark: Mark, spot: Spot) -> Step
    ensures { Gives result (spec.count_of (Heading.NoValue Keyword.Spmd mark) spot) }
{
    let frames = Pile::new(alloc);
    let bottom = Bottom::Inner(Inner::Workers(mark), spot);
    Ok(State::Operand(Stack { frames, bottom }))
}

/// `(` behind a header: `spmd` may have its count of workers in parentheses.
fn count_of(alloc: Global, heading: Heading, spot: Spot) -> Step
    ensures { Gives result (spec.count_of heading spot) }
{
    let found = spmd_mark(&heading);
    drop(heading);
    match found {
        Some(mark) => workers_of(alloc, mark, spot),
        None => refused(spot),
    }
}

/// The statements of a part with a header come.
fn enter_headed(alloc: Global, heading: Heading, spot: Spot) -> Step
    ensures { Gives result (Ok (State.Start (part_spec.enter (Part.Headed heading) spot))) }
{
    let site = enter(alloc, Part::Headed(heading), spot)?;
    Ok(State::Start(site))
}

/// Behind a header, where no parenthesis stands.
fn headed(alloc: Global, separator: Option<bool>, heading: Heading, spot: Spot) -> Step
    ensures { Gives result (spec.headed separator heading spot) }
{
    match separator {
        None => refused(spot),
        Some(_) => enter_headed(alloc, heading, spot),
    }
}

/// Behind a header.
#[tactic(auto, unfolding(crate::specs::Statements::behind_heading))]
pub fn behind_heading(alloc: Global, word: &Word, heading: Heading, spot: Spot) -> Step
    ensures { Gives result (spec.behind_heading word.now heading spot) }
{
    let separator = shows(word);
    match word {
        Word::Open => count_of(alloc, heading, spot),
        _ => headed(alloc, separator, heading, spot),
    }
}
