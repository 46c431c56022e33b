//! The parts of compound statements: what a header makes of the statement that it belongs to.

ghost use Rattle.std.specs.Prelude.{◌≡◌, IfOk};
ghost use Rattle.pl_grammar.specs.Trees as tree_spec;
ghost use Rattle.pl_grammar.specs.Words as words;
ghost use Rattle.pl_frames.specs.Parts as spec;

use crate::operand::Mark;
use crate::stack::{Heading, Inner, Lead, Level, Opened, Part, Site, Spot};
use pl_base::NoMemory;
use pl_grammar::{Keyword, Owner};
use pl_syntax::{Arm, Expr, Name, Stmt, StmtKind};
use sqlite_items::Items;
use std::alloc::Global;

/// An arm behind those before.
fn with_arm(arms: Items<Arm>, test: Expr, body: Items<Stmt>) -> Result<Items<Arm>, NoMemory>
    ensures { IfOk result (λ more. more ≡ spec.with_arm arms test body) }
{
    let mut arms = arms;
    arms.push(Arm { test, body })?;
    Ok(arms)
}

fn for_owner(word: Keyword, name: Name, range: Expr) -> Owner
    ensures { result ≡ tree_spec.for_owner word name range }
{
    match word {
        Keyword::Parfor => Owner::Parfor(name, range, None),
        _ => Owner::For(name, range),
    }
}

fn test_owner(alloc: Global, word: Keyword, test: Expr) -> Owner
    ensures { result ≡ tree_spec.test_owner word test }
{
    match word {
        Keyword::While => Owner::While(test),
        Keyword::Switch => Owner::Switch(test),
        _ => Owner::If(Items::new(alloc), test),
    }
}

fn lead_owner(alloc: Global, lead: Lead, value: Expr) -> Owner
    ensures { result ≡ spec.lead_owner lead value }
{
    match lead {
        Lead::Test(word, _) => test_owner(alloc, word, value),
        Lead::Each(word, _, name) => for_owner(word, name, value),
    }
}

fn inner_owner(inner: Inner, value: Expr) -> Owner
    ensures { result ≡ spec.inner_owner inner value }
{
    match inner {
        Inner::EachIn(word, _, name) => for_owner(word, name, value),
        Inner::Bound(_, name, range) => Owner::Parfor(name, range, Some(value)),
        Inner::Workers(_) => Owner::Spmd(Some(value)),
    }
}

fn heading_owner(alloc: Global, heading: Heading) -> Owner
    ensures { result ≡ spec.heading_owner heading }
{
    match heading {
        Heading::Upto(lead, value) => lead_owner(alloc, lead, value),
        Heading::Shut(inner, value) => inner_owner(inner, value),
        Heading::NoValue(_, _) => Owner::Spmd(None),
    }
}

/// The first part of a compound statement.
fn begun(alloc: Global, part: Part) -> Owner
    ensures { result ≡ spec.begun part }
{
    match part {
        Part::Headed(heading) => heading_owner(alloc, heading),
        Part::Unheaded(_, _) => Owner::Try,
    }
}

/// What a further part with a value finds before it.
#[derive(Drop)]
enum Turn {
    /// The arms of an `if` before, and the test of the one that is done.
    Arm(Items<Arm>, Expr),
    /// A `switch` before its first case.
    Subject(Expr),
    /// The value of a `switch`, the cases before, and the value of the one that is done.
    Case(Expr, Items<Arm>, Expr),
    /// A statement that has no such part.
    Other(Owner),
}

fn turn_of(owner: Owner) -> Turn
    ensures { result ≡ spec.turn_of owner }
{
    match owner {
        Owner::If(arms, test) => Turn::Arm(arms, test),
        Owner::Switch(subject) => Turn::Subject(subject),
        Owner::Case(subject, arms, test) => Turn::Case(subject, arms, test),
        owner => Turn::Other(owner),
    }
}

/// The arm of an `if` is done, and the next one has this test.
fn turned_arm(
    arms: Items<Arm>,
    test: Expr,
    block: Items<Stmt>,
    value: Expr,
) -> Result<Owner, NoMemory>
    ensures { IfOk result (λ o. o ≡ Owner.If (spec.with_arm arms test block) value) }
{
    let arms = with_arm(arms, test, block)?;
    Ok(Owner::If(arms, value))
}

/// The case of a `switch` is done, and the next one has this value.
fn turned_case(
    subject: Expr,
    arms: Items<Arm>,
    test: Expr,
    block: Items<Stmt>,
    value: Expr,
) -> Result<Owner, NoMemory>
    ensures { IfOk result (λ o. o ≡ Owner.Case subject (spec.with_arm arms test block) value) }
{
    let arms = with_arm(arms, test, block)?;
    Ok(Owner::Case(subject, arms, value))
}

fn turned(alloc: Global, turn: Turn, block: Items<Stmt>, value: Expr) -> Result<Owner, NoMemory>
    ensures { IfOk result (λ o. o ≡ spec.turned turn block value) }
{
    match turn {
        Turn::Arm(arms, test) => turned_arm(arms, test, block, value),
        Turn::Subject(subject) => Ok(Owner::Case(subject, Items::new(alloc), value)),
        Turn::Case(subject, arms, test) => turned_case(subject, arms, test, block, value),
        Turn::Other(owner) => Ok(owner),
    }
}

/// The block is done, and a further part has this value.
#[tactic(auto, using(crate::proofs::Turns::turned_is))]
fn with_value(
    alloc: Global,
    owner: Owner,
    block: Items<Stmt>,
    value: Expr,
) -> Result<Owner, NoMemory>
    ensures { IfOk result (λ o. o ≡ tree_spec.with_value owner block value) }
{
    let turn = turn_of(owner);
    let owner = turned(alloc, turn, block, value)?;
    Ok(owner)
}

/// The last arm of an `if` with a test is done.
fn done_arm(arms: Items<Arm>, test: Expr, block: Items<Stmt>) -> Result<Owner, NoMemory>
    ensures { IfOk result (λ o. o ≡ Owner.Else (spec.with_arm arms test block)) }
{
    let arms = with_arm(arms, test, block)?;
    Ok(Owner::Else(arms))
}

/// The last case of a `switch` with a value is done.
fn done_case(
    subject: Expr,
    arms: Items<Arm>,
    test: Expr,
    block: Items<Stmt>,
) -> Result<Owner, NoMemory>
    ensures { IfOk result (λ o. o ≡ Owner.Otherwise subject (spec.with_arm arms test block)) }
{
    let arms = with_arm(arms, test, block)?;
    Ok(Owner::Otherwise(subject, arms))
}

/// The block is done, and a further part has no value.
fn with_none(alloc: Global, owner: Owner, block: Items<Stmt>) -> Result<Owner, NoMemory>
    ensures { IfOk result (λ o. o ≡ tree_spec.with_none owner block) }
{
    match owner {
        Owner::If(arms, test) => done_arm(arms, test, block),
        Owner::Switch(subject) => Ok(Owner::Otherwise(subject, Items::new(alloc))),
        Owner::Case(subject, arms, test) => done_case(subject, arms, test, block),
        Owner::Else(arms) => Ok(Owner::Else(arms)),
        Owner::While(test) => Ok(Owner::While(test)),
        Owner::For(name, range) => Ok(Owner::For(name, range)),
        Owner::Parfor(name, range, bound) => Ok(Owner::Parfor(name, range, bound)),
        Owner::Otherwise(subject, arms) => Ok(Owner::Otherwise(subject, arms)),
        Owner::Try => Ok(Owner::Try),
        Owner::Catch(body) => Ok(Owner::Catch(body)),
        Owner::Spmd(workers) => Ok(Owner::Spmd(workers)),
    }
}

/// The block is done, and a header with this value follows.
fn with_lead(
    alloc: Global,
    owner: Owner,
    block: Items<Stmt>,
    _lead: Lead,
    value: Expr,
) -> Result<Owner, NoMemory>
    ensures { IfOk result (λ o. o ≡ tree_spec.with_value owner block value) }
{
    let owner = with_value(alloc, owner, block, value)?;
    Ok(owner)
}

/// No further part has a parenthesis: the statement stays.
fn with_inner(owner: Owner, _block: Items<Stmt>, _inner: Inner, _value: Expr) -> Owner
    ensures { result ≡ owner }
{
    owner
}

/// What stood behind `try`. The statement before is given up in a list, which frees it as it frees all it holds.
fn with_catch(alloc: Global, owner: Owner, block: Items<Stmt>) -> Result<Owner, NoMemory>
    ensures { IfOk result (λ o. o ≡ Owner.Catch block) }
{
    let mut given_up = Items::new(alloc);
    given_up.push(owner)?;
    Ok(Owner::Catch(block))
}

fn with_heading(
    alloc: Global,
    owner: Owner,
    block: Items<Stmt>,
    heading: Heading,
) -> Result<Owner, NoMemory>
    ensures { IfOk result (λ o. o ≡ spec.with_heading owner block heading) }
{
    match heading {
        Heading::Upto(lead, value) => with_lead(alloc, owner, block, lead, value),
        Heading::Shut(inner, value) => Ok(with_inner(owner, block, inner, value)),
        Heading::NoValue(_, _) => with_catch(alloc, owner, block),
    }
}

fn with_part(alloc: Global, owner: Owner, block: Items<Stmt>, part: Part) -> Result<Owner, NoMemory>
    ensures { IfOk result (λ o. o ≡ spec.with_part owner block part) }
{
    match part {
        Part::Headed(heading) => with_heading(alloc, owner, block, heading),
        Part::Unheaded(_, _) => with_none(alloc, owner, block),
    }
}

/// An `if` that ends with an arm with a test.
fn closed_if(
    alloc: Global,
    arms: Items<Arm>,
    test: Expr,
    block: Items<Stmt>,
) -> Result<StmtKind, NoMemory>
    ensures { IfOk result (λ s. s ≡ tree_spec.closed (Owner.If arms test) block) }
{
    let arms = with_arm(arms, test, block)?;
    Ok(StmtKind::If(arms, Items::new(alloc)))
}

/// A `switch` that ends with a case.
fn closed_case(
    alloc: Global,
    subject: Expr,
    arms: Items<Arm>,
    test: Expr,
    block: Items<Stmt>,
) -> Result<StmtKind, NoMemory>
    ensures { IfOk result (λ s. s ≡ tree_spec.closed (Owner.Case subject arms test) block) }
{
    let arms = with_arm(arms, test, block)?;
    Ok(StmtKind::Switch(subject, arms, Items::new(alloc)))
}

/// The statement that a compound statement is, its last block done.
pub fn closed(owner: Owner, block: Items<Stmt>, alloc: Global) -> Result<StmtKind, NoMemory>
    ensures { IfOk result (λ s. s ≡ tree_spec.closed owner block) }
{
    match owner {
        Owner::If(arms, test) => closed_if(alloc, arms, test, block),
        Owner::Else(arms) => Ok(StmtKind::If(arms, block)),
        Owner::While(test) => Ok(StmtKind::While(test, block)),
        Owner::For(name, range) => Ok(StmtKind::For(name, range, block)),
        Owner::Parfor(name, range, bound) => Ok(StmtKind::Parfor(name, range, bound, block)),
        Owner::Switch(subject) => Ok(StmtKind::Switch(
            subject,
            Items::new(alloc),
            Items::new(alloc),
        )),
        Owner::Case(subject, arms, test) => closed_case(alloc, subject, arms, test, block),
        Owner::Otherwise(subject, arms) => Ok(StmtKind::Switch(subject, arms, block)),
        Owner::Try => Ok(StmtKind::Try(block, Items::new(alloc))),
        Owner::Catch(body) => Ok(StmtKind::Try(body, block)),
        Owner::Spmd(workers) => Ok(StmtKind::Spmd(workers, block)),
    }
}

/// The keyword of a part, and its mark.
#[derive(Clone, Copy)]
struct Front {
    word: Keyword,
    mark: Mark,
}

fn front_at(word: Keyword, mark: Mark) -> Front
    ensures { result ≡ spec.front word mark }
{
    Front { word, mark }
}

/// The keyword of a header, and its mark.
fn heading_word(heading: &Heading) -> Front
    ensures { result ≡ spec.heading_word heading.now }
{
    match heading {
        Heading::Upto(Lead::Test(word, mark), _) => front_at(*word, *mark),
        Heading::Upto(Lead::Each(word, mark, _), _) => front_at(*word, *mark),
        Heading::Shut(Inner::EachIn(word, mark, _), _) => front_at(*word, *mark),
        Heading::Shut(Inner::Bound(mark, _, _), _) => front_at(Keyword::Parfor, *mark),
        Heading::Shut(Inner::Workers(mark), _) => front_at(Keyword::Spmd, *mark),
        Heading::NoValue(word, mark) => front_at(*word, *mark),
    }
}

fn part_word(part: &Part) -> Front
    ensures { result ≡ spec.part_word part.now }
{
    match part {
        Part::Headed(heading) => heading_word(heading),
        Part::Unheaded(word, mark) => front_at(*word, *mark),
    }
}

/// A part behind a block of a compound statement.
fn continued(
    alloc: Global,
    opened: Opened,
    block: Items<Stmt>,
    part: Part,
) -> Result<Opened, NoMemory>
    ensures { IfOk result (λ o. o ≡ spec.continued opened block part) }
{
    let word = part_word(&part).word;
    let mark = opened.mark;
    let owner = with_part(alloc, opened.owner, block, part)?;
    Ok(Opened { owner, word, mark })
}

/// The first part of a compound statement, open.
fn first(alloc: Global, part: Part) -> Opened
    ensures { result ≡ spec.first part }
{
    let Front { word, mark } = part_word(&part);
    let owner = begun(alloc, part);
    Opened { owner, word, mark }
}

/// The site inside a compound statement.
fn within(alloc: Global, opened: Opened, site: Site) -> Result<Site, NoMemory>
    ensures { IfOk result (λ s. s ≡ spec.within opened site) }
{
    let Site {
        root,
        levels,
        block: before,
    } = site;
    let mut levels = levels;
    levels.push(Level { opened, before })?;
    let block = Items::new(alloc);
    Ok(Site {
        root,
        levels,
        block,
    })
}

/// The site of a part's block.
#[tactic(auto, unfolding(crate::specs::Parts::enter))]
pub fn enter(alloc: Global, part: Part, spot: Spot) -> Result<Site, NoMemory>
    ensures { IfOk result (λ s. s ≡ spec.enter part spot) }
{
    match spot {
        Spot::Here(site) => within(alloc, first(alloc, part), site),
        Spot::Linked(opened, block, site) => {
            let opened = continued(alloc, opened, block, part)?;
            within(alloc, opened, site)
        }
    }
}
