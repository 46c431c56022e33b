//! A case while it is read: what was said of it so far.

ghost use Rattle.std.specs.Prelude.{◌≡◌, IfOk};
ghost use Rattle.pl_cases.specs.Answers.{Gives, Leaves};
ghost use Rattle.pl_cases.specs.Drafts as spec;

use crate::bytes::{copies, is_one_of};
use crate::cases::{Case, Given, Limits, Wanted};
use crate::line::Head;
use crate::malformed::{Malformed, Reason};
use crate::mark::{Mark, Object};
use crate::section::Section;
use pl_base::{NoMemory, Or, Seq, Text, Word};
use std::alloc::Global;

/// What a sink can hold where nothing is said of it.
const ROOM: u32 = 1_000_000;

#[derive(Debug, Drop)]
pub struct Draft {
    pub name: Text,
    pub line: u64,
    pub words: Option<Seq<Word>>,
    pub given: Given,
    pub out_room: Option<u32>,
    pub out_fails: Seq<u64>,
    pub notes_room: Option<u32>,
    pub notes_fails: Seq<u64>,
    pub status: Option<u8>,
    pub outs: Seq<Text>,
    pub notes: Option<Text>,
    pub choices: Option<Text>,
    pub with_all_workers: bool,
}

impl Draft {
    /// A case of which nothing is said yet.
    pub fn new(alloc: Global, name: &[u8], line: u64) -> Result<Draft, Or<Malformed>>
        ensures { Gives result (spec.begun_case name.now line) }
    {
        if name.is_empty() {
            return Err(Or::Is(Malformed {
                line,
                reason: Reason::NoName,
            }));
        }
        let given = Given {
            names: Seq::empty(alloc),
            bytes: Seq::empty(alloc),
            fails: Seq::empty(alloc),
        };
        Ok(Draft {
            name: Text::of(alloc, name)?,
            line,
            words: None,
            given,
            out_room: None,
            out_fails: Seq::empty(alloc),
            notes_room: None,
            notes_fails: Seq::empty(alloc),
            status: None,
            outs: Seq::empty(alloc),
            notes: None,
            choices: None,
            with_all_workers: false,
        })
    }

    /// What the section says of the case.
    pub fn add(&mut self, alloc: Global, section: &Section) -> Result<(), Or<Reason>>
        ensures { Leaves result self.new (spec.said self.old section.now.text section.now.head) }
    {
        match &section.head {
            // Here another case begins: nothing is said of this one.
            Head::Case(_) => Ok(()),
            Head::Command(words) => self.add_command(copies(alloc, words.items())?),
            Head::Mark(mark) => self.add_mark(alloc, mark, &section.text),
        }
    }

    fn add_command(&mut self, words: Seq<Word>) -> Result<(), Or<Reason>>
        ensures { Leaves result self.new (spec.with_command self.old self.old.words words) }
    {
        if self.words.is_some() {
            return Err(Or::Is(Reason::SecondCommand));
        }
        self.words = Some(words);
        Ok(())
    }

    fn add_mark(&mut self, alloc: Global, mark: &Mark, text: &Text) -> Result<(), Or<Reason>>
        ensures { Leaves result self.new (spec.said_by_mark self.old text.now mark.now) }
    {
        match mark {
            Mark::File(name) => self.add_file(name.copy(alloc)?, text.copy(alloc)?),
            Mark::Out => self.add_out(text.copy(alloc)?),
            Mark::Or => self.add_other_out(text.copy(alloc)?),
            Mark::Notes => once(&mut self.notes, text.copy(alloc)?),
            Mark::Choices => once(&mut self.choices, text.copy(alloc)?),
            Mark::Status(status) => once(&mut self.status, *status),
            Mark::Fail(object, call) => self.add_fail(*object, *call),
            Mark::OutRoom(room) => once(&mut self.out_room, *room),
            Mark::NotesRoom(room) => once(&mut self.notes_room, *room),
            Mark::AllWorkers => self.add_all_workers(),
        }
    }

    fn add_all_workers(&mut self) -> Result<(), Or<Reason>>
        ensures { Leaves result self.new (spec.with_all self.old self.old.with_all_workers) }
    {
        if self.with_all_workers {
            return Err(Or::Is(Reason::Twice));
        }
        self.with_all_workers = true;
        Ok(())
    }

    fn add_file(&mut self, name: Text, bytes: Text) -> Result<(), Or<Reason>>
        ensures { Leaves result self.new (spec.with_file self.old name bytes) }
    {
        if is_one_of(name.bytes(), self.given.names.items()) {
            return Err(Or::Is(Reason::Twice));
        }
        self.given.names.push(name)?;
        self.given.bytes.push(bytes)?;
        Ok(())
    }

    fn add_out(&mut self, text: Text) -> Result<(), Or<Reason>>
        ensures { Leaves result self.new (spec.with_out self.old self.old.outs text) }
    {
        if !self.outs.items().is_empty() {
            return Err(Or::Is(Reason::Twice));
        }
        self.outs.push(text)?;
        Ok(())
    }

    fn add_other_out(&mut self, text: Text) -> Result<(), Or<Reason>>
        ensures { Leaves result self.new (spec.with_other_out self.old self.old.outs text) }
    {
        if self.outs.items().is_empty() {
            return Err(Or::Is(Reason::OrWithoutOut));
        }
        self.outs.push(text)?;
        Ok(())
    }

    fn add_fail(&mut self, object: Object, call: u64) -> Result<(), Or<Reason>>
        ensures { Leaves result self.new (spec.with_fail self.old call object) }
    {
        match object {
            Object::Files => self.given.fails.push(call)?,
            Object::Out => self.out_fails.push(call)?,
            Object::Notes => self.notes_fails.push(call)?,
        }
        Ok(())
    }

    /// The whole case.
    pub fn finish(self, alloc: Global) -> Result<Case, Or<Malformed>>
        ensures { Gives result (spec.finished self self.words) }
    {
        let Draft {
            name,
            line,
            words,
            given,
            out_room,
            out_fails,
            notes_room,
            notes_fails,
            status,
            outs,
            notes,
            choices,
            with_all_workers,
        } = self;
        let Some(words) = words else {
            return Err(Or::Is(Malformed {
                line,
                reason: Reason::NoCommand,
            }));
        };
        Ok(Case {
            name,
            line,
            words,
            given,
            out: limits(out_room, out_fails),
            notes: limits(notes_room, notes_fails),
            wanted: wanted(alloc, status, outs, notes, choices)?,
            with_all_workers,
        })
    }
}

/// The limits of a sink.
fn limits(room: Option<u32>, fails: Seq<u64>) -> Limits
    ensures { result ≡ spec.limits room fails }
{
    Limits {
        room: room.unwrap_or(ROOM),
        fails,
    }
}

/// What is wanted of a run.
fn wanted(
    alloc: Global,
    status: Option<u8>,
    outs: Seq<Text>,
    notes: Option<Text>,
    choices: Option<Text>,
) -> Result<Wanted, NoMemory>
    ensures { IfOk result (λ wanted. wanted ≡ spec.wanted status outs notes choices) }
{
    Ok(Wanted {
        status: status.unwrap_or(0),
        outs: some_out(alloc, outs)?,
        notes: notes.unwrap_or(Text::from_vec(Vec::new(alloc))),
        choices,
    })
}

/// The outputs that are allowed: one without bytes where none is named.
fn some_out(alloc: Global, mut outs: Seq<Text>) -> Result<Seq<Text>, NoMemory>
    ensures { IfOk result (λ some. some ≡ spec.some_out outs) }
{
    if outs.items().is_empty() {
        outs.push(Text::from_vec(Vec::new(alloc)))?;
    }
    Ok(outs)
}

/// Sets what wasn't set before.
fn once<T: Drop>(place: &mut Option<T>, value: T) -> Result<(), Or<Reason>>
    ensures { Leaves result place.new (spec.once place.old value) }
{
    if place.is_some() {
        return Err(Or::Is(Reason::Twice));
    }
    *place = Some(value);
    Ok(())
}
