//! The lines of a case that begin with `---`: what each one says.

ghost use Rattle.std.specs.Prelude.{◌≡◌};
ghost use Rattle.pl_cases.specs.Answers.{Gives};
ghost use Rattle.pl_cases.specs.Marks as spec;

use crate::bytes::number;
use crate::malformed::{Reason, refusing};
use pl_base::{Or, Text, Word};
use pl_words::same;
use std::alloc::Global;

/// The objects of the outside whose calls can be made to fail.
#[derive(Clone, Copy, Debug, PartialEq, Eq)]
pub enum Object {
    Files,
    Out,
    Notes,
}

#[derive(Debug, Drop)]
pub enum Mark {
    /// The bytes of a file of this name follow.
    File(Text),
    /// The output that is wanted follows.
    Out,
    /// Another output that is allowed follows.
    Or,
    /// The notes that are wanted follow.
    Notes,
    /// The choices that are wanted follow, a line each.
    Choices,
    Status(u8),
    /// The call of this number, from 1, fails.
    Fail(Object, u64),
    /// The sink of the output holds so many bytes.
    OutRoom(u32),
    /// The sink of the notes holds so many bytes.
    NotesRoom(u32),
    AllWorkers,
}

impl Mark {
    /// Reads the words behind `---`.
    pub fn of_words(alloc: Global, words: &[Word]) -> Result<Mark, Or<Reason>>
        ensures { Gives result (spec.mark_of words.now) }
    {
        match words {
            [word] => refusing(Mark::of_one(word.bytes())),
            [word, value] if same(b"file", word.bytes()) => Ok(Mark::File(value.copy(alloc)?)),
            [word, value] => refusing(Mark::of_two(word.bytes(), value.bytes())),
            [word, object, value] => {
                refusing(Mark::of_three(word.bytes(), object.bytes(), value.bytes()))
            }
            _ => Err(Or::Is(Reason::UnknownMark)),
        }
    }

    fn of_one(word: &[u8]) -> Result<Mark, Reason>
        ensures { result ≡ spec.of_one word.now }
    {
        if same(b"out", word) {
            return Ok(Mark::Out);
        }
        if same(b"or", word) {
            return Ok(Mark::Or);
        }
        if same(b"notes", word) {
            return Ok(Mark::Notes);
        }
        if same(b"choices", word) {
            return Ok(Mark::Choices);
        }
        if same(b"all", word) {
            return Ok(Mark::AllWorkers);
        }
        Err(Reason::UnknownMark)
    }

    /// The mark of a word and its value, where it is no file.
    fn of_two(word: &[u8], value: &[u8]) -> Result<Mark, Reason>
        ensures { result ≡ spec.of_two word.now value.now }
    {
        if same(b"status", word) {
            return Ok(Mark::Status(number(0, 255, value)? as u8));
        }
        if same(b"journal", word) {
            return Err(Reason::NotBuilt);
        }
        Err(Reason::UnknownMark)
    }

    fn of_three(word: &[u8], object: &[u8], value: &[u8]) -> Result<Mark, Reason>
        ensures { result ≡ spec.of_three word.now object.now value.now }
    {
        if same(b"fail", word) {
            return Mark::fail(object, value);
        }
        if same(b"room", word) {
            return Mark::room(object, value);
        }
        Err(Reason::UnknownMark)
    }

    fn fail(object: &[u8], value: &[u8]) -> Result<Mark, Reason>
        ensures { result ≡ spec.fail object.now value.now }
    {
        let object = Object::of_word(object)?;
        Ok(Mark::Fail(object, number(1, u64::MAX, value)?))
    }

    fn room(object: &[u8], value: &[u8]) -> Result<Mark, Reason>
        ensures { result ≡ spec.room object.now value.now }
    {
        if same(b"out", object) {
            return Ok(Mark::OutRoom(number(0, 4_294_967_295, value)? as u32));
        }
        if same(b"notes", object) {
            return Ok(Mark::NotesRoom(number(0, 4_294_967_295, value)? as u32));
        }
        Err(Reason::UnknownMark)
    }

    /// Text may follow that belongs to the mark.
    pub fn takes_text(&self) -> bool
        ensures { result ≡ spec.mark_takes_text self.now }
    {
        matches!(
            self,
            Mark::File(_) | Mark::Out | Mark::Or | Mark::Notes | Mark::Choices
        )
    }
}

impl Object {
    fn of_word(word: &[u8]) -> Result<Object, Reason>
        ensures { result ≡ spec.object_of word.now }
    {
        if same(b"read", word) {
            return Ok(Object::Files);
        }
        if same(b"out", word) {
            return Ok(Object::Out);
        }
        if same(b"notes", word) {
            return Ok(Object::Notes);
        }
        Err(Reason::UnknownMark)
    }
}
