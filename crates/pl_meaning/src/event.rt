//! What a run tells, what it asks, and what it is answered.

use pl_base::{ErrKind, Place, ScriptError, Seq, Text};
use pl_syntax::{Name, Stmt};
use pl_values::Value;
use sqlite_items::Items;

/// An event that a run tells its world, in the order in which it comes.
#[derive(Debug, Drop)]
pub enum Event {
    /// A text that the script prints.
    Print(Text),
}

/// A question of a run to its world.
pub enum Question<'p> {
    Loop(Loop<'p>),
    /// An extra, by its number in the program's table: its operands, and how many outputs it is asked for. The client
    /// alone asks it.
    Extra(u32, Seq<Value>, u32),
}

/// A loop over workers that is to be run, with the scope in which it stands, its place, its index, its body, the first
/// value of its index and the count of its iterations.
#[derive(Clone, Copy)]
pub struct Loop<'p> {
    pub scope: usize,
    pub place: Place,
    pub index: &'p Name,
    pub body: &'p Items<Stmt>,
    pub first: i64,
    pub count: u32,
}

/// The values of a loop's index: the first, and how many.
#[derive(Clone, Copy, Debug)]
pub struct Bounds {
    pub first: i64,
    pub count: u32,
}

/// An answer to a question.
#[derive(Debug, Drop)]
pub enum Answer {
    /// The loop raised this error.
    Raised(ScriptError),
    /// The loop is done.
    Looped(Looped),
    /// What an extra answers, the text that is printed for it first, and how many calls it started.
    Extra(ExtraAnswer, Text, u32),
}

/// What an extra answers.
#[derive(Debug, Drop)]
pub enum ExtraAnswer {
    /// Its outputs.
    Values(Seq<Value>),
    /// An error, with its text. It has a place where it is that of a call which the extra reads; else it is raised
    /// where the extra stands.
    Raised(ErrKind, Text, Option<Place>),
}

/// What a loop that is done comes to: the text that its iterations printed, in their order, and the variables that
/// they wrote.
#[derive(Debug, Drop)]
pub struct Looped {
    pub text: Text,
    pub outputs: Seq<Output>,
}

/// A variable that a loop wrote, and its value behind the loop.
#[derive(Debug, Drop)]
pub struct Output {
    pub slot: u32,
    pub value: Value,
}

/// A variable of which the writes of a loop's iterations don't go together, and why.
#[derive(Debug, Drop)]
pub struct Clash {
    pub slot: u32,
    pub kind: ErrKind,
}
