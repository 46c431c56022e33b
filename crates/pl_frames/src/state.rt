//! The states of the parser: what has come, and so what may come.

use crate::operand::{Mark, Operand};
use crate::stack::{Done, Heading, Outgoing, Site, Spot, Stack, Title, Top};
use pl_base::Seq;
use pl_grammar::Keyword;
use pl_syntax::{Name, Target};
use sqlite_items::Items;

/// The signs that stand between operands and before one.
#[derive(Clone, Copy)]
pub enum Additive {
    Plus,
    Minus,
}

/// The title of a function, as far as it has been read.
#[derive(Drop)]
pub enum Titling {
    Begun,
    /// A name: its own or its output's.
    Worded(Name),
    /// Outputs and a comma, or none yet.
    OutsOf(Option<Seq<Name>>),
    OutOf(Seq<Name>),
    OutsShut(Seq<Name>),
    /// Behind `=`.
    Naming(Seq<Name>),
    Entitled(Seq<Name>, Name),
    /// Parameters and a comma, or none yet.
    ParamsOf(Seq<Name>, Name, Option<Seq<Option<Name>>>),
    ParamOf(Seq<Name>, Name, Seq<Option<Name>>),
    Titled(Title),
}

/// The state between two terminals.
#[derive(Drop)]
pub enum State {
    /// A statement may come.
    Start(Site),
    /// A statement that wants its separator.
    Finished(Done, Site),
    /// An operand has to come.
    Operand(Stack),
    /// An operand has come.
    After(Operand, Stack),
    /// Behind a colon that is an argument.
    Coloned(Mark, Stack),
    /// In a row, behind `+` or `-` with white space before it: the next terminal says what it is.
    Torn(Operand, Additive, Mark, Stack),
    /// Behind `@`.
    AtSign(Mark, Stack),
    /// Behind names that only a dot can follow.
    Stemmed(Operand, Stack),
    /// Behind a dot.
    Dot(Operand, Stack),
    /// In outputs that are no expressions: an output has to come, has come, and all have.
    Output(Mark, Outgoing, Site),
    OutputRead(Mark, Outgoing, Mark, Option<Target>, Site),
    OutputsShut(Mark, Items<Option<Target>>, Site),
    /// Behind `for`, behind its parenthesis, and behind its name.
    Loop(Keyword, Mark, Spot),
    LoopIn(Keyword, Mark, Spot),
    Index(Keyword, Mark, Name, Spot),
    IndexIn(Keyword, Mark, Name, Spot),
    /// A header that wants its separator.
    Ready(Heading, Spot),
    Titling(Top, Titling),
    /// Behind a function.
    Between(Top),
}
