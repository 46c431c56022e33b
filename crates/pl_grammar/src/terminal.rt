//! Terminals: tokens with what the grammar needs to know of their bytes.

use pl_base::{Place, Text};
use pl_syntax::Bin;

/// A terminal: what it is, whether white space stands before it, and where it begins.
#[derive(Debug, Drop)]
pub struct Terminal {
    pub word: Word,
    pub gap: bool,
    pub place: Place,
}

/// What a terminal is.
#[derive(Debug, Drop)]
pub enum Word {
    Name(Text),
    /// A text without its quotes.
    Chars(Text),
    /// A literal.
    Number(i64),
    /// A sign of two operands; `+` and `-` may also stand before one.
    Binary(Bin),
    /// `~`
    Not,
    /// A quote that transposes, with or without a dot.
    Quote,
    Equal,
    Colon,
    Comma,
    Semicolon,
    LineEnd,
    Open,
    Close,
    OpenSquare,
    CloseSquare,
    OpenBrace,
    CloseBrace,
    At,
    Dot,
    Key(Keyword),
}

/// The keywords. `Classdef`, `Global` and `Persistent` stand in no program.
#[derive(Clone, Copy, Debug, PartialEq, Eq)]
pub enum Keyword {
    Break,
    Case,
    Catch,
    Classdef,
    Continue,
    Else,
    Elseif,
    End,
    For,
    Function,
    Global,
    If,
    Otherwise,
    Parfor,
    Persistent,
    Return,
    Spmd,
    Switch,
    Try,
    While,
}
