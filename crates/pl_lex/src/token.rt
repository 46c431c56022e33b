//! What the lexer answers: tokens, and the fault that a source can have in their place.

use pl_base::Place;

/// What a token is.
#[derive(Clone, Copy, Debug, PartialEq, Eq)]
pub enum Kind {
    Name,
    Keyword,
    Literal,
    /// A text in single or double quotes.
    Chars,
    /// A sign; a quote that transposes is one, also behind a dot.
    Sign,
    /// LF or CR LF.
    LineEnd,
}

/// A token: the bytes of the source from `from` to before `to`.
#[derive(Clone, Copy, Debug, PartialEq, Eq)]
pub struct Token {
    pub kind: Kind,
    pub from: u32,
    pub to: u32,
    /// White space stands between the token before and this one.
    pub gap: bool,
}

/// Why a source has no tokens.
#[derive(Clone, Copy, Debug, PartialEq, Eq)]
pub enum LexKind {
    /// A byte that begins no token.
    BadByte,
    /// A text without a closing quote on its line.
    OpenText,
    /// A literal over 9223372036854775807.
    LiteralRange,
    /// A literal with a letter, an underscore or a decimal point behind it.
    NotWhole,
}

/// The first fault of a source, at the first byte of what has it.
#[derive(Clone, Copy, Debug, PartialEq, Eq)]
pub struct LexFault {
    pub kind: LexKind,
    pub place: Place,
}
