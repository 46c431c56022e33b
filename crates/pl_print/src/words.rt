//! The bytes of words, and what words do to the line that they stand on.

ghost use Rattle.std.specs.Prelude.{◌≡◌};
ghost use Rattle.pl_grammar.specs.Words as words;
ghost use Rattle.pl_layout.specs.Layout as layout;

use pl_grammar::Keyword;

pub fn keyword_bytes(word: Keyword) -> &'static [u8]
    ensures { result.now ≡ layout.keyword_bytes word }
{
    match word {
        Keyword::Break => b"break",
        Keyword::Case => b"case",
        Keyword::Catch => b"catch",
        Keyword::Classdef => b"classdef",
        Keyword::Continue => b"continue",
        Keyword::Else => b"else",
        Keyword::Elseif => b"elseif",
        Keyword::End => b"end",
        Keyword::For => b"for",
        Keyword::Function => b"function",
        Keyword::Global => b"global",
        Keyword::If => b"if",
        Keyword::Otherwise => b"otherwise",
        Keyword::Parfor => b"parfor",
        Keyword::Persistent => b"persistent",
        Keyword::Return => b"return",
        Keyword::Spmd => b"spmd",
        Keyword::Switch => b"switch",
        Keyword::Try => b"try",
        Keyword::While => b"while",
    }
}

/// Whether a keyword opens a block.
pub fn opens_block(word: Keyword) -> bool
    ensures { result ≡ layout.opens_block word }
{
    match word {
        Keyword::If | Keyword::While | Keyword::For | Keyword::Parfor => true,
        Keyword::Switch | Keyword::Try | Keyword::Spmd | Keyword::Function => true,
        Keyword::Break | Keyword::Case | Keyword::Catch | Keyword::Classdef => false,
        Keyword::Continue | Keyword::Else | Keyword::Elseif | Keyword::End => false,
        Keyword::Global | Keyword::Otherwise | Keyword::Persistent | Keyword::Return => false,
    }
}

pub fn is_end(word: Keyword) -> bool
    ensures { result ≡ layout.is_end word }
{
    matches!(word, Keyword::End)
}

/// Whether a keyword begins a further part of a compound statement.
pub fn is_link(word: Keyword) -> bool
    ensures { result ≡ words.is_link word }
{
    match word {
        Keyword::Elseif | Keyword::Else | Keyword::Case => true,
        Keyword::Otherwise | Keyword::Catch => true,
        Keyword::If | Keyword::While | Keyword::For | Keyword::Parfor => false,
        Keyword::Switch | Keyword::Try | Keyword::Spmd | Keyword::Function => false,
        Keyword::Break | Keyword::Classdef | Keyword::Continue | Keyword::End => false,
        Keyword::Global | Keyword::Persistent | Keyword::Return => false,
    }
}
