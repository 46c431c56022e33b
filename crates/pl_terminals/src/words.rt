//! The terminals of tokens.

ghost use Rattle.std.specs.Prelude.{◌≡◌, ◌≤◌, ◌<◌, length, map, All, IfOk};
ghost use Rattle.pl_lex.specs.Tokens.{IsTokenOf};
ghost use Rattle.pl_terminals.specs.Terminals as spec;

use crate::places::{first_place, place_on};
use crate::signs::{keyword, sign};
use crate::texts::{number, text};
use pl_base::{NoMemory, Place, Text};
use pl_grammar::{Terminal, Word};
use pl_lex::{Kind, Token};
use std::alloc::Global;

/// The word of a token with these bytes.
fn word_of(alloc: Global, kind: Kind, bytes: &[u8]) -> Result<Word, NoMemory>
    ensures { IfOk result (λ w. w ≡ spec.word_of kind bytes.now) }
{
    match kind {
        Kind::Name => Ok(Word::Name(Text::of(alloc, bytes)?)),
        Kind::Keyword => Ok(Word::Key(keyword(bytes))),
        Kind::Literal => Ok(Word::Number(number(bytes))),
        Kind::Chars => Ok(Word::Chars(text(alloc, bytes)?)),
        Kind::Sign => Ok(sign(bytes)),
        Kind::LineEnd => Ok(Word::LineEnd),
    }
}

/// The terminal of a token, and its place known.
fn terminal_of(
    alloc: Global,
    source: &[u8],
    token: Token,
    place: Place,
) -> Result<Terminal, NoMemory>
    requires { IsTokenOf source.now token }
    ensures { IfOk result (λ t. t ≡ spec.terminal_at source.now token place) }
{
    let bytes = &source[token.from as usize..token.to as usize];
    let word = word_of(alloc, token.kind, bytes)?;
    let gap = token.gap;
    Ok(Terminal { word, gap, place })
}

/// The terminals of tokens that are ranges of this source.
pub fn terminals(alloc: Global, tokens: &[Token], source: &[u8]) -> Result<Vec<Terminal>, NoMemory>
    requires short { length source.now ≤ 4294967294 }
    requires ranges { All (IsTokenOf source.now) tokens.now }
    ensures { IfOk result (λ v. v.items ≡ map (spec.terminal_of source.now) tokens.now) }
{
    let mut terminals = Vec::new(alloc);
    let mut place = first_place(source);
    for token in tokens {
        place = place_on(source, place, token.from as usize);
        terminals.push(terminal_of(alloc, source, *token, place)?)?;
    }
    Ok(terminals)
}
