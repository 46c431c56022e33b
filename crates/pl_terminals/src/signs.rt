//! Signs and keywords.

ghost use Rattle.std.specs.Prelude.{◌≡◌};
ghost use Rattle.pl_lex.specs.Keywords as words;
ghost use Rattle.pl_terminals.specs.Signs as spec;

use pl_grammar::{Keyword, Word};
use pl_syntax::Bin;

/// A sign of one byte, or of two.
fn lone(byte: u8) -> Word
    ensures { result ≡ spec.lone byte }
{
    match byte {
        b'+' => Word::Binary(Bin::Add),
        b'-' => Word::Binary(Bin::Sub),
        b'*' => Word::Binary(Bin::Mul),
        b'/' => Word::Binary(Bin::Div),
        b'^' => Word::Binary(Bin::Pow),
        b'<' => Word::Binary(Bin::Lt),
        b'>' => Word::Binary(Bin::Gt),
        b'&' => Word::Binary(Bin::And),
        b'|' => Word::Binary(Bin::Or),
        b'~' => Word::Not,
        b'\'' => Word::Quote,
        b'=' => Word::Equal,
        b':' => Word::Colon,
        b',' => Word::Comma,
        b';' => Word::Semicolon,
        b'(' => Word::Open,
        b')' => Word::Close,
        _ => bracket(byte),
    }
}

fn bracket(byte: u8) -> Word
    ensures { result ≡ spec.bracket byte }
{
    match byte {
        b'[' => Word::OpenSquare,
        b']' => Word::CloseSquare,
        b'{' => Word::OpenBrace,
        b'}' => Word::CloseBrace,
        b'@' => Word::At,
        _ => Word::Dot,
    }
}

/// A sign behind a dot.
fn dotted(byte: u8) -> Word
    ensures { result ≡ spec.dotted byte }
{
    match byte {
        b'*' => Word::Binary(Bin::DotMul),
        b'/' => Word::Binary(Bin::DotDiv),
        b'^' => Word::Binary(Bin::DotPow),
        _ => Word::Quote,
    }
}

/// A sign of two bytes by its first.
fn double(first: u8, second: u8) -> Word
    ensures { result ≡ spec.double first second }
{
    match first {
        b'.' => dotted(second),
        b'<' => Word::Binary(Bin::Le),
        b'>' => Word::Binary(Bin::Ge),
        b'=' => Word::Binary(Bin::Eq),
        b'~' => Word::Binary(Bin::Ne),
        b'&' => Word::Binary(Bin::AndAlso),
        _ => Word::Binary(Bin::OrElse),
    }
}

/// The sign with these bytes.
pub fn sign(bytes: &[u8]) -> Word
    ensures { result ≡ spec.sign bytes.now }
{
    match bytes {
        [] => Word::Dot,
        [byte] => lone(*byte),
        [first, second, ..] => double(*first, *second),
    }
}

fn same(a: &[u8], b: &[u8]) -> bool
    ensures { result ≡ words.same a.now b.now }
{
    a == b
}

/// The keyword with these bytes.
#[tactic(auto, unfolding(crate::specs::Signs::keyword))]
pub fn keyword(bytes: &[u8]) -> Keyword
    ensures { result ≡ spec.keyword bytes.now }
{
    if same(b"break", bytes) {
        Keyword::Break
    } else if same(b"case", bytes) {
        Keyword::Case
    } else if same(b"catch", bytes) {
        Keyword::Catch
    } else if same(b"classdef", bytes) {
        Keyword::Classdef
    } else if same(b"continue", bytes) {
        Keyword::Continue
    } else if same(b"else", bytes) {
        Keyword::Else
    } else if same(b"elseif", bytes) {
        Keyword::Elseif
    } else if same(b"end", bytes) {
        Keyword::End
    } else if same(b"for", bytes) {
        Keyword::For
    } else if same(b"function", bytes) {
        Keyword::Function
    } else {
        later_keyword(bytes)
    }
}

/// A keyword behind `function` in the order of letters.
#[tactic(auto, unfolding(crate::specs::Signs::later_keyword))]
fn later_keyword(bytes: &[u8]) -> Keyword
    ensures { result ≡ spec.later_keyword bytes.now }
{
    if same(b"global", bytes) {
        Keyword::Global
    } else if same(b"if", bytes) {
        Keyword::If
    } else if same(b"otherwise", bytes) {
        Keyword::Otherwise
    } else if same(b"parfor", bytes) {
        Keyword::Parfor
    } else if same(b"persistent", bytes) {
        Keyword::Persistent
    } else if same(b"return", bytes) {
        Keyword::Return
    } else if same(b"spmd", bytes) {
        Keyword::Spmd
    } else if same(b"switch", bytes) {
        Keyword::Switch
    } else if same(b"try", bytes) {
        Keyword::Try
    } else {
        Keyword::While
    }
}
