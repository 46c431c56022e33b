//! The piece at the front of a text: what it is and how long. Each function looks at one sort of piece.

ghost use Rattle.std.specs.Prelude.{◌≡◌, ◌≤◌, ◌<◌, ◌+◌, true, false, length, IfOk, IfSome};
ghost use Rattle.pl_lex.specs.Pieces as pieces;
ghost use Rattle.pl_lex.specs.Scan as spec;

use crate::bytes::{Class, begins, blanks, class_of, digits, is_alone, parts, to_line_end};
use crate::keywords::is_keyword;
use crate::state::{Before, Part};
use crate::token::LexKind;

/// A piece: what it is, and how many bytes it has behind its first.
#[derive(Clone, Copy, Debug)]
pub(crate) struct Found {
    pub part: Part,
    pub more: usize,
}

fn piece(part: Part, more: usize) -> Found
    ensures { result ≡ spec.found part more }
{
    Found { part, more }
}

/// A piece that goes to the end of its line.
fn to_end(part: Part, text: &[u8]) -> Found
    requires { 0 < length text.now }
    ensures value { result ≡ spec.to_end part text.now }
    ensures within { result.more + 1 ≤ length text.now }
{
    piece(part, to_line_end(&text[1..]))
}

fn blank(text: &[u8]) -> Found
    requires { 0 < length text.now }
    ensures value { result ≡ spec.blank text.now }
    ensures within { result.more + 1 ≤ length text.now }
{
    piece(Part::Blank, blanks(&text[1..]))
}

#[tactic(auto, unfolding(crate::specs::Scan::word))]
fn word(text: &[u8]) -> Found
    requires { 0 < length text.now }
    ensures value { result ≡ spec.word text.now }
    ensures within { result.more + 1 ≤ length text.now }
{
    let more = parts(&text[1..]);
    if is_keyword(&text[..more + 1]) {
        piece(Part::Keyword, more)
    } else {
        piece(Part::Name, more)
    }
}

/// Whether the digits are those of an int64.
#[tactic(auto, using(crate::proofs::Numbers::number_from_grows))]
fn is_in_range(digits: &[u8]) -> bool
    ensures { result ≡ pieces.in_range digits.now }
{
    let mut number: u128 = 0;
    for digit in digits {
        number = number * 10 + u128::from(digit.saturating_sub(b'0'));
        if number > i64::MAX as u128 {
            return false;
        }
    }
    true
}

fn begins_scale(text: &[u8]) -> bool
    ensures { result ≡ pieces.begins_scale text.now }
{
    match text {
        [first, ..] => matches!(class_of(*first), Class::Scale),
        [] => false,
    }
}

/// Whether a byte of this class makes one sign with the byte behind it.
fn joins(class: Class, byte: u8, rest: &[u8]) -> bool
    ensures { result ≡ pieces.joins class byte rest.now }
{
    match class {
        Class::Dot => begins_scale(rest) || begins(b'\'', rest),
        Class::Equal | Class::Compare => begins(b'=', rest),
        Class::Twice => begins(byte, rest),
        _ => false,
    }
}

/// Whether a dot begins `...`, behind which this stands.
fn continues(rest: &[u8]) -> bool
    ensures { result ≡ pieces.continues Class.Dot rest.now }
{
    match rest {
        [first, rest @ ..] => *first == b'.' && begins(b'.', rest),
        [] => false,
    }
}

/// Whether a literal is whole, behind which this stands.
fn is_whole(text: &[u8]) -> bool
    ensures { result ≡ pieces.is_whole text.now }
{
    match text {
        [first, rest @ ..] => match class_of(*first) {
            Class::Letter | Class::Underscore => false,
            Class::Dot => continues(rest) || joins(Class::Dot, b'.', rest),
            _ => true,
        },
        [] => true,
    }
}

#[tactic(auto, unfolding(crate::specs::Scan::literal))]
fn literal(text: &[u8]) -> Result<Found, LexKind>
    requires { 0 < length text.now }
    ensures value { result ≡ spec.literal text.now }
    ensures within { IfOk result (λ f. f.more + 1 ≤ length text.now) }
{
    let more = digits(&text[1..]);
    if !is_in_range(&text[..more + 1]) {
        return Err(LexKind::LiteralRange);
    }
    if !is_whole(&text[more + 1..]) {
        return Err(LexKind::NotWhole);
    }
    Ok(piece(Part::Literal, more))
}

/// How many bytes go up to and with the closing quote, if there is one.
fn text_len(quote: u8, text: &[u8]) -> Option<usize>
    ensures value { result ≡ spec.text_len quote false text.now }
    ensures within { IfSome result (λ n. n ≤ length text.now) }
{
    let mut twice = false;
    for at in 0..text.len() {
        if twice {
            twice = false;
        } else if text[at] == quote {
            if !begins(quote, &text[at + 1..]) {
                return Some(at + 1);
            }
            twice = true;
        } else if text[at] == b'\n' {
            return None;
        }
    }
    None
}

#[tactic(auto, unfolding(crate::specs::Scan::quoted))]
fn quoted(text: &[u8]) -> Result<Found, LexKind>
    requires { 0 < length text.now }
    ensures value { result ≡ spec.quoted text.now }
    ensures within { IfOk result (λ f. f.more + 1 ≤ length text.now) }
{
    match text_len(text[0], &text[1..]) {
        Some(more) => Ok(piece(Part::Chars, more)),
        None => Err(LexKind::OpenText),
    }
}

#[tactic(auto, unfolding(crate::specs::Scan::sign))]
fn sign(class: Class, text: &[u8]) -> Found
    requires { 0 < length text.now }
    ensures value { result ≡ spec.sign class text.now }
    ensures within { result.more + 1 ≤ length text.now }
{
    if joins(class, text[0], &text[1..]) {
        piece(Part::Sign, 1)
    } else {
        piece(Part::Sign, 0)
    }
}

#[tactic(auto, unfolding(crate::specs::Scan::dotted))]
fn dotted(text: &[u8]) -> Found
    requires { 0 < length text.now }
    ensures value { result ≡ spec.dotted text.now }
    ensures within { result.more + 1 ≤ length text.now }
{
    if continues(&text[1..]) {
        to_end(Part::Continued, text)
    } else {
        sign(Class::Dot, text)
    }
}

/// Whether `%` stands on a line alone with this byte, where `rest` stands behind it.
fn marks(byte: u8, before: &Before, rest: &[u8]) -> bool
    ensures value { result ≡ pieces.marks byte before.now rest.now }
    ensures within { result ≡ true → 0 < length rest.now }
{
    match rest {
        [first, rest @ ..] => before.fresh && *first == byte && is_alone(rest),
        [] => false,
    }
}

#[tactic(auto, unfolding(crate::specs::Scan::percent))]
fn percent(before: &Before, text: &[u8]) -> Found
    requires { 0 < length text.now }
    ensures value { result ≡ spec.percent before.now text.now }
    ensures within { result.more + 1 ≤ length text.now }
{
    if marks(b'{', before, &text[1..]) {
        piece(Part::BlockStart, 1)
    } else {
        to_end(Part::Comment, text)
    }
}

#[tactic(auto, unfolding(crate::specs::Scan::outside))]
fn outside(class: Class, before: &Before, text: &[u8]) -> Result<Found, LexKind>
    requires { 0 < length text.now }
    ensures value { result ≡ spec.outside class before.now text.now }
    ensures within { IfOk result (λ f. f.more + 1 ≤ length text.now) }
{
    match class {
        Class::Letter => Ok(word(text)),
        Class::Digit => literal(text),
        Class::Blank => Ok(blank(text)),
        Class::LineFeed => Ok(piece(Part::LineEnd, 0)),
        Class::Return if begins(b'\n', &text[1..]) => Ok(piece(Part::LineEnd, 1)),
        Class::Return | Class::Underscore | Class::Other => Err(LexKind::BadByte),
        Class::Percent => Ok(percent(before, text)),
        Class::Single if !before.opens_text() => Ok(sign(class, text)),
        Class::Single | Class::Double => quoted(text),
        Class::Dot => Ok(dotted(text)),
        _ => Ok(sign(class, text)),
    }
}

#[tactic(auto, unfolding(crate::specs::Scan::inside))]
fn inside(class: Class, before: &Before, text: &[u8]) -> Found
    requires { 0 < length text.now }
    ensures value { result ≡ spec.inside class before.now text.now }
    ensures within { result.more + 1 ≤ length text.now }
{
    match class {
        Class::Blank => blank(text),
        Class::LineFeed => piece(Part::LineEnd, 0),
        Class::Return if begins(b'\n', &text[1..]) => piece(Part::LineEnd, 1),
        Class::Percent if marks(b'}', before, &text[1..]) => piece(Part::BlockEnd, 1),
        Class::Percent => percent(before, text),
        _ => to_end(Part::Comment, text),
    }
}

/// The piece at the front.
#[tactic(auto, unfolding(crate::specs::Scan::head))]
pub(crate) fn head(before: &Before, text: &[u8]) -> Result<Found, LexKind>
    requires { 0 < length text.now }
    ensures value { result ≡ spec.head before.now text.now }
    ensures within { IfOk result (λ f. f.more + 1 ≤ length text.now) }
{
    let class = class_of(text[0]);
    if before.is_in_block() {
        Ok(inside(class, before, text))
    } else {
        outside(class, before, text)
    }
}
