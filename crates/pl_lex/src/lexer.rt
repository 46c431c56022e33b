//! The lexer: one piece after another, and the token that a piece is.

ghost use Rattle.std.specs.Prelude.{◌≡◌, ◌≤◌, ◌<◌, ◌+◌, ◌^◌, List, length, drop, IfOk, OnOk, IfErr, MatchResult};
ghost use Rattle.pl_base.specs.declared.errors.Place.{Place};
ghost use Rattle.pl_lex.specs.declared.token.Token.{Token};
ghost use Rattle.pl_lex.specs.declared.token.LexKind.{LexKind};
ghost use Rattle.pl_lex.specs.Answers as spec;
ghost use Rattle.pl_lex.specs.Tokens as tokens_spec;
ghost use Rattle.pl_lex.specs.Scan as scan_spec;

use crate::place::{mark_len, place_at};
use crate::scan::{Found, head};
use crate::state::{Before, Part};
use crate::token::{Kind, LexFault, LexKind, Token};
use pl_base::Or;
use std::alloc::{AllocError, Global};

/// The first fault, before its place is known.
#[derive(Clone, Copy, Debug)]
struct Stop {
    kind: LexKind,
    at: usize,
}

/// The kind of the token that a piece is, if it is one.
fn kind_of(part: Part, before: &Before) -> Option<Kind>
    ensures { result ≡ tokens_spec.kind_of part before.now }
{
    match part {
        Part::LineEnd if before.is_in_block() || before.joined => None,
        Part::LineEnd => Some(Kind::LineEnd),
        Part::Name => Some(Kind::Name),
        Part::Keyword => Some(Kind::Keyword),
        Part::Literal => Some(Kind::Literal),
        Part::Chars => Some(Kind::Chars),
        Part::Sign => Some(Kind::Sign),
        _ => None,
    }
}

/// Adds the token that a piece is, if it is one.
fn tell(tokens: &mut Vec<Token>, found: Found, at: usize, before: &Before) -> Result<(), AllocError>
    requires { at + found.more + 1 < 2 ^ 32 }
    ensures { OnOk result (tokens.new.items ≡ scan_spec.told tokens.old.items found at before.now) }
{
    if let Some(kind) = kind_of(found.part, before) {
        let to = at + found.more + 1;
        let gap = before.gap;
        tokens.push(Token {
            kind,
            from: at as u32,
            to: to as u32,
            gap,
        })?;
    }
    Ok(())
}

/// Reads the piece at a place, and answers how many bytes it has.
fn step(
    tokens: &mut Vec<Token>,
    before: &mut Before,
    source: &[u8],
    at: usize,
) -> Result<usize, Or<Stop>>
    requires within { at < length source.now }
    requires short { length source.now ≤ 4294967294 }
    requires blocks { before.old.blocks ≤ at }
    ensures moves { IfOk result (λ n. (0 < n) × (at + n ≤ length source.now)) }
    ensures blocks { IfOk result (λ n. before.new.blocks ≤ at + n) }
    ensures steps { spec.Steps result tokens.old.items before.old at (drop at source.now) tokens.new.items before.new }
{
    let text = &source[at..];
    let found = match head(before, text) {
        Ok(found) => found,
        Err(kind) => return Err(Or::Is(Stop { kind, at })),
    };
    tell(tokens, found, at, before)?;
    let len = found.more + 1;
    before.pass(found.part, &text[..len])?;
    Ok(len)
}

#[tactic(auto, unfolding(crate::specs::Scan::answer))]
fn scan(alloc: Global, source: &[u8]) -> Result<Vec<Token>, Or<Stop>>
    requires { length source.now ≤ 4294967294 }
    ensures found { IfOk result (λ v. scan_spec.answer source.now ≡ Ok v.items) }
    ensures fault { IfErr result (spec.StopsAt source.now) }
{
    let mut tokens = Vec::new(alloc);
    let mut before = Before::start(alloc);
    let mut at = mark_len(source);
    while at < source.len() {
        at += step(&mut tokens, &mut before, source, at)?;
    }
    Ok(tokens)
}

/// The tokens of a source, or its first fault.
///
/// Each token is a range of the source. The time is linear in the source.
#[tactic(auto, using(crate::proofs::Laws::lexes_found, crate::proofs::Laws::only_list, crate::proofs::Laws::no_fault, crate::proofs::Laws::no_tokens, crate::proofs::Laws::fault_here, crate::proofs::Laws::only_fault))]
pub fn lex(alloc: Global, source: &[u8]) -> Result<Vec<Token>, Or<LexFault>>
    requires { length source.now ≤ 4294967294 }

    // What is found are the source's tokens, and they are found unless memory runs out.
    ensures found { IfOk result (λ v. tokens_spec.Lexes source.now v.items) }
    ensures only { (tokens : List Token) → tokens_spec.Lexes source.now tokens → MatchResult result (λ v. v.items ≡ tokens) spec.IsMemory }

    // A fault that is told is the source's first, and that one is told unless memory runs out.
    ensures fault { IfErr result (spec.IsFaultOf source.now) }
    ensures fault_only { (kind : LexKind) (place : Place) → tokens_spec.Faults source.now kind place → MatchResult result (λ _. ⊥) (spec.IsFault kind place) }
{
    match scan(alloc, source) {
        Ok(tokens) => Ok(tokens),
        Err(Or::Memory) => Err(Or::Memory),
        Err(Or::Is(stop)) => {
            let place = place_at(source, stop.at);
            Err(Or::Is(LexFault {
                kind: stop.kind,
                place,
            }))
        }
    }
}
