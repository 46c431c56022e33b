//! The program of tokens, or their first fault with its place.

ghost use Rattle.std.specs.Prelude.{◌≡◌, ◌≤◌, ◌-◌, length, drop, map, All, IfOk, IfErr, MatchResult};
ghost use Rattle.pl_base.specs.declared.errors.Place.{Place};
ghost use Rattle.pl_syntax.specs.declared.stmt.Program.{Program};
ghost use Rattle.pl_grammar.specs.declared.fault.FaultKind.{FaultKind};
ghost use Rattle.pl_grammar.specs.Programs as grammar;
ghost use Rattle.pl_lex.specs.Tokens.{IsTokenOf};
ghost use Rattle.pl_parse.specs.Faults as spec;

use crate::fault::ParseFault;
use pl_base::{Or, Place};
use pl_grammar::{FaultKind, Terminal, Word};
use pl_lex::Token;
use pl_states::{Refusal, read};
use pl_syntax::Program;
use pl_terminals::{end_place, terminals};
use std::alloc::Global;

fn begins_with_name(terminals: &[Terminal]) -> bool
    ensures { result ≡ grammar.begins_with_name terminals.now }
{
    match terminals {
        [] => false,
        [first, ..] => matches!(first.word, Word::Name(_)),
    }
}

/// How many terminals stand before the one that a fault is shown at.
fn shown_at(kind: FaultKind, terminals: &[Terminal], at: usize) -> usize
    requires { at ≤ length terminals.now }
    ensures { result ≡ grammar.shown_at kind terminals.now at }
{
    match kind {
        FaultKind::FunctionTwice => {
            if begins_with_name(&terminals[at..]) {
                at
            } else {
                at.saturating_sub(1)
            }
        }
        _ => at,
    }
}

/// The place of the first of these terminals, or the end of the file.
fn front_place(terminals: &[Terminal], source: &[u8]) -> Place
    requires { length source.now ≤ 4294967294 }
    ensures { result ≡ spec.front_place source.now terminals.now }
{
    match terminals {
        [] => end_place(source),
        [first, ..] => first.place,
    }
}

/// The fault of terminals of which so many are left.
fn fault_of(refusal: Refusal, terminals: &[Terminal], source: &[u8]) -> ParseFault
    requires { length source.now ≤ 4294967294 }
    ensures { result ≡ spec.fault_of refusal terminals.now source.now }
{
    let Refusal { kind, left } = refusal;
    let at = shown_at(kind, terminals, terminals.len().saturating_sub(left));
    let place = front_place(&terminals[at..], source);
    ParseFault { kind, place }
}

/// The program of the tokens of a source, or their first fault.
///
/// It reads forwards, and each token takes a time that only the nesting bounds.
pub fn parse(alloc: Global, tokens: &[Token], source: &[u8]) -> Result<Program, Or<ParseFault>>
    requires short { length source.now ≤ 4294967294 }
    requires ranges { All (IsTokenOf source.now) tokens.now }

    // What is found is the tokens' program, and it is found unless memory runs out.
    ensures found { IfOk result (λ p. spec.IsProgram source.now tokens.now p) }
    ensures only { (program : Program) → spec.IsProgram source.now tokens.now program → MatchResult result (λ p. p ≡ program) spec.IsMemory }

    // A fault that is told is the tokens' first, and that one is told unless memory runs out.
    ensures fault { IfErr result (spec.IsFaultOf source.now tokens.now) }
    ensures fault_only { (kind : FaultKind) (place : Place) → spec.Faults source.now tokens.now kind place → MatchResult result (λ _. ⊥) (spec.IsFault kind place) }
{
    let terminals = terminals(alloc, tokens, source)?;
    match read(alloc, &terminals) {
        Ok(program) => Ok(program),
        Err(Or::Memory) => Err(Or::Memory),
        Err(Or::Is(refusal)) => Err(Or::Is(fault_of(refusal, &terminals, source))),
    }
}
