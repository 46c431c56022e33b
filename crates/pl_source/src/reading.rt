//! A source is read, its names are resolved, and what it uses is looked at.

ghost use Rattle.std.specs.Prelude.{◌≡◌, ◌≤◌, length, IfOk, Result, Err};
ghost use Rattle.pl_base.specs.declared.memory.Or.{Or};
ghost use Rattle.pl_lex.specs.Tokens.{Lexes};
ghost use Rattle.pl_source.specs.declared.refusals.Refusal.{Refusal as Refused};
ghost use Rattle.pl_source.specs.Sources.{Reads, Ready, BadTokens, BadGrammar, Refuses};

use crate::refusals::{Refusal, bad_grammar, bad_tokens, not_built, unknown_name};
use pl_base::Or;
use pl_lex::{LexFault, Token, lex, token_ranges};
use pl_parse::{ParseFault, parse};
use pl_resolve::{Resolved, resolve};
use pl_syntax::Program;
use pl_unbuilt::unbuilt;
use std::alloc::Global;

/// The tokens of a source.
fn tokens(alloc: Global, source: &[u8]) -> Result<Vec<Token>, Or<Refusal>>
    requires { length source.now ≤ 1000000 }
    ensures found { IfOk result (λ v. Lexes source.now v.items) }
    ensures refused { (f : Refused) → result ≡ Err (Or.Is f) → (f.status ≡ 5) × BadTokens source.now f.line }
{
    match lex(alloc, source) {
        Ok(tokens) => Ok(tokens),
        Err(Or::Memory) => Err(Or::Memory),
        Err(Or::Is(LexFault { kind, place })) => Err(Or::Is(bad_tokens(alloc, kind, place)?)),
    }
}

/// The program that tokens are.
fn program(alloc: Global, tokens: &[Token], source: &[u8]) -> Result<Program, Or<Refusal>>
    requires short { length source.now ≤ 1000000 }
    requires lexed { Lexes source.now tokens.now }
    ensures found { IfOk result (λ p. Reads source.now p) }
    ensures refused { (f : Refused) → result ≡ Err (Or.Is f) → (f.status ≡ 5) × BadGrammar source.now f.line }
{
    token_ranges();
    match parse(alloc, tokens, source) {
        Ok(program) => Ok(program),
        Err(Or::Memory) => Err(Or::Memory),
        Err(Or::Is(ParseFault { kind, place })) => Err(Or::Is(bad_grammar(alloc, kind, place)?)),
    }
}

/// The program with its names resolved, all of which can be carried out.
fn whole(alloc: Global, program: Program, _source: &[u8]) -> Result<Resolved, Or<Refusal>>
    requires { Reads _source.now program }
    ensures found { IfOk result (λ r. Ready _source.now r) }
    ensures refused { (f : Refused) → result ≡ Err (Or.Is f) → Refuses _source.now f.status f.line }
{
    let resolved = match resolve(alloc, program) {
        Ok(resolved) => resolved,
        Err(Or::Memory) => return Err(Or::Memory),
        Err(Or::Is(fault)) => return Err(Or::Is(unknown_name(alloc, &fault)?)),
    };
    match unbuilt(alloc, &resolved)? {
        None => Ok(resolved),
        Some(place) => Err(Or::Is(not_built(alloc, place)?)),
    }
}

/// The program of a source with its names resolved, all of which can be carried out; or why it isn't run.
///
/// The status is 5 where the source is no program or uses what nothing carries out yet, and 7 where a name of it
/// stands for nothing.
pub fn ready(alloc: Global, source: &[u8]) -> Result<Resolved, Or<Refusal>>
    requires { length source.now ≤ 1000000 }
    ensures found { IfOk result (λ r. Ready source.now r) }
    ensures refused { (f : Refused) → result ≡ Err (Or.Is f) → Refuses source.now f.status f.line }
{
    let tokens = tokens(alloc, source)?;
    let program = program(alloc, tokens.as_slice(), source)?;
    whole(alloc, program, source)
}
