//! Scripts beside a table of two extras, and what they come to over a desk.

ghost use Rattle.std.specs.Prelude.{◌≤◌, length};

use crate::trying::try_script;
use pl_base::{Or, Seq, Text};
use pl_errors::write_line;
use pl_lex::{lex, token_ranges};
use pl_parse::parse;
use pl_resolve::{Resolved, resolve_beside};
use pl_syntax::Program;
use std::alloc::{AllocError, Global};

/// Where a script runs (`spent` is the client with one turn), the script, and what it prints with its error's line, with
/// `$` for each line end.
const CASES: &str = "client: x = make => made$x = <job>$
client: x = make; y = x + 1 => made$y = 2$
client: y = 1 + 2 => y = 3$
client: x = make; y = 1 + x, y = x - 1 => made$y = 2$parlab: error E18 BadKind at 1:28: wrong kind of value$
client: x = make; try, +x, catch, disp(7), end, +x => made$7$parlab: error E22 User at 9:9: alone$
client: f = @make; a = feval(f), b = feval(f) => made$a = <job>$made$b = <job>$
client: [a, b] = make => made$parlab: error E15 ArgCount at 1:1: wrong number of arguments$
client: x = make; x(1) => made$parlab: error E18 BadKind at 1:11: wrong kind of value$
away: disp(1), x = make => 1$parlab: error E25 WrongPlace at 1:14: not allowed here$
away: f = @make; x = feval(f) => parlab: error E25 WrongPlace at 1:16: not allowed here$
spent: x = make, y = make => made$x = <job>$parlab: error E23 Spent at 1:15: out of turns$
";

/// The program of a source, beside a table of two extras.
fn program(alloc: Global, source: &[u8]) -> Result<Program, Or<()>>
    requires { length source.now ≤ 4294967294 }
{
    token_ranges();
    let Ok(tokens) = lex(alloc, source) else {
        return Err(Or::Is(()));
    };
    match parse(alloc, &tokens, source) {
        Ok(program) => Ok(program),
        Err(_) => Err(Or::Is(())),
    }
}

fn resolved(alloc: Global, program: Program) -> Result<Resolved, Or<()>> {
    let mut extras = Seq::empty(alloc);
    extras.push(Text::of(alloc, b"make")?)?;
    extras.push(Text::of(alloc, b"+")?)?;
    match resolve_beside(alloc, program, extras) {
        Ok(resolved) => Ok(resolved),
        Err(_) => Err(Or::Is(())),
    }
}

/// What a script prints, with the line of its error.
fn text(alloc: Global, at: &str, source: &[u8]) -> Result<Vec<u8>, Or<()>>
    requires { length source.now ≤ 4294967294 }
{
    let program = program(alloc, source)?;
    let resolved = resolved(alloc, program)?;
    let turns = if at == "spent" { 1 } else { 100 };
    let tried = try_script(alloc, &resolved, at != "away", turns)?;
    let mut text = tried.text;
    if let Some(error) = tried.error {
        write_line(&mut text, &error)?;
    }
    Ok(text)
}

fn printed(alloc: Global, at: &str, source: &str) -> Result<String, AllocError> {
    if source.len() > 10000 {
        return String::from_str(alloc, "too long");
    }
    match text(alloc, at, source.as_bytes()) {
        Ok(bytes) => String::from_utf8_lossy(alloc, &bytes)?.replace(alloc, "\n", "$"),
        Err(Or::Is(_)) => String::from_str(alloc, "no program"),
        Err(Or::Memory) => Err(AllocError),
    }
}

#[test]
fn rows(rt: HostRuntime) {
    for line in CASES.lines() {
        let mut parts = line.split(" => ");
        let script = parts.next().expect(&rt, "a script");
        let want = parts.next().expect(&rt, "a text");
        let mut halves = script.split(": ");
        let at = halves.next().expect(&rt, "a place");
        let source = halves.next().expect(&rt, "a source");
        match printed(rt.alloc(), at, source) {
            Ok(got) => assert_eq!(rt; got.as_str(), want),
            Err(_) => assert!(rt; false, "out of memory"),
        }
    }
}
