//! Sources, and what is told of each: that it is a program, or its fault and the place.

ghost use Rattle.std.specs.Prelude.{◌≤◌, length};

use pl_base::Or;
use pl_lex::{lex, token_ranges};
use pl_parse::parse;
use std::alloc::{AllocError, Global};

/// A source with `$` for each line end, and its answer.
const CASES: &str = "x = ; => Unexpected 1:5
parfor i = 1:3 => MissingEnd 1:15
x = 5 => ok
x = 5; y = 6 => ok
x = 5 y => Unexpected 1:7
if x y, end => Unexpected 1:6
if x, elseif y, else end => ok
if x, else elseif y, end => Unexpected 1:12
while x, break; continue; end => ok
for (i = 1:10) x, end => Unexpected 1:16
for (i = 1, 2), end => Unexpected 1:11
parfor (i = 1:10, 4), x = 1; end => ok
parfor (i = 1:10, 4, 5), end => Unexpected 1:20
switch x, y, end => Unexpected 1:11
switch x, case 1, y, case 2, z, otherwise w, end => ok
try x, catch y, end => Unexpected 1:14
try x, catch$ y, end => ok
spmd, spmd, end, end => Unexpected 1:7
spmd, parfor i = 1:2, end, end => Unexpected 1:7
spmd, for i = 1:2, return, end, end => Unexpected 1:20
parfor i = 1:2, spmd, end, end => ok
continue => Unexpected 1:1
function f(a, ~, b), end => ok
function f(a b), end => Unexpected 1:14
function [a b] = f(x), end => Unexpected 1:13
function [~] = f, end => Unexpected 1:11
function f, end function f, end => FunctionTwice 1:26
function f, end function x = f, end => FunctionTwice 1:30
function f, end function f = g, end => ok
function f, end function [f] = f, end => FunctionTwice 1:32
function f, end; x => Unexpected 1:18
function f => MissingEnd 1:11
function => MissingEnd 1:9
for => MissingEnd 1:4
if x, y = (1 => MissingEnd 1:13
switch x, case => MissingEnd 1:15
x( => Unexpected 1:3
x = => Unexpected 1:4
end => Unexpected 1:1
x(end) => ok
(end) => Unexpected 1:2
x(:+1) => Unexpected 1:4
x(1:end, :) = [] => ok
x{1}(2) = 3 => Unexpected 1:9
x(1)(2) => Unexpected 1:5
x.State = 1 => Unexpected 1:9
parallel.pool.x => Unexpected 1:15
parallel.pool => Unexpected 1:14
codistributed.ones = 3 => Unexpected 1:20
1:2:3:4 => Unexpected 1:6
2^-~+1^3 => ok
f(1 2) => Unexpected 1:5
[1 2$3 4] => ok
[1,,2] => Unexpected 1:4
[a {1}] => ok
[f(1 2)] => Unexpected 1:6
[a b] = f => ok
[~a] = f => Unexpected 1:6
[a ~b] = f => Unexpected 1:8
[~, a(1) b{2} ~] = f => ok
[a; b] = f => Unexpected 1:8
[~, ~a] = f => Unexpected 1:6
[~, a => Unexpected 1:6
([~] = 1) => Unexpected 1:4
[a, b](1) => Unexpected 1:7
a = b = c => Unexpected 1:7
,;, => ok
disp x => Unexpected 1:6
if x, if y, end end => Unexpected 1:17
";

/// What opens a level, how many levels fit, what stands inside, what closes a level, and the fault of one level more.
const LEVELS: [(&str, usize, &str, &str, &str); 6] = [
    ("(", 199, "x", ")", "TooDeep 1:200"),
    ("[", 199, "x", "]", "TooDeep 1:200"),
    ("f(", 199, "x", ")", "TooDeep 1:400"),
    ("-", 199, "x", "", "TooDeep 1:200"),
    ("if x,", 200, "", "end,", "TooDeep 1:1001"),
    ("for i=x,", 200, "", "end,", "TooDeep 1:1601"),
];

fn answer(alloc: Global, source: &[u8]) -> Result<String, AllocError>
    requires { length source.now ≤ 4294967294 }
{
    token_ranges();
    let mut out = String::new(alloc);
    match lex(alloc, source) {
        Ok(tokens) => match parse(alloc, &tokens, source) {
            Ok(_) => out.push_str("ok")?,
            Err(Or::Memory) => return Err(AllocError),
            Err(Or::Is(fault)) => {
                let (kind, place) = (fault.kind, fault.place);
                return format!(in alloc; "{:?} {}:{}", kind, place.line, place.col);
            }
        },
        Err(_) => out.push_str("no tokens")?,
    }
    Ok(out)
}

fn shown(alloc: Global, source: &str) -> Result<String, AllocError> {
    if source.len() > 10000 {
        return String::from_str(alloc, "too long");
    }
    answer(alloc, source.as_bytes())
}

fn row(alloc: Global, source: &str) -> Result<String, AllocError> {
    let source = source.replace(alloc, "$", "\n")?;
    shown(alloc, source.as_str())
}

/// The answer of so many levels with something inside.
fn nested(
    alloc: Global,
    open: &str,
    levels: usize,
    inside: &str,
    close: &str,
) -> Result<String, AllocError> {
    let mut source = String::new(alloc);
    for _ in 0..levels {
        source.push_str(open)?;
    }
    source.push_str(inside)?;
    for _ in 0..levels {
        source.push_str(close)?;
    }
    shown(alloc, source.as_str())
}

#[test]
fn rows(rt: HostRuntime) {
    for line in CASES.lines() {
        let mut parts = line.split(" => ");
        let source = parts.next().expect(&rt, "a source");
        let want = parts.next().expect(&rt, "an answer");
        match row(rt.alloc(), source) {
            Ok(got) => assert_eq!(rt; got.as_str(), want),
            Err(_) => assert!(rt; false, "out of memory"),
        }
    }
    for (open, most, inside, close, want) in LEVELS {
        match nested(rt.alloc(), open, most, inside, close) {
            Ok(got) => assert_eq!(rt; got.as_str(), "ok"),
            Err(_) => assert!(rt; false, "out of memory"),
        }
        match nested(rt.alloc(), open, most + 1, inside, close) {
            Ok(got) => assert_eq!(rt; got.as_str(), want),
            Err(_) => assert!(rt; false, "out of memory"),
        }
    }
}
