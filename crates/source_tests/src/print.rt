//! Sources, and the text that the program of each is printed as; that text is printed as itself.

ghost use Rattle.std.specs.Prelude.{◌≤◌, length};

use pl_base::Or;
use pl_lex::{lex, token_ranges};
use pl_parse::parse;
use pl_print::print;
use std::alloc::{AllocError, Global};

/// A source with `$` for each line end, and its text.
const CASES: &str = "x = 5 => x = 5$
x=(a+b)*c; => x = (a + b) * c;$
(a+b)*c => (a + b) * c$
x = a+(b*c)-(d-e) => x = a + b * c - (d - e)$
x=(-2)^2+2^-~+1^3 => x = (-2) ^ 2 + 2 ^ -~+1 ^ 3$
2^-1*x' => 2 ^ -1 * x'$
(a+b)'*x'' => (a + b)' * x''$
('abc')' => 'abc'.'$
[\"it's\",'b'] => ['it''s', 'b']$
x = [1 -2;3 -4] => x = [1, -2; 3, -4]$
x(1:end, :) = [] => x(1:end, :) = []$
x(2) = [;] => x(2) = [;]$
[~, a(1) b{2}] = f(x,@g) => [~, a(1), b{2}] = f(x, @g)$
x{1}(2) = 1 => Unexpected$
x{1}(2)+x{3} => x{1}(2) + x{3}$
1:n+1, (1:2):3:4 => 1:n + 1$(1:2):3:4$
f(x).State => f(x).State$
q = parallel.pool.DataQueue => q = parallel.pool.DataQueue$
~(a&&b)||c<=d&e~=f|g.*h./i.^j==k => ~(a && b) || c <= d & e ~= f | g .* h ./ i .^ j == k$
a<b, a>b, a>=b, a/b, +a => a < b$a > b$a >= b$a / b$+a$
if x, y, elseif z, w; else v, end => if x$  y$elseif z$  w;$else$  v$end$
while x, if y, break; end, continue, end => while x$  if y$    break;$  end$  continue$end$
for i=1:3, return, end => for i = 1:3$  return$end$
parfor (i=1:3,4), x(i)=i; end => parfor (i = 1:3, 4)$  x(i) = i;$end$
parfor i=1:3, x(i)=i; end; => parfor i = 1:3$  x(i) = i;$end;$
spmd (2), x, end, spmd, end => spmd (2)$  x$end$spmd$end$
switch x, case 1, y, case 'b', z, otherwise, w, end => switch x$case 1$  y$case 'b'$  z$otherwise$  w$end$
try x, catch, y, end => try$  x$catch$  y$end$
function f, end => function f()$end$
y = f(1)$function y = f(a, ~), y = a; end => y = f(1)$$function y = f(a, ~)$  y = a;$end$
function [a b] = g(), a, end => Unexpected$
function [a, b] = g(), a, end$function h, end => function [a, b] = g()$  a$end$$function h()$end$
";

/// The text of the program that a source is.
fn text(alloc: Global, source: &[u8]) -> Result<String, AllocError>
    requires { length source.now ≤ 4294967294 }
{
    token_ranges();
    match lex(alloc, source) {
        Ok(tokens) => match parse(alloc, &tokens, source) {
            Ok(program) => match print(alloc, &program) {
                Ok(bytes) => String::from_utf8_lossy(alloc, &bytes),
                Err(_) => Err(AllocError),
            },
            Err(Or::Memory) => Err(AllocError),
            Err(Or::Is(fault)) => {
                let kind = fault.kind;
                format!(in alloc; "{:?}\n", kind)
            }
        },
        Err(_) => String::from_str(alloc, "no tokens\n"),
    }
}

fn printed(alloc: Global, source: &str) -> Result<String, AllocError> {
    let source = source.replace(alloc, "$", "\n")?;
    if source.len() > 10000 {
        return String::from_str(alloc, "too long");
    }
    text(alloc, source.as_bytes())?.replace(alloc, "\n", "$")
}

#[test]
fn rows(rt: HostRuntime) {
    for line in CASES.lines() {
        let mut parts = line.split(" => ");
        let source = parts.next().expect(&rt, "a source");
        let want = parts.next().expect(&rt, "a text");
        match printed(rt.alloc(), source) {
            Ok(got) => assert_eq!(rt; got.as_str(), want),
            Err(_) => assert!(rt; false, "out of memory"),
        }
        if !want.starts_with("Unexpected") {
            match printed(rt.alloc(), want) {
                Ok(again) => assert_eq!(rt; again.as_str(), want),
                Err(_) => assert!(rt; false, "out of memory"),
            }
        }
    }
}
