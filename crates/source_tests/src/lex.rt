//! Token lists of small sources. A token is shown as the letter of its kind and its range, with `_`
//! before it where it has a gap; a fault as its kind, line, column and byte.

ghost use Rattle.std.specs.Prelude.{◌≤◌, length};

use pl_base::Or;
use pl_lex::{Kind, Token, lex};
use std::alloc::{AllocError, Global};

const CASES: [(&str, &str); 68] = [
    ("", ""),
    // Transposes and texts.
    ("x'", " n0-1 s1-2"),
    ("x.'", " n0-1 s1-3"),
    ("a''", " n0-1 s1-2 s2-3"),
    ("[a' b']", " s0-1 n1-2 s2-3 _n4-5 s5-6 s6-7"),
    ("[a 'b']", " s0-1 n1-2 _c3-6 s6-7"),
    (
        "[c {1}' 'x']",
        " s0-1 n1-2 _s3-4 l4-5 s5-6 s6-7 _c8-11 s11-12",
    ),
    ("[a ...\n 'b']", " s0-1 n1-2 _c8-11 s11-12"),
    ("a(1)'", " n0-1 s1-2 l2-3 s3-4 s4-5"),
    ("a(end')", " n0-1 s1-2 k2-5 s5-6 s6-7"),
    ("a(end 'x')", " n0-1 s1-2 k2-5 _s6-7 n7-8 s8-9 s9-10"),
    (
        "[a (end 'x')]",
        " s0-1 n1-2 _s3-4 k4-7 _c8-11 s11-12 s12-13",
    ),
    ("if(end'x')", " k0-2 s2-3 k3-6 c6-9 s9-10"),
    ("x{end}'", " n0-1 s1-2 k2-5 s5-6 s6-7"),
    ("x{1}(end')", " n0-1 s1-2 l2-3 s3-4 s4-5 k5-8 s8-9 s9-10"),
    ("disp (x')", " n0-4 _s5-6 n6-7 s7-8 s8-9"),
    ("'it''s'", " c0-7"),
    ("x=''''", " n0-1 s1-2 c2-6"),
    ("''", " c0-2"),
    ("\"a\"\"b\"'", " c0-6 s6-7"),
    ("'a\"b' \"c'd\"", " c0-5 _c6-11"),
    ("'a", "OpenText 1:1 0"),
    ("x = 'a''", "OpenText 1:5 4"),
    ("'a\n'", "OpenText 1:1 0"),
    // Elements of brackets.
    ("[1 -2]", " s0-1 l1-2 _s3-4 l4-5 s5-6"),
    ("[1 - 2]", " s0-1 l1-2 _s3-4 _l5-6 s6-7"),
    ("[a -b]", " s0-1 n1-2 _s3-4 n4-5 s5-6"),
    ("[1\n2]", " s0-1 l1-2 e2-3 l3-4 s4-5"),
    ("[~,i] = f", " s0-1 s1-2 s2-3 n3-4 s4-5 _s6-7 _n8-9"),
    // Literals.
    ("1.5", "NotWhole 1:1 0"),
    ("12a", "NotWhole 1:1 0"),
    ("1_", "NotWhole 1:1 0"),
    ("1..*2", "NotWhole 1:1 0"),
    ("1.*2", " l0-1 s1-3 l3-4"),
    ("1.'", " l0-1 s1-3"),
    ("1...\n+2", " l0-1 _s5-6 l6-7"),
    ("9223372036854775807", " l0-19"),
    ("x=9223372036854775808;", "LiteralRange 1:3 2"),
    ("9223372036854775808a", "LiteralRange 1:1 0"),
    // Names, keywords, signs.
    ("x_1 = a1_;", " n0-3 _s4-5 _n6-9 s9-10"),
    ("_x", "BadByte 1:1 0"),
    ("if x, end", " k0-2 _n3-4 s4-5 _k6-9"),
    ("ended endx", " n0-5 _n6-10"),
    ("a <= b ~= c", " n0-1 _s2-4 _n5-6 _s7-9 _n10-11"),
    (
        "a&&b||c&d|e",
        " n0-1 s1-3 n3-4 s4-6 n6-7 s7-8 n8-9 s9-10 n10-11",
    ),
    ("a===b", " n0-1 s1-3 s3-4 n4-5"),
    ("a..b", " n0-1 s1-2 s2-3 n3-4"),
    ("a.^b'.*c./d", " n0-1 s1-3 n3-4 s4-5 s5-7 n7-8 s8-10 n10-11"),
    ("@f\t:", " s0-1 n1-2 _s3-4"),
    ("a\\b", "BadByte 1:2 1"),
    // Lines and comments.
    ("a\r\nb\n", " n0-1 e1-3 n3-4 e4-5"),
    ("a\r\n\r\n $", "BadByte 3:2 6"),
    ("a\rb", "BadByte 1:2 1"),
    ("% a\r\nb", " e3-5 n5-6"),
    ("% a\rb\nc", " e5-6 n6-7"),
    ("x %c\n", " n0-1 _e4-5"),
    ("x%c\ny", " n0-1 e3-4 n4-5"),
    ("x = 1 ... y\n;", " n0-1 _s2-3 _l4-5 _s12-13"),
    ("%{ x\n1", " e4-5 l5-6"),
    ("a %{\nb", " n0-1 _e4-5 n5-6"),
    ("%}\nb", " e2-3 n3-4"),
    ("%{\nx\n%}\ny", " e7-8 n8-9"),
    ("%{\n%{\n%}\nx\n%}\ny", " e13-14 n14-15"),
    ("%{\n$", ""),
    (" %{ \t\r\n x\n\t%} \ny", " _e14-15 n15-16"),
    // Bytes past ASCII.
    ("\u{FEFF}x $", "BadByte 1:3 5"),
    ("% é\n'é'", " e4-5 c5-9"),
    ("é", "BadByte 1:1 0"),
];

fn letter(kind: Kind) -> &'static str {
    match kind {
        Kind::Name => "n",
        Kind::Keyword => "k",
        Kind::Literal => "l",
        Kind::Chars => "c",
        Kind::Sign => "s",
        Kind::LineEnd => "e",
    }
}

fn shown_token(alloc: Global, token: &Token) -> Result<String, AllocError> {
    let gap = if token.gap { "_" } else { "" };
    format!(in alloc; " {}{}{}-{}", gap, letter(token.kind), token.from, token.to)
}

fn shown(alloc: Global, source: &[u8]) -> Result<String, AllocError>
    requires { length source.now ≤ 4294967294 }
{
    let mut out = String::new(alloc);
    match lex(alloc, source) {
        Ok(tokens) => {
            for token in tokens.as_slice() {
                let token = shown_token(alloc, token)?;
                out.push_str(token.as_str())?;
            }
            Ok(out)
        }
        Err(Or::Memory) => Err(AllocError),
        Err(Or::Is(fault)) => {
            let (kind, place) = (fault.kind, fault.place);
            format!(in alloc; "{:?} {}:{} {}", kind, place.line, place.col, place.at)
        }
    }
}

#[test]
fn small_sources(rt: HostRuntime) {
    for (source, want) in CASES {
        let source = source.as_bytes();
        assert!(rt; source.len() < 100);
        match shown(rt.alloc(), source) {
            Ok(got) => assert_eq!(rt; got.as_str(), want),
            Err(_) => assert!(rt; false, "out of memory"),
        }
    }
}
