//! Tables of displays, texts and formats, a row on each line. Each text was worked out by hand from the rules.
//! In a row `~` stands for a line end, `_` for no argument.

use crate::written::{characters, class_of, matrix, row};
use pl_array::{Arr, Class};
use pl_base::{ErrKind, Or};
use pl_text::{disp_text, format, mat2str, named_text, num2str};
use std::alloc::Global;
use std::test::Fail;

/// class, rows of cells, display, shown statement, literal
static ARRAYS: &str = "i|||x = [](0x0)~|zeros(0,0)
i|5|5~|x = 5~|5
i|0|0~|x = 0~|0
i|-3|-3~|x = -3~|-3
i|1 -2| 1  -2~|x =~ 1  -2~|[1 -2]
i|1;10;100|  1~ 10~100~|x =~  1~ 10~100~|[1;10;100]
i|1 2;3 4|1  2~3  4~|x =~1  2~3  4~|[1 2;3 4]
i|11 12 13;21 22 23|11  12  13~21  22  23~|x =~11  12  13~21  22  23~|[11 12 13;21 22 23]
i|-100 7|-100     7~|x =~-100     7~|[-100 7]
i|-9223372036854775808|-9223372036854775808~|x = -9223372036854775808~|-9223372036854775808
i|9223372036854775807 0|9223372036854775807                    0~|x =~9223372036854775807                    0~|[9223372036854775807 0]
l|1|1~|x = 1~|true
l|0|0~|x = 0~|false
l|1 0|1  0~|x =~1  0~|[true false]
c|||x = [](0x0)~|zeros(0,0)
c|97 98 99|abc~|x = 'abc'~|'abc'
c|105 116 39 115|it's~|x = 'it's'~|'it''s'
c|97 98;99 100|ab~cd~|x =~ab~cd~|['ab';'cd']";

/// pattern, arguments (a number, or characters behind a quote), text; `!` where the pattern is bad
static FORMATS: &str = "%3d,|1 2|  1,  2,
%q|_|!
%d\\n|1 2 3|1~2~3~
%d|_|
abc|1 2|abc
%d,%d;|1 2 3|1,2;3,
a%%b|_|a%b
%s|'hi|hi
%s|65|A
%s|0|0
%s|256|256
%s|-1|-1
%d|'hi|hi
%5s.|'hi|   hi.
%-5s.|'hi|hi   .
%05s.|'hi|   hi.
%05d|42|00042
%05d|-42|-0042
%-5d.|42|42   .
%-05d.|42|42   .
%05s|256|00256
%05s.|65|    A.
%0d|7|7
%-d|7|7
%12d|5|           5
%1d|12345|12345
%123d|5|!
%|_|!
%-|_|!
%5|_|!
%5%|_|!
%+d|5|!
%.2d|5|!
a\\|_|!
\\q|_|!
\\\\|_|\\
%i|3|3
%d%s|1 'ab 2|1ab2
x%dy|1 2|x1yx2y
[%3s]|'|[   ]
%%%d|1 2|%1%2
%d %d\\n|1 2 3 4|1 2~3 4~";

/// A text with `~` for its line ends.
fn on_a_line(alloc: Global, text: &[u8]) -> Result<Vec<u8>, Fail> {
    let mut line = Vec::new(alloc);
    for byte in text {
        line.push(if *byte == b'\n' { b'~' } else { *byte })?;
    }
    Ok(line)
}

fn argument(alloc: Global, text: &str) -> Result<Arr, Fail> {
    match text.strip_prefix('\'') {
        Some(inside) => characters(alloc, inside),
        None => row(alloc, text),
    }
}

fn arguments(alloc: Global, text: &str) -> Result<Vec<Arr>, Fail> {
    let mut args = Vec::new(alloc);
    if text != "_" {
        for word in text.split(' ') {
            args.push(argument(alloc, word)?)?;
        }
    }
    Ok(args)
}

#[test]
fn arrays(rt: HostRuntime) -> Result<(), Fail> {
    let alloc = rt.alloc();
    for line in ARRAYS.lines() {
        let mut fields = line.split('|');
        let class = class_of(fields.next().ok_or("class")?);
        let a = matrix(alloc, class, fields.next().ok_or("cells")?)?;
        let shown = fields.next().ok_or("display")?;
        let named = fields.next().ok_or("statement")?;
        let literal = fields.next().ok_or("literal")?;
        assert_eq!(rt;
            on_a_line(alloc, disp_text(alloc, &a)?.as_slice())?.as_slice(),
            shown.as_bytes()
        );
        assert_eq!(rt;
            on_a_line(alloc, named_text(alloc, b"x", &a)?.as_slice())?.as_slice(),
            named.as_bytes()
        );
        assert_eq!(rt; mat2str(alloc, &a)?, characters(alloc, literal)?);
    }
    Ok(())
}

#[test]
fn numerals(rt: HostRuntime) -> Result<(), Fail> {
    let alloc = rt.alloc();
    for line in "1 22|x = ' 1  22'~
5|x = '5'~
1;10|x =~ 1~10~"
        .lines()
    {
        let (cells, named) = line.split_once('|').ok_or("text")?;
        let made = num2str(alloc, &matrix(alloc, Class::Int, cells)?)?;
        assert_eq!(rt;
            on_a_line(alloc, named_text(alloc, b"x", &made)?.as_slice())?.as_slice(),
            named.as_bytes()
        );
    }
    Ok(())
}

#[test]
fn formats(rt: HostRuntime) -> Result<(), Fail> {
    let alloc = rt.alloc();
    for line in FORMATS.lines() {
        let mut fields = line.split('|');
        let pattern = characters(alloc, fields.next().ok_or("pattern")?)?;
        let args = arguments(alloc, fields.next().ok_or("arguments")?)?;
        let wanted = fields.next().ok_or("text")?;
        let made = made_by(alloc, &pattern, args.as_slice())?;
        assert_eq!(rt; made.as_slice(), wanted.as_bytes());
    }
    Ok(())
}

/// The text on one line, or `!`.
fn made_by(alloc: Global, pattern: &Arr, args: &[Arr]) -> Result<Vec<u8>, Fail> {
    let Class::Char = pattern.class() else {
        return Err("no pattern".into());
    };
    match format(alloc, pattern, args) {
        Ok(text) => on_a_line(alloc, text.as_slice()),
        Err(Or::Is(ErrKind::FormatBad)) => on_a_line(alloc, b"!"),
        Err(_) => Err("another refusal".into()),
    }
}
