//! What a byte of a source may begin or go on, and where a line ends.

ghost use Rattle.std.specs.Prelude.{◌≡◌, ◌≤◌, length};
ghost use Rattle.std.specs.List.{prefix_len};
ghost use Rattle.pl_lex.specs.Bytes as spec;

/// What a byte may begin.
#[derive(Clone, Copy, Debug, PartialEq, Eq)]
pub(crate) enum Class {
    Letter,
    Digit,
    Underscore,
    /// Space or tab.
    Blank,
    LineFeed,
    Return,
    Percent,
    /// `'`
    Single,
    /// `"`
    Double,
    Dot,
    /// `=`
    Equal,
    /// `<`, `>` or `~`: a sign with `=` behind it.
    Compare,
    /// `&` or the bar: a sign with itself behind it.
    Twice,
    /// `*`, `/` or `^`: a sign with a dot before it.
    Scale,
    /// `(`
    Paren,
    /// `[`
    Square,
    /// `{`
    Brace,
    Close,
    /// A sign that never grows.
    Plain,
    Other,
}

#[tactic(auto, unfolding(crate::specs::Bytes::class_of))]
pub(crate) fn class_of(byte: u8) -> Class
    ensures { result ≡ spec.class_of byte }
{
    match byte {
        b'a'..=b'z' | b'A'..=b'Z' => Class::Letter,
        b'0'..=b'9' => Class::Digit,
        b'_' => Class::Underscore,
        b' ' | b'\t' => Class::Blank,
        b'\n' => Class::LineFeed,
        b'\r' => Class::Return,
        b'%' => Class::Percent,
        b'\'' => Class::Single,
        b'"' => Class::Double,
        b'.' => Class::Dot,
        b'=' => Class::Equal,
        b'<' | b'>' | b'~' => Class::Compare,
        b'&' | b'|' => Class::Twice,
        b'*' | b'/' | b'^' => Class::Scale,
        b'(' => Class::Paren,
        b'[' => Class::Square,
        b'{' => Class::Brace,
        b')' | b']' | b'}' => Class::Close,
        b'+' | b'-' | b',' | b';' | b':' | b'@' => Class::Plain,
        _ => Class::Other,
    }
}

pub(crate) fn is_part(byte: u8) -> bool
    ensures { result ≡ spec.is_part byte }
{
    matches!(
        class_of(byte),
        Class::Letter | Class::Digit | Class::Underscore
    )
}

pub(crate) fn is_digit(byte: u8) -> bool
    ensures { result ≡ spec.is_digit byte }
{
    matches!(class_of(byte), Class::Digit)
}

pub(crate) fn is_blank(byte: u8) -> bool
    ensures { result ≡ spec.is_blank byte }
{
    matches!(class_of(byte), Class::Blank)
}

/// How many bytes from the front on go on in a name.
pub(crate) fn parts(text: &[u8]) -> usize
    ensures value { result ≡ prefix_len spec.is_part text.now }
    ensures within { result ≤ length text.now }
{
    text.iter().take_while(|b| is_part(**b)).count()
}

/// How many digits stand at the front.
pub(crate) fn digits(text: &[u8]) -> usize
    ensures value { result ≡ prefix_len spec.is_digit text.now }
    ensures within { result ≤ length text.now }
{
    text.iter().take_while(|b| is_digit(**b)).count()
}

/// How many spaces and tabs stand at the front.
pub(crate) fn blanks(text: &[u8]) -> usize
    ensures value { result ≡ prefix_len spec.is_blank text.now }
    ensures within { result ≤ length text.now }
{
    text.iter().take_while(|b| is_blank(**b)).count()
}

pub(crate) fn begins(byte: u8, text: &[u8]) -> bool
    ensures { result ≡ spec.begins byte text.now }
{
    match text {
        [first, ..] => *first == byte,
        [] => false,
    }
}

/// Whether a line end or the end of the file comes first.
pub(crate) fn at_line_end(text: &[u8]) -> bool
    ensures { result ≡ spec.at_line_end text.now }
{
    match text {
        [first, rest @ ..] => *first == b'\n' || (*first == b'\r' && begins(b'\n', rest)),
        [] => true,
    }
}

/// How many bytes stand before the line end.
#[tactic(auto, using(crate::proofs::LineEnds::to_line_end_more))]
pub(crate) fn to_line_end(text: &[u8]) -> usize
    ensures value { result ≡ spec.to_line_end text.now }
    ensures within { result ≤ length text.now }
{
    for at in 0..text.len() {
        if at_line_end(&text[at..]) {
            return at;
        }
    }
    text.len()
}

/// Whether nothing but white space stands before the line end.
pub(crate) fn is_alone(text: &[u8]) -> bool
    ensures { result ≡ spec.is_alone text.now }
{
    at_line_end(&text[blanks(text)..])
}
