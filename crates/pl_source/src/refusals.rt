//! Refusals of a source, with their lines.

ghost use Rattle.std.specs.Prelude.{◌≡◌, ◌++◌, IfOk};
ghost use Rattle.pl_source.specs.Lines as spec;

use itoa::Buffer;
use pl_base::{NoMemory, Place, Seq};
use pl_grammar::FaultKind;
use pl_lex::LexKind;
use pl_resolve::NameFault;
use std::alloc::Global;

fn lex_name(kind: LexKind) -> &'static str
    ensures { result.now ≡ spec.lex_name kind }
{
    match kind {
        LexKind::BadByte => "BadByte",
        LexKind::OpenText => "OpenText",
        LexKind::LiteralRange => "LiteralRange",
        LexKind::NotWhole => "NotWhole",
    }
}

fn fault_name(kind: FaultKind) -> &'static str
    ensures { result.now ≡ spec.fault_name kind }
{
    match kind {
        FaultKind::Unexpected => "Unexpected",
        FaultKind::MissingEnd => "MissingEnd",
        FaultKind::FunctionTwice => "FunctionTwice",
        FaultKind::TooDeep => "TooDeep",
    }
}

/// Why a source isn't run: the exit status, and the line that tells it.
#[derive(Debug, Drop)]
pub struct Refusal {
    pub status: u8,
    pub line: Seq<u8>,
}

/// A refusal whose line is a text in two parts, a place by line and column, and the line's end.
fn refusal_at(
    alloc: Global,
    status: u8,
    first: &[u8],
    second: &[u8],
    place: Place,
) -> Result<Refusal, NoMemory>
    ensures status { IfOk result (λ r. r.status ≡ status) }
    ensures line { IfOk result (λ r. r.line ≡ spec.line_at (first.now ++ second.now) place) }
{
    let mut buffer = Buffer::new();
    let mut line = Vec::new(alloc);
    line.extend_from_slice(first)?;
    line.extend_from_slice(second)?;
    line.extend_from_slice(b" at ")?;
    line.extend_from_slice(buffer.format(place.line).as_bytes())?;
    line.extend_from_slice(b":")?;
    line.extend_from_slice(buffer.format(place.col).as_bytes())?;
    line.extend_from_slice(b"\n")?;
    let line = Seq::of(line);
    Ok(Refusal { status, line })
}

/// A source that isn't cut into tokens.
pub(crate) fn bad_tokens(alloc: Global, kind: LexKind, place: Place) -> Result<Refusal, NoMemory>
    ensures status { IfOk result (λ r. r.status ≡ 5) }
    ensures line { IfOk result (λ r. r.line ≡ spec.syntax_line (spec.lex_name kind) place) }
{
    refusal_at(
        alloc,
        5,
        b"parlab: syntax error ",
        lex_name(kind).as_bytes(),
        place,
    )
}

/// Tokens that are no program.
pub(crate) fn bad_grammar(alloc: Global, kind: FaultKind, place: Place) -> Result<Refusal, NoMemory>
    ensures status { IfOk result (λ r. r.status ≡ 5) }
    ensures line { IfOk result (λ r. r.line ≡ spec.syntax_line (spec.fault_name kind) place) }
{
    refusal_at(
        alloc,
        5,
        b"parlab: syntax error ",
        fault_name(kind).as_bytes(),
        place,
    )
}

/// A name that stands for nothing.
pub(crate) fn unknown_name(alloc: Global, fault: &NameFault) -> Result<Refusal, NoMemory>
    ensures status { IfOk result (λ r. r.status ≡ 7) }
    ensures line { IfOk result (λ r. r.line ≡ spec.unknown_line fault.now) }
{
    refusal_at(
        alloc,
        7,
        b"parlab: unknown name ",
        fault.name.bytes(),
        fault.place,
    )
}

/// What nothing carries out yet.
pub(crate) fn not_built(alloc: Global, place: Place) -> Result<Refusal, NoMemory>
    ensures status { IfOk result (λ r. r.status ≡ 5) }
    ensures line { IfOk result (λ r. r.line ≡ spec.not_built_line place) }
{
    refusal_at(alloc, 5, b"parlab: not built", b"", place)
}
