//! The names with dots, and `.State`.

ghost use Rattle.std.specs.Prelude.{◌≡◌, map};
ghost use Rattle.std.specs.List.{list_any};
ghost use Rattle.pl_grammar.specs.Words as words;
ghost use Rattle.pl_steps.specs.Names as spec;

use pl_base::Text;

/// The functions of the language whose names have dots.
const DOTTED: [&[u8]; 6] = [
    b"parallel.pool.DataQueue",
    b"parallel.pool.PollableDataQueue",
    b"codistributed.build",
    b"codistributed.zeros",
    b"codistributed.ones",
    b"codistributor1d.unsetPartition",
];

/// What a text with a dot is.
#[derive(Clone, Copy)]
pub enum Dots {
    /// A function of the language.
    Whole,
    /// What one begins with, up to its second dot.
    Stem,
    Neither,
}

fn same(a: &[u8], b: &[u8]) -> bool
    ensures { result ≡ words.same a.now b.now }
{
    a == b
}

fn is_among(mut table: &[&[u8]], text: &[u8]) -> bool
    ensures { result ≡ list_any (λ n. words.same n text.now) (map (λ n. n.now) table.entry.now) }
{
    while let [name, rest @ ..] = table {
        if same(name, text) {
            return true;
        }
        table = rest;
    }
    false
}

#[tactic(auto, unfolding(pl_grammar::specs::Words::dots))]
pub fn dots_of(text: &Text) -> Dots
    ensures { result ≡ spec.dots text.now }
{
    let bytes = text.bytes();
    if is_among(&DOTTED, bytes) {
        Dots::Whole
    } else if same(b"parallel.pool", bytes) {
        Dots::Stem
    } else {
        Dots::Neither
    }
}

/// The word behind the dot in `x.State`.
#[tactic(auto, unfolding(pl_grammar::specs::Words::is_state))]
pub fn is_state(text: &Text) -> bool
    ensures { result ≡ words.is_state text.now }
{
    same(b"State", text.bytes())
}
