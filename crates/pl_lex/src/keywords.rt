//! The words that are no names.

ghost use Rattle.std.specs.Prelude.{◌≡◌, map};
ghost use Rattle.std.specs.List.{list_any};
ghost use Rattle.pl_lex.specs.Keywords as spec;

const KEYWORDS: [&[u8]; 20] = [
    b"break",
    b"case",
    b"catch",
    b"classdef",
    b"continue",
    b"else",
    b"elseif",
    b"end",
    b"for",
    b"function",
    b"global",
    b"if",
    b"otherwise",
    b"parfor",
    b"persistent",
    b"return",
    b"spmd",
    b"switch",
    b"try",
    b"while",
];

fn same(a: &[u8], b: &[u8]) -> bool
    ensures { result ≡ spec.same a.now b.now }
{
    a == b
}

fn lists(mut table: &[&[u8]], word: &[u8]) -> bool
    ensures { result ≡ list_any (λ k. spec.same k word.now) (map (λ k. k.now) table.entry.now) }
{
    while let [entry, rest @ ..] = table {
        if same(entry, word) {
            return true;
        }
        table = rest;
    }
    false
}

#[tactic(auto, unfolding(crate::specs::Keywords::is_keyword))]
pub(crate) fn is_keyword(word: &[u8]) -> bool
    ensures { result ≡ spec.is_keyword word.now }
{
    lists(&KEYWORDS, word)
}

/// Whether the word is `end`.
#[tactic(auto, unfolding(crate::specs::Keywords::is_end))]
pub(crate) fn is_end(word: &[u8]) -> bool
    ensures { result ≡ spec.is_end word.now }
{
    same(b"end", word)
}
