//! Names that may have dots.

ghost use Rattle.std.specs.Prelude.{◌≡◌, ◌≤◌, length, map, OnOk};
ghost use Rattle.std.specs.List.{list_any, prefix_len};
ghost use Rattle.pl_grammar.specs.Words as words;
ghost use Rattle.pl_print.specs.Pages.{Writes, no_dot};
ghost use Rattle.pl_printing.specs.Canonical.{is_whole as is_whole_of, parts_of, dotted_words, head_words};

use crate::page::{Page, Sign};
use pl_base::{NoMemory, Text};

/// The functions of the language whose names have dots.
const DOTTED: [&[u8]; 6] = [
    b"parallel.pool.DataQueue",
    b"parallel.pool.PollableDataQueue",
    b"codistributed.build",
    b"codistributed.zeros",
    b"codistributed.ones",
    b"codistributor1d.unsetPartition",
];

fn same(a: &[u8], b: &[u8]) -> bool
    ensures { result ≡ words.same a.now b.now }
{
    a == b
}

fn is_among(mut table: &[&[u8]], text: &[u8]) -> bool
    ensures { result ≡ list_any (λ n. words.same n text.now) (map (λ n. n.now) table.entry.now) }
{
    while let [name, rest @ ..] = table {
        if same(name, text) {
            return true;
        }
        table = rest;
    }
    false
}

/// Whether a text is the name of such a function.
#[tactic(auto, unfolding(pl_grammar::specs::Words::dots))]
fn is_whole(text: &[u8]) -> bool
    ensures { result ≡ is_whole_of (words.dots text.now) }
{
    is_among(&DOTTED, text)
}

/// How many bytes stand before the first dot.
fn part_len(text: &[u8]) -> usize
    ensures value { result ≡ prefix_len no_dot text.now }
    ensures within { result ≤ length text.now }
{
    let mut n = 0;
    while n < text.len() && text[n] != b'.' {
        n += 1;
    }
    n
}

/// The parts of a name, and the dots between them.
fn dotted(page: &mut Page, gap: bool, text: &[u8]) -> Result<(), NoMemory>
    ensures { OnOk result (Writes page.old page.new (dotted_words (parts_of text.now) gap)) }
{
    let n = part_len(text);
    page.part(gap, &text[..n])?;
    let mut tail = &text[n..];
    while let [_, more @ ..] = tail {
        let n = part_len(more);
        page.sign(false, Sign::Dot)?;
        page.part(false, &more[..n])?;
        tail = &more[n..];
    }
    Ok(())
}

/// A name that may have dots.
pub fn head(page: &mut Page, gap: bool, text: &Text) -> Result<(), NoMemory>
    ensures { OnOk result (Writes page.old page.new (head_words text.now gap)) }
{
    if is_whole(text.bytes()) {
        dotted(page, gap, text.bytes())
    } else {
        page.name(gap, text)
    }
}
