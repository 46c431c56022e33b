//! The extras: what a program may ask the world of its run for, though the language doesn't have it.
//!
//! A table has their texts, in the order of their numbers: an operator's sign, a function's name, or `()` for an
//! indexed read. What comes later adds texts to it, and says what its answers are; the run of a program only asks.

ghost use Rattle.std.specs.Prelude.{◌≡◌, map, IfOk};
ghost use Rattle.pl_resolve.specs.Functions.{extra_names};

use pl_base::{NoMemory, Seq, Text};
use std::alloc::Global;

/// The texts of the extras that are built: none so far.
pub const EXTRAS: [&[u8]; 0] = [];

/// Those texts, as a program's table.
#[tactic(auto, unfolding(crate::specs::Functions::extra_names))]
pub fn extra_table(alloc: Global) -> Result<Seq<Text>, NoMemory>
    ensures { IfOk result (λ all. all ≡ extra_names) }
{
    texts(alloc, &EXTRAS)
}

fn texts(alloc: Global, table: &[&[u8]]) -> Result<Seq<Text>, NoMemory>
    ensures { IfOk result (λ all. all ≡ map (λ k. k.now) table.now) }
{
    let mut all = Seq::empty(alloc);
    for text in table {
        all.push(Text::of(alloc, text)?)?;
    }
    Ok(all)
}
