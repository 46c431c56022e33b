//! Arrays as text: what `disp` prints, what a shown statement prints, and the texts that `num2str` and
//! `mat2str` make.
//!
//! Promised: each call gives exactly the bytes that the definitions of `specs/` say, which are lists built of
//! rows, cells, gaps and padding, readable beside the rules in `docs/LANGUAGE.md`. A text is made in one
//! buffer, in time linear in it. The layout is this project's own; the functions are MATLAB's.
#![tactic(auto)]

mod cells;
mod displayed;
mod formatted;
mod items;
mod literal;
mod numerals;
mod pattern;

pub use displayed::{disp_text, named_text};
pub use formatted::format;
pub use literal::mat2str;
pub use numerals::num2str;
