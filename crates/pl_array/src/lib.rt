//! Arrays: their values, how they are kept, and what the operators make of them.
//!
//! An array has a class, rows, columns and its cells by columns; contracts see that and nothing of
//! how it is kept. What is promised: each call gives the array that the definitions of `specs/` say, or
//! the refusal that they say, in their order; and an array that a call can't change after all is as
//! it was.
#![tactic(auto)]

mod arr;
mod class;
mod conversion;
mod elementwise;
mod fitting;
mod held;
mod join;
mod ops;
mod passes;
mod refusals;
mod rules;
mod searches;
mod turn;
mod unary;

pub use arr::Arr;
pub use class::{Class, Shape};
pub use conversion::convert;
pub use elementwise::{map2, map2_in};
pub use fitting::fit;
pub use join::{concat_h, concat_v};
pub use ops::{Op1, Op2};
pub use turn::transpose;
pub use unary::{map1, map1_in};
