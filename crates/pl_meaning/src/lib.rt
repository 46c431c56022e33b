//! What a run of a part of a program means, and what a world is that such a run speaks to.
//!
//! A part is an expression, a statement or a list of statements. It runs over a workspace with a number of
//! turns and under a number of levels, tells events and asks questions. The definition in `specs/` is the one
//! meaning of the language: what carries a part out promises that definition and nothing else, and every
//! law about runs is a law about it. It is by cases on the tree, and total.
//!
//! What is promised of a part that is carried out, case by case: where it goes on, the definition goes on with
//! the same value from where the workspace, the turns, the choices and the events then stand; where it
//! raises an error, the definition goes on behind that error from there; where the world stopped it, the
//! events told are the first of the definition's, and so they are where memory was wanting.
#![tactic(auto)]

mod ended;
mod event;
mod extras;
mod frame;
mod halt;
mod known;
mod memory;
mod naming;
mod world;

pub use ended::Ended;
pub use event::{Answer, Bounds, Clash, Event, ExtraAnswer, Loop, Looped, Output, Question};
pub use extras::{binary_door, function_door, read_door, read_operands, unary_door};
pub use frame::{Ends, Exit, Frame};
pub use halt::{Halt, Stop};
pub use known::{Known, Own};
pub use memory::Memory;
pub use naming::{function_of, slot_of};
pub use world::World;
