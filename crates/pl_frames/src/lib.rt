//! What a parser of the language holds between two terminals: operands with their trees, frames, and where a
//! statement stands.
//!
//! A tree is built as soon as no terminal behind it can change what it is; until then an operand keeps the form that
//! the terminals behind it may ask for (a target, a row that may be outputs, `[]`). Each call gives exactly what its
//! definition (`specs/`) says of such values; want of memory is the one answer that no clause rules out. Which
//! terminals are a program is the grammar's matter (`pl_grammar`).
#![tactic(auto)]

mod below;
mod operand;
mod outlist;
mod parts;
mod pile;
mod reducing;
mod rows;
mod stack;
mod state;
mod trees;

pub use below::{
    Scene, allows, has_base_room, has_room, holds, in_index, in_row, outgoing_room, site_open,
    site_room, spot_room, stack_open,
};
pub use operand::{Callee, Element, Form, Mark, Op, Operand, SignAt};
pub use outlist::{Outlist, row_outputs, shown_site, skipped};
pub use parts::{closed, enter};
pub use pile::Pile;
pub use reducing::{Held, level, reduce};
pub use rows::{argument, bracket, bracketed, broken, celled, filled, listed, row_bracket};
pub use stack::{
    Bottom, Cells, Done, Frame, Goal, Heading, Inner, Lead, Level, Listed, Opened, Outgoing, Part,
    Root, Rows, Site, Spot, Stack, Title, Top,
};
pub use state::{Additive, State, Titling};
pub use trees::{call, name_at, plain, plus, tree};
