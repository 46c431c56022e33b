//! Laws about loops over workers.
//!
//! They are laws about the definitions of a run: nothing here runs. A public function states a law in its
//! contract and does nothing.
//!
//! The expressions of a body of the built form only read; also where all that is known is that one went on in some
//! world. By that the order of a loop's iterations doesn't matter, an ordinary `for` in the loop's place does the
//! same, and a loop that is run pass by pass on one workspace, in rising order of its index, comes to what its
//! iterations come to by themselves.
#![tactic(auto)]

mod laws;

pub use laws::{
    a_loop_goes_on_as_answered, an_ordinary_loop_does_the_same, any_order_is_right,
    expressions_only_read, rising_order_needs_one_workspace, what_went_on_only_read,
};
