//! The laws that a program of which nothing isn't built has only loops over workers of the built form.
//!
//! A source is refused by where its program first uses what nothing carries out yet (`unbuilt_of`), and the laws of
//! loops over workers speak of bodies of one form (`is_form`). The laws (`specs/Built.antt`) join the two. Wherever a
//! loop stands in a program that isn't refused, its body is of the form; and a run of such a program asks only of
//! loops of the form, whatever the rules and the choices are, and from workspaces with a slot for each name, and of
//! extras that the program's table has. So what the laws of `pl_frame` suppose holds of each loop of which a run
//! asks, where the arrays that it writes are full (`specs/Ordinary.antt`). Nothing here runs.
#![tactic(auto)]

mod law;

pub use law::{
    an_asked_loop_does_as_an_ordinary_one, asked_loops_are_ready, built_loops_have_the_form,
    runs_ask_of_built_loops,
};
