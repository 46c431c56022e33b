//! What a program uses that nothing carries out yet: most loops over workers, blocks, elements in braces, the states
//! of futures, and the functions of the parallel language. A program that uses one is refused before it runs, at
//! the first such place. Of the loops over workers those are carried out whose body has the one form that is built. A
//! function that the program's table of extras has is carried out too: the run asks its world for it.
#![tactic(auto)]

mod first;
mod names;
mod nodes;

pub use first::unbuilt;
