//! Where a part stands: on the client or away from it, in which scope, in which call, inside which index.

/// The frame of a part.
#[derive(Clone, Copy, Debug)]
pub struct Frame {
    /// Whether the client runs it. An iteration of a loop over workers is run away from the client.
    pub client: bool,
    /// The number of the scope: 0 for the script, and from 1 on the local functions in order.
    pub scope: usize,
    /// How many arguments the call of the function has, and how many outputs it is asked for.
    pub given: usize,
    pub wanted: usize,
    /// The innermost index of a variable around the part.
    pub ends: Option<Ends>,
}

/// What the word `end` stands for: a position, counted from 0, among so many of an index of a variable.
#[derive(Clone, Copy, Debug)]
pub struct Ends {
    pub slot: u32,
    pub position: usize,
    pub count: usize,
}

/// How a list of statements is left: at its end, or by one of three words.
#[derive(Clone, Copy, Debug, PartialEq, Eq)]
pub enum Exit {
    Onward,
    Broke,
    Continued,
    Returned,
}
