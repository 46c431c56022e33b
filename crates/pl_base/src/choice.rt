//! The choices that a run makes and its journal keeps, one for each question that leaves one open.

use crate::seq::Seq;
use crate::text::Text;

/// How the iterations of a loop were joined: runs, each a list of the lengths of its pieces.
#[derive(Debug, Drop, PartialEq, Eq)]
pub struct Bracket {
    pub runs: Seq<Seq<u32>>,
}

/// Who put an item into a queue: numbers count from 1.
#[derive(Clone, Copy, Debug, PartialEq, Eq)]
pub enum Sender {
    Client,
    /// The number of the call.
    Call(u32),
    /// The number of the loop question.
    Loop(u32),
    /// The number of the block question, and the worker.
    Worker(u32, u32),
}

/// What was delivered: from which sender, on which queue.
#[derive(Clone, Copy, Debug, PartialEq, Eq)]
pub struct Given {
    pub queue: u32,
    pub sender: Sender,
}

/// What a call has come to.
#[derive(Clone, Copy, Debug, PartialEq, Eq)]
pub enum State {
    Queued,
    Running,
    Finished,
    Failed,
    Cancelled,
}

/// One entry of a journal.
#[derive(Debug, Drop, PartialEq, Eq)]
pub enum Choice {
    /// A loop that is done, with its bracketing.
    Runs(Bracket),
    /// A loop of which the iteration with this loop value raised.
    Fail(i64),
    /// A loop of which the writes of this variable couldn't be merged.
    Merge(Text),
    /// A loop of which the reduction of this variable raised under the bracketing.
    Combine(Text, Bracket),
    /// A block that ended: for each worker the sources of its receives from any source.
    BlockOk(Seq<Seq<u32>>),
    /// A block in which a worker raised: the counts of answers, and the sources.
    BlockRaised(Seq<u32>, Seq<Seq<u32>>),
    /// A block that could go on nowhere: the counts of answers, and the sources.
    BlockStuck(Seq<u32>, Seq<Seq<u32>>),
    /// The outputs of this call were fetched.
    Fetch(u32),
    /// This call was waited for.
    Wait(u32),
    /// The call that was fetched next.
    Next(u32),
    Poll(Option<Sender>),
    Deliver(Option<Given>),
    /// The call, and whether it was cancelled.
    Cancel(u32, bool),
    State(u32, State),
}
