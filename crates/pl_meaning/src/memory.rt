//! What a part works on.

use pl_values::Env;

/// The workspace of the scope that runs, the turns that are left, and how many calls were started so far.
#[derive(Drop)]
pub struct Memory<'b> {
    pub env: Env<'b>,
    pub turns: u64,
    pub calls: u32,
}
