//! The gate through which the jobs of a run go.

/// Told when a job begins and when it ends. It answers nothing and changes no result: a test's gate
/// may hold a job back until others came, to force an order.
pub trait Gate: Sync {
    fn enter(&self, job: u32);

    fn leave(&self, job: u32);
}

/// The gate that does nothing.
#[derive(Clone, Copy, Debug)]
pub struct Free;

impl Gate for Free {
    fn enter(&self, _job: u32) {}

    fn leave(&self, _job: u32) {}
}
