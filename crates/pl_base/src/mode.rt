//! What an operation makes of a result that is no 64-bit number.

#[derive(Clone, Copy, Debug, PartialEq, Eq)]
pub enum Mode {
    /// The nearest 64-bit number.
    Saturate,
    /// The refusal Overflow; so is a division by 0.
    Strict,
}
