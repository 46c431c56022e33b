//! The rules of a cell for `idivide` and the functions of bits: what becomes of two numbers.
//!
//! Promised: the exact result, clamped to 64 bits, and whether the strict mode refuses it.

ghost use Rattle.std.specs.Prelude.{◌≡◌, ◌*◌, ◌/◌, ◌^◌, ◌-◌, pos, neg_ℤ, int_lt, bit_or, min, if◌then◌else◌};
ghost use Rattle.pl_base.specs.Numbers.{clamp};
ghost use Rattle.pl_builtin.specs.Rules.{divided, combined_bits, shifted, differ, number, overflows};

use pl_base::{Mode, div_round};

/// How a quotient is made whole.
#[derive(Clone, Copy, Debug, PartialEq, Eq)]
pub(crate) enum Rounding {
    /// Towards zero.
    Fix,
    /// To the next whole number below.
    Floor,
    /// To the next whole number above.
    Ceil,
    /// To the nearest, a tie away from zero.
    Round,
}

/// What becomes of the bits of two numbers.
#[derive(Clone, Copy, Debug, PartialEq, Eq)]
pub(crate) enum Bits {
    And,
    Or,
    Xor,
    /// The left one moves by the right one, upwards where that isn't below zero.
    Shift,
}

/// A rule for the number of a cell.
#[derive(Clone, Copy, Debug, PartialEq, Eq)]
pub(crate) enum Rule {
    Divide(Rounding),
    Combine(Bits),
}

impl Rule {
    /// The exact result, clamped.
    pub(crate) fn number(self, x: i64, y: i64) -> i64
        ensures { result ≡ number self x y }
    {
        match self {
            Rule::Divide(rounding) => divide(rounding, x, y),
            Rule::Combine(bits) => above_zero(combine(bits, x, y)),
        }
    }

    /// Whether the strict mode refuses the cell.
    pub(crate) fn is_past(self, x: i64, y: i64) -> bool
        ensures { result ≡ overflows Mode.Strict self x y }
    {
        match self {
            Rule::Divide(rounding) => is_past_quotient(rounding, x, y),
            Rule::Combine(bits) => combine(bits, x, y) > 0x7fff_ffff_ffff_ffff,
        }
    }
}

/// Only a quotient by 0, and the least number by -1, are past the 64-bit numbers.
#[tactic(auto, using(crate::proofs::Sizes::quotient_within))]
fn is_past_quotient(rounding: Rounding, x: i64, y: i64) -> bool
    ensures { result ≡ overflows Mode.Strict (Rule.Divide rounding) x y }
{
    if y == 0 {
        true
    } else if x == i64::MIN {
        y == -1
    } else {
        false
    }
}

fn divide(rounding: Rounding, x: i64, y: i64) -> i64
    ensures { result ≡ clamp (divided rounding x y) }
{
    if y == 0 {
        return div_round(x, y);
    }
    let m = x.unsigned_abs();
    let n = y.unsigned_abs();
    match rounding {
        Rounding::Fix => with_sign(x, y, m / n, m / n),
        Rounding::Floor => with_sign(x, y, m / n, m.div_ceil(n)),
        Rounding::Ceil => with_sign(x, y, m.div_ceil(n), m / n),
        Rounding::Round => div_round(x, y),
    }
}

/// The one size with the sign of a quotient above zero, the other with that of one below.
fn with_sign(x: i64, y: i64, above: u64, below: u64) -> i64
    ensures { result ≡ clamp (if differ (int_lt x (pos 0)) (int_lt y (pos 0)) then neg_ℤ (pos below) else pos above) }
{
    if (x < 0) == (y < 0) {
        above_zero(above)
    } else {
        below_zero(below)
    }
}

fn above_zero(size: u64) -> i64
    ensures { result ≡ clamp (pos size) }
{
    if size < 0x8000_0000_0000_0000 {
        size as i64
    } else {
        i64::MAX
    }
}

fn below_zero(size: u64) -> i64
    ensures { result ≡ clamp (neg_ℤ (pos size)) }
{
    if size < 0x8000_0000_0000_0000 {
        -(size as i64)
    } else {
        i64::MIN
    }
}

/// The exact result, and the greatest 64 bits where it is past them.
fn combine(bits: Bits, x: i64, y: i64) -> u64
    ensures { result ≡ min (combined_bits bits x y) (2 ^ 64 - 1) }
{
    let m = x.unsigned_abs();
    let n = y.unsigned_abs();
    match bits {
        Bits::And => m & n,
        Bits::Or => either(m, n),
        Bits::Xor => m ^ n,
        Bits::Shift => shift(m, y),
    }
}

#[tactic(auto, using(crate::proofs::Sizes::or_within))]
fn either(m: u64, n: u64) -> u64
    ensures { result ≡ min (bit_or m n) (2 ^ 64 - 1) }
{
    m | n
}

fn shift(m: u64, y: i64) -> u64
    ensures { result ≡ min (shifted m y) (2 ^ 64 - 1) }
{
    let count = y.unsigned_abs();
    if y >= 0 {
        shift_up(m, count)
    } else {
        shift_down(m, count)
    }
}

fn shift_up(m: u64, count: u64) -> u64
    ensures { result ≡ min (m * 2 ^ count) (2 ^ 64 - 1) }
{
    if count < 64 {
        m.saturating_mul(1 << count)
    } else if m == 0 {
        0
    } else {
        u64::MAX
    }
}

fn shift_down(m: u64, count: u64) -> u64
    ensures { result ≡ m / 2 ^ count }
{
    if count < 64 { m >> count } else { 0 }
}
