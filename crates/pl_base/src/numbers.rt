//! The numbers of the language: 64-bit whole numbers, exact and then clamped.

ghost use Rattle.std.specs.Prelude.{◌≡◌, ◌≢◌, ◌↔◌, ℕ, ◌+◌, ◌*◌, ◌/◌, ◌%◌, ◌^◌, ◌<◌, ◌≤◌, ℤ, pos, ◌+ℤ◌, ◌-ℤ◌, ◌*ℤ◌, ◌<ℤ◌, neg_ℤ, unsigned_abs, FitsSigned, IfOk, IsErr};
ghost use Rattle.std.specs.Int.{int_pow, int_rem_euclid, w64};
ghost use Rattle.std.specs.Option.{SomeIff};
ghost use Rattle.pl_base.specs.Numbers.{clamp, nearest, quotient, modulo, remainder};

use thiserror::Error;

/// The exact sum, clamped.
pub fn add_sat(a: i64, b: i64) -> i64
    ensures { result ≡ clamp (a +ℤ b) }
{
    a.saturating_add(b)
}

/// The exact difference, clamped.
pub fn sub_sat(a: i64, b: i64) -> i64
    ensures { result ≡ clamp (a -ℤ b) }
{
    a.saturating_sub(b)
}

/// The exact product, clamped.
pub fn mul_sat(a: i64, b: i64) -> i64
    ensures { result ≡ clamp (a *ℤ b) }
{
    a.saturating_mul(b)
}

/// The exact negative, clamped.
pub fn neg_sat(a: i64) -> i64
    ensures { result ≡ clamp (neg_ℤ a) }
{
    0i64.saturating_sub(a)
}

/// The quotient to the nearest whole number, a tie away from zero, clamped. A number above 0 divided by 0 is
/// the greatest number, one below it the least, and `0/0` is 0.
pub fn div_round(a: i64, b: i64) -> i64
    ensures { result ≡ clamp (quotient a b) }
{
    if b == 0 {
        return by_zero(a);
    }
    let size = div_nearest(a.unsigned_abs(), b.unsigned_abs());
    if (a < 0) == (b < 0) {
        above_zero(size)
    } else {
        below_zero(size)
    }
}

fn by_zero(a: i64) -> i64
    ensures { result ≡ clamp (quotient a (pos 0)) }
{
    if a < 0 {
        i64::MIN
    } else if a == 0 {
        0
    } else {
        i64::MAX
    }
}

fn div_nearest(m: u64, n: u64) -> u64
    requires divisor { 0 < n }
    requires size { m ≤ 2 ^ 63 }
    ensures { result ≡ nearest m n }
{
    let whole = m / n;
    let rest = m % n;
    if rest >= n - rest { whole + 1 } else { whole }
}

fn above_zero(size: u64) -> i64
    ensures { result ≡ clamp (pos size) }
{
    if size < 0x8000_0000_0000_0000 {
        size as i64
    } else {
        i64::MAX
    }
}

fn below_zero(size: u64) -> i64
    ensures { result ≡ clamp (neg_ℤ (pos size)) }
{
    if size < 0x8000_0000_0000_0000 {
        -(size as i64)
    } else {
        i64::MIN
    }
}

/// What is left by the division that rounds down, so it has the divisor's sign; by 0 it is `a`.
pub fn mod_floor(a: i64, b: i64) -> i64
    ensures { result ≡ clamp (modulo a b) }
{
    if b == 0 {
        a
    } else if b < 0 {
        mod_below(a, b.unsigned_abs())
    } else {
        a.rem_euclid(b)
    }
}

fn mod_below(a: i64, size: u64) -> i64
    requires low { 0 < size }
    requires high { size ≤ 2 ^ 63 }
    ensures { result ≡ clamp (neg_ℤ (int_rem_euclid (neg_ℤ a) (pos size))) }
{
    let rest = if a <= 0 {
        a.unsigned_abs() % size
    } else {
        size - 1 - (a as u64 - 1) % size
    };
    -(rest as i64)
}

/// What is left by the division that rounds to zero, so it has the dividend's sign; by 0 it is 0.
pub fn rem_zero(a: i64, b: i64) -> i64
    ensures { result ≡ clamp (remainder a b) }
{
    if b == 0 { 0 } else { a.wrapping_rem(b) }
}

/// The exponent of a power is below 0.
#[derive(Clone, Copy, Debug, PartialEq, Eq, Error)]
#[error("negative power")]
pub struct NegativePower;

/// The exact power, clamped; `0^0` is 1.
pub fn pow_sat(a: i64, b: i64) -> Result<i64, NegativePower>
    ensures power { IfOk result (λ z. z ≡ clamp (int_pow a (unsigned_abs b))) }
    ensures negative { IsErr result ↔ (b <ℤ pos 0) }
{
    if b < 0 {
        return Err(NegativePower);
    }
    Ok(power(a, b.unsigned_abs()))
}

/// The exact power, clamped.
pub fn power(a: i64, e: u64) -> i64
    ensures { result ≡ clamp (int_pow a e) }
{
    match power_within(a, e) {
        Some(z) => z,
        None => power_past(a, e),
    }
}

/// The exact power, where it is a 64-bit number.
pub fn power_within(a: i64, e: u64) -> Option<i64>
    ensures { SomeIff result (FitsSigned w64 (int_pow a e)) (int_pow a e) }
{
    if e < 64 {
        a.checked_pow(e as u32)
    } else {
        large_power(a, e)
    }
}

/// Every power from the 64th on of a number that isn't 0, 1 or -1 is past the 64-bit numbers.
fn large_power(a: i64, e: u64) -> Option<i64>
    requires { 64 ≤ e }
    ensures { SomeIff result (FitsSigned w64 (int_pow a e)) (int_pow a e) }
{
    if a == 0 {
        return Some(0);
    }
    if a == 1 {
        return Some(1);
    }
    if a == -1 {
        return Some(if e % 2 == 0 { 1 } else { -1 });
    }
    None
}

fn power_past(a: i64, e: u64) -> i64
    requires { FitsSigned w64 (int_pow a e) → ⊥ }
    ensures { result ≡ clamp (int_pow a e) }
{
    if a < 0 && e % 2 == 1 {
        i64::MIN
    } else {
        i64::MAX
    }
}
