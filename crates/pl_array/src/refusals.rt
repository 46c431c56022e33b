//! The tests of two numbers by which a cell of the result is refused.

ghost use Rattle.std.specs.Prelude.{◌≡◌, ℤ, Bool};
ghost use Rattle.pl_array.specs.Cellwise.{negative_power, overflows};
ghost use Rattle.pl_array.specs.declared.ops.Op2.{Op2};
ghost use Rattle.pl_base.specs.declared.mode.Mode.{Mode};

use crate::ops::Op2;
use pl_base::{Mode, power_within};

/// A test of the two numbers of a cell.
pub(crate) trait Test {
    ghost holds: { Self → ℤ → ℤ → Bool };

    fn holds(&self, x: i64, y: i64) -> bool
        ensures { result ≡ holds self.now x y };
}

/// An exponent below 0.
#[derive(Clone, Copy)]
pub(crate) struct Negative;

impl Test for Negative {
    ghost holds = { λ _. negative_power Op2.Pow };

    fn holds(&self, _x: i64, y: i64) -> bool {
        y < 0
    }
}

/// What the strict mode refuses.
#[derive(Clone, Copy)]
pub(crate) struct Strictly {
    pub(crate) op: Op2,
}

impl Test for Strictly {
    ghost holds = { λ s. overflows Mode.Strict s.op };

    fn holds(&self, x: i64, y: i64) -> bool {
        past_limits(self.op, x, y)
    }
}

fn past_limits(op: Op2, x: i64, y: i64) -> bool
    ensures { result ≡ overflows Mode.Strict op x y }
{
    match op {
        Op2::Add => x.checked_add(y).is_none(),
        Op2::Sub => x.checked_sub(y).is_none(),
        Op2::Mul => x.checked_mul(y).is_none(),
        Op2::Div => y == 0 || (x == i64::MIN && y == -1),
        Op2::Pow => power_within(x, y.unsigned_abs()).is_none(),
        _ => false,
    }
}

/// Whether the exponent of one cell is below 0.
pub(crate) fn is_negative_power(op: Op2, x: i64, y: i64) -> bool
    ensures { result ≡ negative_power op x y }
{
    match op {
        Op2::Pow => Negative.holds(x, y),
        _ => false,
    }
}

/// Whether one cell overflows in a mode.
pub(crate) fn is_overflow(mode: Mode, op: Op2, x: i64, y: i64) -> bool
    ensures { result ≡ overflows mode op x y }
{
    match mode {
        Mode::Saturate => false,
        Mode::Strict => past_limits(op, x, y),
    }
}
