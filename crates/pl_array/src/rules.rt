//! One rule for each operator: the number that it makes of two. Each is a type of its own, so that each
//! operator's pass over the cells is compiled for it.

ghost use Rattle.std.specs.Prelude.{◌≡◌, ℤ};
ghost use Rattle.pl_array.specs.Cellwise.{number};
ghost use Rattle.pl_array.specs.declared.ops.Op2.{Op2};

use crate::ops::Op2;
use pl_base::{add_sat, div_round, mod_floor, mul_sat, power, rem_zero, sub_sat};

/// A rule for the number of a cell.
pub(crate) trait Rule {
    /// The operator that it computes.
    ghost op: { Self → Op2 };

    fn number(&self, x: i64, y: i64) -> i64
        ensures { result ≡ number (op self.now) x y };
}

#[derive(Clone, Copy)]
pub(crate) struct Add;

impl Rule for Add {
    ghost op = { λ _. Op2.Add };

    fn number(&self, x: i64, y: i64) -> i64 {
        add_sat(x, y)
    }
}

#[derive(Clone, Copy)]
pub(crate) struct Sub;

impl Rule for Sub {
    ghost op = { λ _. Op2.Sub };

    fn number(&self, x: i64, y: i64) -> i64 {
        sub_sat(x, y)
    }
}

#[derive(Clone, Copy)]
pub(crate) struct Mul;

impl Rule for Mul {
    ghost op = { λ _. Op2.Mul };

    fn number(&self, x: i64, y: i64) -> i64 {
        mul_sat(x, y)
    }
}

#[derive(Clone, Copy)]
pub(crate) struct Div;

impl Rule for Div {
    ghost op = { λ _. Op2.Div };

    fn number(&self, x: i64, y: i64) -> i64 {
        div_round(x, y)
    }
}

#[derive(Clone, Copy)]
pub(crate) struct Pow;

impl Rule for Pow {
    ghost op = { λ _. Op2.Pow };

    fn number(&self, x: i64, y: i64) -> i64 {
        power(x, y.unsigned_abs())
    }
}

#[derive(Clone, Copy)]
pub(crate) struct Mod;

impl Rule for Mod {
    ghost op = { λ _. Op2.Mod };

    fn number(&self, x: i64, y: i64) -> i64 {
        mod_floor(x, y)
    }
}

#[derive(Clone, Copy)]
pub(crate) struct Rem;

impl Rule for Rem {
    ghost op = { λ _. Op2.Rem };

    fn number(&self, x: i64, y: i64) -> i64 {
        rem_zero(x, y)
    }
}

#[derive(Clone, Copy)]
pub(crate) struct Min;

impl Rule for Min {
    ghost op = { λ _. Op2.Min };

    fn number(&self, x: i64, y: i64) -> i64 {
        x.min(y)
    }
}

#[derive(Clone, Copy)]
pub(crate) struct Max;

impl Rule for Max {
    ghost op = { λ _. Op2.Max };

    fn number(&self, x: i64, y: i64) -> i64 {
        x.max(y)
    }
}

#[derive(Clone, Copy)]
pub(crate) struct Lt;

impl Rule for Lt {
    ghost op = { λ _. Op2.Lt };

    fn number(&self, x: i64, y: i64) -> i64 {
        i64::from(x < y)
    }
}

#[derive(Clone, Copy)]
pub(crate) struct Le;

impl Rule for Le {
    ghost op = { λ _. Op2.Le };

    fn number(&self, x: i64, y: i64) -> i64 {
        i64::from(x <= y)
    }
}

#[derive(Clone, Copy)]
pub(crate) struct Gt;

impl Rule for Gt {
    ghost op = { λ _. Op2.Gt };

    fn number(&self, x: i64, y: i64) -> i64 {
        i64::from(x > y)
    }
}

#[derive(Clone, Copy)]
pub(crate) struct Ge;

impl Rule for Ge {
    ghost op = { λ _. Op2.Ge };

    fn number(&self, x: i64, y: i64) -> i64 {
        i64::from(x >= y)
    }
}

#[derive(Clone, Copy)]
pub(crate) struct Eq;

impl Rule for Eq {
    ghost op = { λ _. Op2.Eq };

    fn number(&self, x: i64, y: i64) -> i64 {
        i64::from(x == y)
    }
}

#[derive(Clone, Copy)]
pub(crate) struct Ne;

impl Rule for Ne {
    ghost op = { λ _. Op2.Ne };

    fn number(&self, x: i64, y: i64) -> i64 {
        i64::from(x != y)
    }
}

#[derive(Clone, Copy)]
pub(crate) struct And;

impl Rule for And {
    ghost op = { λ _. Op2.And };

    fn number(&self, x: i64, y: i64) -> i64 {
        i64::from(x != 0 && y != 0)
    }
}

#[derive(Clone, Copy)]
pub(crate) struct Or;

impl Rule for Or {
    ghost op = { λ _. Op2.Or };

    fn number(&self, x: i64, y: i64) -> i64 {
        i64::from(x != 0 || y != 0)
    }
}

#[derive(Clone, Copy)]
pub(crate) struct Xor;

impl Rule for Xor {
    ghost op = { λ _. Op2.Xor };

    fn number(&self, x: i64, y: i64) -> i64 {
        i64::from((x != 0) != (y != 0))
    }
}
