//! The signs of operators.

ghost use Rattle.std.specs.Prelude.{◌≡◌};
ghost use Rattle.pl_syntax.specs.Signs.{unary_sign, binary_sign};

use crate::expr::{Bin, Un};

impl Un {
    /// The sign in a text; that of a transposition stands behind its operand.
    pub fn sign(self) -> &'static [u8]
        ensures { result.now ≡ unary_sign self }
    {
        match self {
            Un::Plus => b"+",
            Un::Minus => b"-",
            Un::Not => b"~",
            Un::Transpose => b"'",
        }
    }
}

impl Bin {
    /// The sign in a text.
    pub fn sign(self) -> &'static [u8]
        ensures { result.now ≡ binary_sign self }
    {
        match self {
            Bin::Add => b"+",
            Bin::Sub => b"-",
            Bin::Mul => b"*",
            Bin::Div => b"/",
            Bin::Pow => b"^",
            Bin::DotMul => b".*",
            Bin::DotDiv => b"./",
            Bin::DotPow => b".^",
            Bin::Lt => b"<",
            Bin::Le => b"<=",
            Bin::Gt => b">",
            Bin::Ge => b">=",
            Bin::Eq => b"==",
            Bin::Ne => b"~=",
            Bin::And => b"&",
            Bin::Or => b"|",
            Bin::AndAlso => b"&&",
            Bin::OrElse => b"||",
        }
    }
}
