//! Operators on single numbers, with what each comes to by the plain rule: the exact result, clamped.

#[derive(Clone, Copy, PartialEq, Eq)]
pub enum Binary {
    Plus,
    Minus,
    Times,
    Over,
    Less,
    AtMost,
    More,
    AtLeast,
    Equal,
    Differ,
    And,
    Or,
}

/// How strongly parts hold together. An operand of its own holds strongest.
pub const OPERAND: u8 = 6;

pub const PREFIX: u8 = 5;

impl Binary {
    /// Any operator, by a number below 16: the four sums and products come twice.
    pub fn of(number: u64) -> Binary {
        match number {
            0 | 1 => Binary::Plus,
            2 | 3 => Binary::Minus,
            4 | 5 => Binary::Times,
            6 | 7 => Binary::Over,
            8 => Binary::Less,
            9 => Binary::AtMost,
            10 => Binary::More,
            11 => Binary::AtLeast,
            12 => Binary::Equal,
            13 => Binary::Differ,
            14 => Binary::And,
            _ => Binary::Or,
        }
    }

    pub fn sign(self) -> &'static [u8] {
        match self {
            Binary::Plus => b"+",
            Binary::Minus => b"-",
            Binary::Times => b".*",
            Binary::Over => b"./",
            Binary::Less => b"<",
            Binary::AtMost => b"<=",
            Binary::More => b">",
            Binary::AtLeast => b">=",
            Binary::Equal => b"==",
            Binary::Differ => b"~=",
            Binary::And => b"&",
            Binary::Or => b"|",
        }
    }

    /// Operators of one level go from the left.
    pub fn level(self) -> u8 {
        match self {
            Binary::Times | Binary::Over => 4,
            Binary::Plus | Binary::Minus => 3,
            Binary::And => 1,
            Binary::Or => 0,
            _ => 2,
        }
    }

    pub fn value(self, left: i64, right: i64) -> i64 {
        let (x, y) = (i128::from(left), i128::from(right));
        match self {
            Binary::Plus => clamped(x.saturating_add(y)),
            Binary::Minus => clamped(x.saturating_sub(y)),
            Binary::Times => clamped(x.saturating_mul(y)),
            Binary::Over => quotient(left, right),
            Binary::Less => i64::from(left < right),
            Binary::AtMost => i64::from(left <= right),
            Binary::More => i64::from(left > right),
            Binary::AtLeast => i64::from(left >= right),
            Binary::Equal => i64::from(left == right),
            Binary::Differ => i64::from(left != right),
            Binary::And => i64::from(left != 0 && right != 0),
            Binary::Or => i64::from(left != 0 || right != 0),
        }
    }
}

pub fn clamped(exact: i128) -> i64 {
    match i64::try_from(exact) {
        Ok(number) => number,
        Err(_) if exact < 0 => i64::MIN,
        Err(_) => i64::MAX,
    }
}

/// Rounded to the nearest number, ties away from zero; by 0 the end that has the sign.
fn quotient(left: i64, right: i64) -> i64 {
    if right == 0 {
        return match left {
            0 => 0,
            1.. => i64::MAX,
            _ => i64::MIN,
        };
    }
    let whole = u128::from(left.unsigned_abs());
    let part = u128::from(right.unsigned_abs());
    let twice = whole.saturating_mul(2).saturating_add(part);
    let size = twice.checked_div(part.saturating_mul(2)).unwrap_or(0);
    let size = i128::try_from(size).unwrap_or(i128::MAX);
    if (left < 0) == (right < 0) {
        clamped(size)
    } else {
        clamped(size.wrapping_neg())
    }
}
