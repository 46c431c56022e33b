//! Arguments that stand for a dimension, or have to be a stated text.

ghost use Rattle.std.specs.Prelude.{◌≡◌};
ghost use Rattle.pl_setfn.specs.Arguments.{dim_asked, is_text, descend};

use pl_array::{Arr, Class};
use pl_base::ErrKind;
use pl_lines::Dim;

// The numbers of the text `descend`.
static DESCEND: [i64; 7] = [100, 101, 115, 99, 101, 110, 100];

/// Whether the array is the text that asks for a falling order.
pub(crate) fn is_descend(a: &Arr) -> bool
    ensures { result ≡ is_text descend a.now }
{
    a.class().number() == Class::Char.number()
        && a.shape().rows == 1
        && a.cells() == DESCEND.as_slice()
}

/// The dimension that an argument stands for.
pub(crate) fn dim_asked(a: &Arr) -> Result<Dim, ErrKind>
    ensures { result ≡ dim_asked a.now }
{
    match a.single() {
        Some(number) => match Dim::of(number) {
            Some(d) => Ok(d),
            None => Err(ErrKind::ArgRange),
        },
        None => Err(ErrKind::NotScalar),
    }
}
