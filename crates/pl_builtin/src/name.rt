//! The functions of this crate, and their names in a script.
//!
//! Promised: each function has one name, and a name finds its function alone.

ghost use Rattle.std.specs.Prelude.{◌≡◌, Some};
ghost use Rattle.pl_builtin.specs.Names.{name_of, named, same};

/// A function of arrays that gives arrays.
#[derive(Clone, Copy, Debug, PartialEq, Eq)]
pub enum Builtin {
    Abs,
    Sign,
    Mod,
    Rem,
    Xor,
    Min,
    Max,
    Sum,
    Prod,
    Idivide,
    BitAnd,
    BitOr,
    BitXor,
    BitShift,
    Numel,
    Length,
    IsEmpty,
    Size,
    IsEqual,
    Zeros,
    Ones,
    True,
    False,
    Eye,
    ToInt,
    ToLogical,
    ToChar,
    IntMax,
    IntMin,
    ClassOf,
    IsChar,
    IsLogical,
    IsNumeric,
    IsScalar,
    IsVector,
    StrCmp,
}

const ALL: [Builtin; 36] = [
    Builtin::Abs,
    Builtin::Sign,
    Builtin::Mod,
    Builtin::Rem,
    Builtin::Xor,
    Builtin::Min,
    Builtin::Max,
    Builtin::Sum,
    Builtin::Prod,
    Builtin::Idivide,
    Builtin::BitAnd,
    Builtin::BitOr,
    Builtin::BitXor,
    Builtin::BitShift,
    Builtin::Numel,
    Builtin::Length,
    Builtin::IsEmpty,
    Builtin::Size,
    Builtin::IsEqual,
    Builtin::Zeros,
    Builtin::Ones,
    Builtin::True,
    Builtin::False,
    Builtin::Eye,
    Builtin::ToInt,
    Builtin::ToLogical,
    Builtin::ToChar,
    Builtin::IntMax,
    Builtin::IntMin,
    Builtin::ClassOf,
    Builtin::IsChar,
    Builtin::IsLogical,
    Builtin::IsNumeric,
    Builtin::IsScalar,
    Builtin::IsVector,
    Builtin::StrCmp,
];

impl Builtin {
    /// The function of this name.
    pub fn of(name: &[u8]) -> Option<Builtin>
        ensures { result ≡ named name.now }
    {
        ALL.iter().copied().find(|f| f.is_named(name))
    }

    fn is_named(self, name: &[u8]) -> bool
        ensures { result ≡ same (name_of self) name.now }
    {
        self.name().as_bytes() == name
    }

    /// The name in a script.
    pub fn name(self) -> &'static str
        ensures name { result.now ≡ name_of self }
        ensures own { named (name_of self) ≡ Some self }
    {
        match self {
            Builtin::Abs => "abs",
            Builtin::Sign => "sign",
            Builtin::Mod => "mod",
            Builtin::Rem => "rem",
            Builtin::Xor => "xor",
            Builtin::Min => "min",
            Builtin::Max => "max",
            Builtin::Sum => "sum",
            Builtin::Prod => "prod",
            Builtin::Idivide => "idivide",
            Builtin::BitAnd => "bitand",
            Builtin::BitOr => "bitor",
            Builtin::BitXor => "bitxor",
            Builtin::BitShift => "bitshift",
            Builtin::Numel => "numel",
            Builtin::Length => "length",
            Builtin::IsEmpty => "isempty",
            Builtin::Size => "size",
            Builtin::IsEqual => "isequal",
            Builtin::Zeros => "zeros",
            Builtin::Ones => "ones",
            Builtin::True => "true",
            Builtin::False => "false",
            Builtin::Eye => "eye",
            Builtin::ToInt => "int64",
            Builtin::ToLogical => "logical",
            Builtin::ToChar => "char",
            Builtin::IntMax => "intmax",
            Builtin::IntMin => "intmin",
            Builtin::ClassOf => "class",
            Builtin::IsChar => "ischar",
            Builtin::IsLogical => "islogical",
            Builtin::IsNumeric => "isnumeric",
            Builtin::IsScalar => "isscalar",
            Builtin::IsVector => "isvector",
            Builtin::StrCmp => "strcmp",
        }
    }
}
