//! The functions of the library, and their names in a script.

ghost use Rattle.std.specs.Prelude.{◌≡◌};
ghost use Rattle.pl_meaning.specs.Known.{own_name, same, own_named, known_of, is_feval as feval, is_own_feval as own_feval};

use pl_builtin::Builtin;
use pl_setfn::SetFn;

/// A function that a run carries out itself.
#[derive(Clone, Copy, Debug, PartialEq, Eq)]
pub enum Own {
    Disp,
    Fprintf,
    Sprintf,
    Error,
    NumToStr,
    MatToStr,
    Feval,
}

/// A function of the library: a run's own, or one of the tables of functions of arrays.
#[derive(Clone, Copy)]
pub enum Known {
    Own(Own),
    Numbers(Builtin),
    Sets(SetFn),
}

const OWN: [Own; 7] = [
    Own::Disp,
    Own::Fprintf,
    Own::Sprintf,
    Own::Error,
    Own::NumToStr,
    Own::MatToStr,
    Own::Feval,
];

impl Own {
    /// The function of this name.
    #[tactic(auto, unfolding(crate::specs::Known::own_named))]
    pub fn of(name: &[u8]) -> Option<Own>
        ensures { result ≡ own_named name.now }
    {
        OWN.iter().copied().find(|f| f.is_named(name))
    }

    fn is_feval(self) -> bool
        ensures { result ≡ own_feval self }
    {
        matches!(self, Own::Feval)
    }

    fn is_named(self, name: &[u8]) -> bool
        ensures { result ≡ same (own_name self) name.now }
    {
        self.name().as_bytes() == name
    }

    /// The name in a script.
    pub fn name(self) -> &'static str
        ensures { result.now ≡ own_name self }
    {
        match self {
            Own::Disp => "disp",
            Own::Fprintf => "fprintf",
            Own::Sprintf => "sprintf",
            Own::Error => "error",
            Own::NumToStr => "num2str",
            Own::MatToStr => "mat2str",
            Own::Feval => "feval",
        }
    }
}

impl Known {
    /// The function of this name.
    #[tactic(auto, unfolding(crate::specs::Known::known_of))]
    pub fn of(name: &[u8]) -> Option<Known>
        ensures { result ≡ known_of name.now }
    {
        if let Some(f) = Own::of(name) {
            return Some(Known::Own(f));
        }
        if let Some(f) = Builtin::of(name) {
            return Some(Known::Numbers(f));
        }
        let f = SetFn::of(name)?;
        Some(Known::Sets(f))
    }

    /// Whether it is the call by a value.
    pub fn is_feval(self) -> bool
        ensures { result ≡ feval self }
    {
        match self {
            Known::Own(f) => f.is_feval(),
            Known::Numbers(_) => false,
            Known::Sets(_) => false,
        }
    }
}
