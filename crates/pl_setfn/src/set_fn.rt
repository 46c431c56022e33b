//! The functions and their names.

ghost use Rattle.std.specs.Prelude.{◌≡◌, ℕ, nat_eq};
ghost use Rattle.std.specs.List.{find};
ghost use Rattle.std.specs.Cmp.Lexicographic.{pointwise};
ghost use Rattle.pl_setfn.specs.Naming.{name_of, fn_named};
ghost use Rattle.pl_setfn.specs.Calls.{most_outputs};
ghost use Rattle.pl_setfn.specs.declared.set_fn.SetFn.{SetFn};

/// A function of this crate.
#[derive(Clone, Copy, Debug, PartialEq, Eq)]
pub enum SetFn {
    Find,
    Reshape,
    Repmat,
    Sort,
    Unique,
    Any,
    All,
    Cumsum,
    Fliplr,
    Flipud,
    Nnz,
}

const FUNCTIONS: [SetFn; 11] = [
    SetFn::Find,
    SetFn::Reshape,
    SetFn::Repmat,
    SetFn::Sort,
    SetFn::Unique,
    SetFn::Any,
    SetFn::All,
    SetFn::Cumsum,
    SetFn::Fliplr,
    SetFn::Flipud,
    SetFn::Nnz,
];

impl SetFn {
    /// The function with this name.
    #[tactic(auto, unfolding(crate::specs::Naming::fn_named))]
    pub fn of(name: &[u8]) -> Option<SetFn>
        ensures { result ≡ fn_named name.now }
    {
        named_in(&FUNCTIONS, name)
    }

    /// The name by which a script calls it.
    pub fn name(self) -> &'static str
        ensures { result.now ≡ name_of self }
    {
        match self {
            SetFn::Find => "find",
            SetFn::Reshape => "reshape",
            SetFn::Repmat => "repmat",
            SetFn::Sort => "sort",
            SetFn::Unique => "unique",
            SetFn::Any => "any",
            SetFn::All => "all",
            SetFn::Cumsum => "cumsum",
            SetFn::Fliplr => "fliplr",
            SetFn::Flipud => "flipud",
            SetFn::Nnz => "nnz",
        }
    }

    /// How many outputs it has.
    pub(crate) fn most_outputs(self) -> u32
        ensures { result ≡ most_outputs self }
    {
        match self {
            SetFn::Sort => 2,
            _ => 1,
        }
    }
}

fn named_in(functions: &[SetFn], name: &[u8]) -> Option<SetFn>
    ensures { result ≡ find (λ f. pointwise nat_eq (name_of f) name.now) functions.now }
{
    functions.iter().copied().find(|f| is_named(*f, name))
}

fn is_named(f: SetFn, name: &[u8]) -> bool
    ensures { result ≡ pointwise nat_eq (name_of f) name.now }
{
    f.name().as_bytes() == name
}
