//! A law of sources: each is one program at most, and one that is a program isn't refused.

ghost use Rattle.std.specs.Prelude.{◌≡◌, ℕ, List};
ghost use Rattle.pl_resolve.specs.declared.resolved.Resolved.{Resolved};
ghost use Rattle.pl_source.specs.Sources.{Ready, Refuses};

/// Holds of all sources; it does nothing when it runs.
pub fn one_answer()
    ensures one_program { (source : List ℕ) (r other : Resolved) → Ready source r → Ready source other → r ≡ other }
    ensures never_both { (source : List ℕ) (r : Resolved) (status : ℕ) (line : List ℕ) → Ready source r → Refuses source status line → ⊥ }
{
    pl_lex::one_answer();
    pl_grammar::one_answer();
}
