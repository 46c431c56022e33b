//! Laws of the definitions: a literal's number and a text's bytes are those that the grammar of tokens speaks of.

ghost use Rattle.std.specs.Prelude.{◌≡◌, ℕ, pos, true, List, [], ◌∷◌};
ghost use Rattle.pl_lex.specs.Pieces.{in_range, number_from, Inner, Inside, spelled};
ghost use Rattle.pl_terminals.specs.Terminals.{number, text, inner_bytes};

/// Holds of all literals in range and of all texts; it does nothing when it runs.
pub fn spelling()
    ensures number { (digits : List ℕ) → in_range digits ≡ true → number digits ≡ pos (number_from 0 digits) }
    ensures text { (quote : ℕ) (inner : List Inner) → Inside quote inner → text (quote ∷ spelled quote inner (quote ∷ [])) ≡ inner_bytes quote inner }
{}
