//! Laws of the grammar: each source has one list of tokens or one fault, and not both; and a token is a
//! range of its source with bytes of its kind.

ghost use Rattle.std.specs.Prelude.{◌≡◌, ◌⊎◌, ℕ, List, All};
ghost use Rattle.pl_base.specs.declared.errors.Place.{Place};
ghost use Rattle.pl_lex.specs.Tokens.{Lexes, Faults, IsTokenOf};
ghost use Rattle.pl_lex.specs.declared.token.LexKind.{LexKind};
ghost use Rattle.pl_lex.specs.declared.token.Token.{Token};

/// Holds of all sources; it does nothing when it runs.
pub fn one_answer()
    ensures some { (source : List ℕ) → ((tokens : List Token) × Lexes source tokens) ⊎ ((kind : LexKind) × ((place : Place) × Faults source kind place)) }
    ensures one_list { (source : List ℕ) (tokens others : List Token) → Lexes source tokens → Lexes source others → tokens ≡ others }
    ensures one_fault { (source : List ℕ) (kind other : LexKind) (place elsewhere : Place) → Faults source kind place → Faults source other elsewhere → (kind ≡ other) × (place ≡ elsewhere) }
    ensures never_both { (source : List ℕ) (tokens : List Token) (kind : LexKind) (place : Place) → Lexes source tokens → Faults source kind place → ⊥ }
{}

/// Holds of all sources: each token is a range of its source, isn't empty, and has bytes of its kind.
pub fn token_ranges()
    ensures { (source : List ℕ) (tokens : List Token) → Lexes source tokens → All (IsTokenOf source) tokens }
{}
