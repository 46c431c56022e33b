//! Laws of the grammar: each list of terminals is a program or has a fault, one and not both; and the
//! machine finds it.

ghost use Rattle.std.specs.Prelude.{◌≡◌, ◌⊎◌, ◌-◌, ◌≤◌, ℕ, List, length, Ok, Err};
ghost use Rattle.pl_syntax.specs.declared.stmt.Program.{Program};
ghost use Rattle.pl_grammar.specs.declared.fault.FaultKind.{FaultKind};
ghost use Rattle.pl_grammar.specs.declared.terminal.Terminal.{Terminal};
ghost use Rattle.pl_grammar.specs.Derivations.{Prog};
ghost use Rattle.pl_grammar.specs.Trees.{program_of};
ghost use Rattle.pl_grammar.specs.Levels.{program_levels};
ghost use Rattle.pl_grammar.specs.Machine.{beginning};
ghost use Rattle.pl_grammar.specs.Programs.{strict, Parses, ParseFault};
ghost use Rattle.pl_grammar.specs.Steps.{run, Refusal};

/// Holds of all lists of terminals and all limits of nesting; it does nothing when it runs. A fault's place
/// counts the terminals before the first that no program has there.
pub fn one_answer()
    ensures some { (limit : ℕ) (terminals : List Terminal) → ((program : Program) × Parses (strict limit) terminals program) ⊎ ((kind : FaultKind) × ((at : ℕ) × ParseFault limit terminals at kind)) }
    ensures one_program { (limit : ℕ) (terminals : List Terminal) (program other : Program) → Parses (strict limit) terminals program → Parses (strict limit) terminals other → program ≡ other }
    ensures one_fault { (limit : ℕ) (terminals : List Terminal) (at other : ℕ) (kind otherwise : FaultKind) → ParseFault limit terminals at kind → ParseFault limit terminals other otherwise → (at ≡ other) × (kind ≡ otherwise) }
    ensures never_both { (limit : ℕ) (terminals : List Terminal) (program : Program) (at : ℕ) (kind : FaultKind) → Parses (strict limit) terminals program → ParseFault limit terminals at kind → ⊥ }
{}

/// Holds of all runs of the machine: where it ends well it has read the program, where it is refused it
/// stands at the fault, and it reads each program.
pub fn machine_reads()
    ensures found { (limit : ℕ) (terminals : List Terminal) (p : Prog) → run (strict limit) beginning terminals ≡ Ok p → Parses (strict limit) terminals (program_of p) }
    ensures refused { (limit : ℕ) (terminals : List Terminal) (f : Refusal) → run (strict limit) beginning terminals ≡ Err f → ParseFault limit terminals (length terminals - f.left) f.kind }
    ensures reads { (limit : ℕ) (terminals : List Terminal) (program : Program) (x : Parses (strict limit) terminals program) → run (strict limit) beginning terminals ≡ Ok x.rules }
{}

/// Holds of all programs: the tree of one is no higher than the limit of nesting.
pub fn trees_are_low()
    ensures { (limit : ℕ) (terminals : List Terminal) (program : Program) → Parses (strict limit) terminals program → program_levels program ≤ limit }
{}
