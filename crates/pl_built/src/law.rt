//! The laws.

ghost use Rattle.pl_built.specs.Built.{AskedLaw, BuiltLaw, RulesLaw, SlotsLaw};
ghost use Rattle.pl_built.specs.Ordinary.{AskedOrdinaryLaw, ReadyLaw};

/// Holds of all programs of which nothing isn't built, and of each loop over workers that stands in them, at any depth
/// in the script or in a function: its body is of the form that is built, it has no bound on its workers, and it goes
/// from one number to another in steps of 1; it does nothing when it runs.
pub fn built_loops_have_the_form()
    ensures { BuiltLaw }
{}

/// Holds of all runs of a program of which nothing isn't built, by whatever rules under whatever choices: one that stops
/// at a question stops at a loop over workers whose body is of the form that is built, or at an extra that the program's
/// table has; and the run is the same by rules that answer such questions alone. So no run asks of another loop. Where it
/// began in a workspace with a slot for each name of the script, the question of a loop comes from a workspace with a slot
/// for each name of the loop's scope. It does nothing when it runs.
pub fn runs_ask_of_built_loops()
    ensures asks { AskedLaw }
    ensures answers { RulesLaw }
    ensures slots { SlotsLaw }
{}

/// Holds of all runs of a program of which nothing isn't built, from a workspace with a slot for each name of the script: where one
/// stops at the question of a loop over workers, and the arrays that its body writes are full, the loop meets what the laws of
/// `pl_frame` suppose of it: its body is of the form, its index has a slot, and each variable that the body writes has a
/// full array or is new with the loop. It does nothing when it runs.
pub fn asked_loops_are_ready()
    ensures { ReadyLaw }
{}

/// Holds of the same runs and questions: where the definition answers the loop with variables, the statement `for` with the same
/// index, range and body, in its place and with a turn for each pass, goes on as that answer does: it prints the same bytes,
/// and the workspace is the same, but for the index, which has its last value. Each iteration has also to end with the
/// levels that are left to the body of that statement. It does nothing when it runs.
pub fn an_asked_loop_does_as_an_ordinary_one()
    ensures { AskedOrdinaryLaw }
{}
