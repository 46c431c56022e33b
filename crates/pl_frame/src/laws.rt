//! The laws.

ghost use Rattle.pl_frame.specs.Reading.{FrameLaw, WentLaw};
ghost use Rattle.pl_frame.specs.Ordering.{OrderLaw};
ghost use Rattle.pl_frame.specs.Rising.{RisingLaw};
ghost use Rattle.pl_frame.specs.Ordinary.{AnsweredLaw, OrdinaryLaw};

/// Holds of all expressions of the form that a body of a loop over workers is built of, away from the client, and on it
/// where the program has no extras: an expression changes nothing, takes no turns, starts no calls and asks nothing.
/// Where an iteration begins in a workspace that looks the same to it as another one, an expression that has a value in
/// the one shows the same and has the same value in the other.
pub fn expressions_only_read()
    ensures { FrameLaw }
{}

/// Holds of all loops of the form, where each variable that the body writes has an array before the loop or is new
/// with the loop: the body as one ordinary loop over one whole workspace, in any order of the index's values, ends with
/// the variables that the loop's answer has, and prints what the iterations print by themselves.
pub fn any_order_is_right()
    ensures { OrderLaw }
{}

/// Holds of the same expressions, where one went on with a value in some world: the workspace, the turns, the calls and
/// what the world keeps are as they were, no choice was taken, and the world was shown what the expression shows from
/// that workspace.
pub fn what_went_on_only_read()
    ensures { WentLaw }
{}

/// Holds of all loops of the form, where each variable that the body writes has an array before the loop or is new
/// with the loop: where all passes on one workspace end, in rising order of the index, and each that is new got arrays
/// of one class alone, every iteration ends by itself, they print what the passes printed, and the loop comes to the
/// variables as they stand there.
pub fn rising_order_needs_one_workspace()
    ensures { RisingLaw }
{}

/// Holds of all loops over workers, where each variable that the body writes has an array before the loop or is new with
/// the loop: where the next choices answer the loop, the statement takes a turn and these choices, and goes on as the
/// answer does, from what the world keeps then.
pub fn a_loop_goes_on_as_answered()
    ensures { AnsweredLaw }
{}

/// Holds of all loops of the form, where each variable that the body writes has an array before the loop or is new
/// with the loop: where the loop over workers is answered with variables, the statement `for` with the same index, range
/// and body, in its place and with a turn for each pass, prints the same and goes on from the same workspace, in which
/// only the index is another: it has its last value. It does so on the client, too, where its body might ask for
/// extras: as the iterations ended, it asks for none. The levels that are left to its body are such that the iterations
/// end with them, too.
pub fn an_ordinary_loop_does_the_same()
    ensures { OrdinaryLaw }
{}
