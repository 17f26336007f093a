//! Statements that hold others do what they mean.
ghost use Rattle.inf_control_laws.specs.{Laws.StatementsRun, Plain.PlainStatementsRun, Premises.AllPremisesHold, Units.AllUnitsRun};

/// States that the items which are laid for `if`, `else`, `while`, `do`, `for`, `objectloop` and `switch`, however
/// they are nested, do what the statements mean (`effect`), on a machine that runs them by the Z-Machine Standard
/// 1.1, where the items of their parts do (`Carries`): control comes behind the statement, to the labels to which
/// `break` and `continue` lead around it, or to an instruction that returns a value, and the store is changed as the
/// statement says.
pub fn statements_run()
    ensures { StatementsRun }
{}

/// States that the items which are laid for an expression alone, `return`, `rtrue`, `rfalse`, `break` and `continue`
/// do what these mean: an expression changes the store, a value is returned, and control goes to the label of the
/// innermost statement that can be left, or gone on with.
pub fn plain_statements_run()
    ensures { PlainStatementsRun }
{}

/// States that the units of conditions, of the start and the step of a `for`, of the objects of a loop, of the value and
/// the cases of a `switch`, and of such plain statements lay what their trees ask, where they have no error: a
/// condition branches to the label of the innermost statement where it is not true, a loop over objects finds the first
/// object and each next one, and a case leads to the next one where the value is none of its own.
pub fn units_run()
    ensures { AllUnitsRun }
{}

/// States that the parts of nested statements are what the law of these takes of them: conditions, the start and the
/// step of a `for`, the objects of a loop (`LoopBegins`), the value and the cases of a `switch` (`CaseBegins`), and
/// plain statements, where their units have no error and nothing is laid while they are read.
pub fn premises_hold()
    ensures { AllPremisesHold }
{}
