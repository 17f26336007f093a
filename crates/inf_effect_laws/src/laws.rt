//! Statements that print and that change objects do what is described of them.
ghost use Rattle.inf_effect_laws.specs.Laws.{EffectsAreLaid};
ghost use Rattle.inf_effect_laws.specs.Units.{PartsHaveEffects, UnitsHaveEffects};

/// States that the items which are laid for `print`, `print_ret`, `new_line`, `give`, `move`, `remove`, `style`,
/// `string`, `spaces` and actions in angle brackets do what is described of these statements (`effect`), on a machine
/// that runs them by the Z-Machine Standard 1.1: the outputs of the store grow by what is printed, objects are changed,
/// and control comes behind the statement or out of the routine.
pub fn statements_have_effects()
    ensures { EffectsAreLaid }
{}

/// States that the units of such statements lay this code where they have no error, and that parts of nested statements
/// are what the law of these takes of them where they are such units, and nothing is laid while they are read.
pub fn units_have_effects()
    ensures unit { UnitsHaveEffects }
    ensures part { PartsHaveEffects }
{}
