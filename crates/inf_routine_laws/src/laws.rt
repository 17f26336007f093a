//! Laws of the labels of routines.
ghost use Rattle.inf_routine_laws.specs.Laws.{RoutinesHaveTheirLabels};
ghost use Rattle.inf_settings.specs.Bounds.{Limits};

/// Shows that a routine which is read whole ends without a fault of its labels, but for labels with names that are missing.
pub fn routines_have_their_labels()
    ensures { (limits : Limits) → RoutinesHaveTheirLabels limits }
{}
