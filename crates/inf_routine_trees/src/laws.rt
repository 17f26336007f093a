//! Laws that statements and routines, read token by token, have the effects of trees.
ghost use Rattle.inf_settings.specs.Bounds.{Limits};
ghost use Rattle.inf_routine_trees.specs.{Bodies.BodiesAreLaidAsTrees, Bodies.StatementsAreLaidAsTrees, Routines.RoutinesAreTrees};

/// Shows that each text of a statement is a tree, of units, and of statements that hold others, and that taking its tokens lays
/// what the tree lays as a whole (Designer's Manual, fourth edition, sections 1.7 and 1.8).
pub fn statements_are_laid_as_trees()
    ensures { (limits : Limits) → StatementsAreLaidAsTrees limits }
{}

/// Shows that the body of a routine is a tree, of statements and of cases among them, and that taking its tokens lays what the tree
/// lays as a whole (Designer's Manual, fourth edition, section 1.3).
pub fn bodies_are_laid_as_trees()
    ensures { (limits : Limits) → BodiesAreLaidAsTrees limits }
{}

/// Shows that tokens that are a text of a routine are one, as a tree, and that taking them has the effect of its header, of its
/// statements and of its end (Designer's Manual, fourth edition, section 1.3).
pub fn routines_are_trees()
    ensures { (limits : Limits) → RoutinesAreTrees limits }
{}
