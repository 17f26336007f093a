//! Laws that tokens, read one by one, have the effects of trees.
ghost use Rattle.inf_settings.specs.Bounds.{Limits};
ghost use Rattle.inf_trees.specs.{Directives.DirectivesAreTrees, Statements.BracketedUnitsAreTrees, Statements.StatementsAreTrees};

/// Shows that tokens that are a text of the grammar, and begin as a directive that is one unit, are such a directive as a tree,
/// and that taking them has the effect of the directive as a whole (Designer's Manual, fourth edition, section 1.4).
pub fn directives_are_trees()
    ensures { (limits : Limits) → DirectivesAreTrees limits }
{}

/// Shows that tokens that are a text of a statement, or of an item at the top of a routine, are one that holds others or may be
/// a case, or a statement that is one unit, as a tree, and that taking them then has the effect of the statement as a whole,
/// where there is room for what it prints, gives or takes; and that there is, where it is none of those that do so one by one
/// (Designer's Manual, fourth edition, section 1.7).
pub fn statements_are_trees()
    ensures { (limits : Limits) → StatementsAreTrees limits }
{}

/// Shows that the tokens of a unit in the brackets of a statement that holds others are an expression, as a tree, and that
/// taking them reads the unit of this expression (Designer's Manual, fourth edition, section 1.8).
pub fn bracketed_units_are_trees()
    ensures { (limits : Limits) → BracketedUnitsAreTrees limits }
{}
