//! Laws of all texts together.
ghost use Rattle.inf_veneer.specs.Naming.{NamesComeBehind, TextsHaveTheirNames};

/// States that each text begins with `[` and the name of its routine.
pub fn texts_have_their_names()
    ensures { TextsHaveTheirNames }
{}

/// States that, of the names of all routines, the text of one has behind its own only names of routines that come behind it.
pub fn names_come_behind()
    ensures { NamesComeBehind }
{}
