//! Laws that follow from the definitions together.
ghost use Rattle.inf_story.specs.Plain.{LookupIsPlain, TablesArePlain};

/// States that a source that filled no table has the first four objects, with their names, and an empty dictionary; all
/// else is zeros or nothing.
pub fn tables_are_plain()
    ensures areas { TablesArePlain }
    ensures looked_up { LookupIsPlain }
{}
