//! Headers of objects and classes, the entries of their bodies, and the units of verbs are one operation of the tables each.
ghost use Rattle.inf_entry_laws.specs.{Laws.EntriesChangeWorlds, Laws.HeadersChangeWorlds, Laws.ValuesChangeWorlds};
ghost use Rattle.inf_entry_laws.specs.Chains.{DeclarationsMakeThings};
ghost use Rattle.inf_entry_laws.specs.{VerbChains.UnitsMakeVerbs, Verbs.VerbsChangeTables};

/// States that a header with which nothing is wrong, each entry of a body, and each value of a property change the world by
/// the operation that describes them, and by nothing else.
pub fn entries_are_operations()
    ensures headers { HeadersChangeWorlds }
    ensures entries { EntriesChangeWorlds }
    ensures values { ValuesChangeWorlds }
{}

/// States that a header of `Verb` or `Extend` with which nothing is wrong, and each line behind it, change the verbs by the
/// operation that describes them, and that the words of a header are used as those of its verb.
pub fn verb_units_are_operations()
    ensures { VerbsChangeTables }
{}

/// States that behind the units of any list of objects and classes, one behind the other and with nothing wrong, the
/// objects of the tables are the things that the description makes of these declarations.
pub fn declarations_make_things()
    ensures { DeclarationsMakeThings }
{}

/// States that behind the units of any list of `Verb` and `Extend`, one behind the other and with nothing wrong, each verb
/// has the lines of the description, and each word its verb.
pub fn units_make_verbs()
    ensures { UnitsMakeVerbs }
{}
