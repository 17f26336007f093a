//! The texts of supplied routines meet the contracts of these routines.
ghost use Rattle.inf_veneer_laws.specs.{Calling.CallsRunTexts, Covered.RoutinesAreCovered, Events.TextsAreRead, Gathered.TreesAreGathered};
ghost use Rattle.inf_veneer_laws.specs.{Worlds.WorldsHaveObjects};
ghost use Rattle.inf_veneer_laws.specs.Classes.{ClassesAreTold, NumbersAreCompared, RegionsAreTold, WorldsHaveClasses};
ghost use Rattle.inf_veneer_laws.specs.Kept.{MessageIsCovered, MessageIsGathered, MessageIsKept, MessageIsRead, MessageIsSpelled};
ghost use Rattle.inf_veneer_laws.specs.Laws.{ChildrenAreCounted, EntriesAreStepped, EntriesAreWritten, OwnPropertiesAreFound};
ghost use Rattle.inf_veneer_laws.specs.Laws.{PropertiesAreProvided, PropertiesAreRead, PropertiesAreWritten, TextsAreSpelled};
ghost use Rattle.inf_veneer_laws.specs.Sending.{MessagesAreSent, WorldsHaveMessages, WorldsKeepLocals};

/// States that the texts of fifteen supplied routines are the spellings of the trees of which the other laws speak.
pub fn texts_are_spelled()
    ensures { TextsAreSpelled }
{}

/// States that the tokens of these texts are those of their trees, and that the grammar reads them, as one piece of a
/// source, with the events of the trees: each operator behind its parts, and each statement opened and ended.
pub fn texts_are_read()
    ensures { TextsAreRead }
{}

/// States that a unit which takes the tokens of an expression of these texts, by the events of its tree, gathers this
/// tree, for each expression of their statements.
pub fn trees_are_gathered()
    ensures { TreesAreGathered }
{}

/// States that the expressions of these trees are covered by the laws of the code of expressions and of statements,
/// which so speak of the code that is laid for them.
pub fn expressions_are_covered()
    ensures { RoutinesAreCovered }
{}

/// States that calls of the routines that assign or step an entry of an array meet their contracts, in any world: the
/// value is written, and what is returned is the value that was assigned, the new value or the one before.
pub fn entries_meet_their_contracts()
    ensures written { EntriesAreWritten }
    ensures stepped { EntriesAreStepped }
{}

/// States that a call of the routine that counts the children of an object meets its contract, in a world whose objects
/// are those in memory, where an object's children come to an end.
pub fn children_are_counted()
    ensures { ChildrenAreCounted }
{}

/// States that a call of the routine that finds an individual property returns the place that memory has, where the
/// tables come to an end.
pub fn own_properties_are_found()
    ensures { OwnPropertiesAreFound }
{}

/// States that calls of the routines that read a property's value, address or length, write a value, step it, or tell
/// whether an object has one, meet their contracts, in a world whose properties are those in memory, where the tables
/// come to an end and the routines that the texts call by name meet theirs.
pub fn properties_meet_their_contracts()
    ensures written { PropertiesAreWritten }
    ensures provided { PropertiesAreProvided }
    ensures read { PropertiesAreRead }
{}

/// States that a call of the routine that tells whether an object is of a class meets its contract, in a world whose
/// classes are those in memory, where tables come to an end; and so do calls of the two routines behind it, one of
/// which compares numbers without a sign, and the other tells objects, routines and strings apart. The contract of the
/// routine that a text calls is taken of the world.
pub fn classes_are_told()
    ensures compared { NumbersAreCompared }
    ensures kinds { RegionsAreTold }
    ensures told { ClassesAreTold }
{}

/// Makes, of any world, one whose objects and properties are those in memory (`with_objects`), of that one whose
/// classes are, too (`with_classes`), of that one whose calls keep to their own locals (`with_own_locals`), and of
/// that one whose messages look at these properties (`with_messages`). So what the laws take of a world's objects,
/// messages and calls is no contradiction.
pub fn worlds_have_objects()
    ensures objects { WorldsHaveObjects }
    ensures classes { WorldsHaveClasses }
    ensures messages { WorldsHaveMessages }
    ensures locals { WorldsKeepLocals }
{}

/// States that in a world where calls of these routines run the trees of their texts, as deep as three calls in one
/// another or deeper, calls come to what the contracts say, where objects and classes are those in memory, the numbers
/// of the story are below 65,536, and the routines have numbers that differ. So nothing is taken of calls of these
/// routines there. A call of the routine that sends messages, one call deeper, comes to what the message comes to one
/// call less deep, where other calls keep to their own locals.
pub fn calls_run_texts()
    ensures { CallsRunTexts }
{}

/// States that the text of the routine that sends messages is the spelling of its tree, and that the grammar reads the
/// tokens of either side of its conditional directive with the events of the tree.
pub fn messages_are_read()
    ensures spelled { MessageIsSpelled }
    ensures kept { MessageIsKept }
    ensures read { MessageIsRead }
    ensures gathered { MessageIsGathered }
    ensures covered { MessageIsCovered }
{}

/// States that calls of the routine that sends messages come to what the messages come to, and meet its contract in a
/// world whose messages are these: a string is printed, a routine is called with `self` and `sender` set, and another
/// value is the result. The world's properties are those in memory, its calls keep to their own locals, and the
/// contract of the routine behind is taken of it.
pub fn messages_are_sent()
    ensures { MessagesAreSent }
{}
