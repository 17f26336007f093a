//! Numbers that are known only when the story is laid out.

/// The areas of a story that are filled piece by piece, in the order that they have in the story.
#[derive(Clone, Copy, Debug, PartialEq, Eq)]
pub enum AreaName {
    LowStrings,
    Abbreviations,
    PropertyDefaults,
    Objects,
    PropertyTables,
    ClassNumbers,
    IndividualTables,
    Globals,
    Arrays,
    Grammar,
    Actions,
    ParsingRoutines,
    Dictionary,
    Code,
    Strings,
}

/// A number for which a source can ask the story as a whole (Designer's Manual, fourth edition, section 39).
#[derive(Clone, Copy, Debug, PartialEq, Eq)]
pub enum SystemConstant {
    /// The address of the words that have the addresses of the verbs' lines.
    GrammarTable,
    /// The address of the packed addresses of the actions' routines.
    ActionsTable,
    /// The address of the packed addresses of parsing routines.
    PreactionsTable,
    DictionaryTable,
    /// The address of the numbers of the classes.
    ClassesTable,
    GlobalsArray,
    /// The address of the code, which is the number of bytes that can be read.
    ReadableMemoryOffset,
    /// The packed address of the code.
    CodeOffset,
    /// The packed address of the strings.
    StringsOffset,
    /// The number of the last object.
    HighestObjectNumber,
}

/// The source of a number that is known only when the story is laid out.
///
/// Its kind decides the unit: a place in code or strings is a packed address, the place of a low string an address in words, and
/// every other place an address in bytes (Z-Machine Standard 1.1, sections 1.2.2 and 1.2.3).
#[derive(Clone, Copy, Debug, PartialEq, Eq)]
pub enum Target {
    /// The value of the name that has this number among the names of the source.
    Name(usize),
    /// A place in an area, in bytes from its front.
    Place(AreaName, usize),
    /// The front of a part of an area: the property table of an object, an individual table, or the lines of a verb, counted from 0.
    Part(AreaName, usize),
    /// The word of the dictionary that has this text of nine Z-characters.
    Word([u8; 6]),
    /// A number for which the story as a whole is asked.
    System(SystemConstant),
}

/// The value of an operand, of an entry of an array or of a property.
#[derive(Clone, Copy, Debug, PartialEq, Eq)]
pub enum Value {
    /// A number that is known at once.
    Known(u16),
    /// A number in two bytes that is known only when the story is laid out.
    Later(Target),
}
