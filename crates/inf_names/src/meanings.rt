//! The meanings of names.

/// A function that the language has from the start.
#[derive(Clone, Copy, Debug, PartialEq, Eq)]
pub enum Function {
    Child,
    Parent,
    Sibling,
    Children,
    Random,
    Indirect,
}

/// The meaning of a name. A part of the story that is laid out at the end is named by its place among those of its kind, counted from 0.
#[derive(Clone, Copy, Debug)]
pub enum Meaning {
    /// A constant whose number is known.
    Number(u16),
    /// A constant that is a string.
    Text(usize),
    /// A constant that is a dictionary word, by its text of nine Z-characters.
    Word([u8; 6]),
    /// A string for the low part of the memory.
    LowString(usize),
    /// A variable, by its number (Z-Machine Standard 1.1, section 4.2.2).
    Variable(u8),
    /// An attribute, by its number.
    Attribute(u8),
    /// A property that every object can have, by its number; the values of an additive one are joined with those of classes.
    Property { number: u8, is_additive: bool },
    /// A property of single objects, by its number.
    IndividualProperty(u16),
    /// An object, by its number.
    Object(u16),
    /// A class, by the number of its object.
    Class(u16),
    Array(usize),
    Routine(usize),
    /// A constant that is the packed address of a routine, by its place.
    PackedAddress(usize),
    /// An action that no grammar line names, by its number.
    FakeAction(u16),
    Function(Function),
}
