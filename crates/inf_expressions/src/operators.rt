//! Operands and operators of expressions.

use inf_area::Target;

/// The operand that is a leaf of an expression.
#[derive(Clone, Copy, PartialEq, Eq)]
pub enum Operand {
    /// A number that is known at once.
    Known(u16),
    /// A variable by its number, of which 0 is the stack (Z-Machine Standard 1.1, section 4.2.2).
    Variable(u8),
    /// A constant that is known only when the story is laid out.
    Later(Target),
    /// A function of the system, which is no value and may only be called.
    Function(Function),
    /// An operand that is wrong by itself; it counts as the number 0.
    Unknown,
}

/// The functions of the system (Designer's Manual, fourth edition, sections 1.14 and 3.4).
#[derive(Clone, Copy, Debug, PartialEq, Eq)]
pub enum Function {
    Child,
    Sibling,
    Parent,
    Random,
    Children,
    Indirect,
}

/// An operator of two values that one instruction computes.
#[derive(Clone, Copy)]
pub enum Operation {
    Add,
    Subtract,
    Multiply,
    Divide,
    Remainder,
    BitAnd,
    BitOr,
    /// The byte at an index of an array of bytes.
    Byte,
    /// The word at an index of an array of words.
    Word,
}

/// The part of a property that an operator gives.
#[derive(Clone, Copy)]
pub enum PropertyPart {
    Value,
    Address,
    Length,
}

/// A test of a value against a list of others, which holds where it holds of one of them.
#[derive(Clone, Copy)]
pub enum Test {
    Equal,
    Less,
    Greater,
    AtMost,
    AtLeast,
    Has,
    In,
    OfClass,
    Provides,
}

/// A step by one, up or down.
#[derive(Clone, Copy)]
pub enum Direction {
    Up,
    Down,
}

/// An operator of one value that one instruction computes.
#[derive(Clone, Copy)]
pub enum Single {
    /// The operand with all bits turned.
    Complement,
    Parent,
    Random,
}

/// An object that one instruction finds, with a branch where there is one.
#[derive(Clone, Copy)]
pub enum Relative {
    Child,
    Sibling,
}

/// An operator of one part.
#[derive(Clone, Copy)]
pub enum Unary {
    Negate,
    /// The truth that the operand is 0.
    Not,
    Single(Single),
    /// A step before the value is read.
    Before(Direction),
    /// A step after the value is read.
    Behind(Direction),
    Relative(Relative),
    /// The number of an object's children.
    Children,
    /// A call without arguments.
    Call,
    /// A call of the first expression of a list, with the others as arguments.
    Indirect,
}

/// An operator of two parts.
#[derive(Clone, Copy)]
pub enum Binary {
    Operation(Operation),
    Property(PropertyPart),
    /// A test of a value against a list.
    Test(Test),
    /// A test of a value against a list, which is to fail.
    Fails(Test),
    Assign,
    Comma,
    And,
    Or,
    /// A call with a list of arguments.
    Call,
    /// A list: an expression, and the list of those that follow it.
    Then,
    /// A range, from its least to its greatest value.
    To,
}
