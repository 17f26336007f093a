//! The rules that reading may start with. Made from docs/grammar.txt.

/// A whole source: any number of pieces.
pub const FILE: u8 = 0;

/// A piece of a source: a directive with its semicolon, or a semicolon.
pub const PIECE: u8 = 1;

/// An expression, with commas.
pub const EXPRESSION: u8 = 59;

/// An expression without commas outside brackets.
pub const ASSIGN: u8 = 61;

/// A condition.
pub const LOGIC: u8 = 66;

/// An expression with commas, and the semicolon that ends it.
pub const ALONE_EXPRESSION: u8 = 251;

/// An expression without commas outside brackets, and the semicolon that ends it.
pub const ALONE_CONSTANT: u8 = 252;

/// A line of assembly with its semicolon.
pub const ALONE_LINE: u8 = 253;

/// The header of a routine with its semicolon.
pub const ALONE_HEADER: u8 = 254;

/// The bracket that ends a routine, with its semicolon.
pub const ALONE_CLOSE: u8 = 255;
