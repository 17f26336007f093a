//! Tokens and their kinds.
ghost use Rattle.std.specs.Prelude.{◌≡◌};

use inf_text::Zscii;

/// A mark of the language.
#[derive(Clone, Copy, Debug, PartialEq, Eq)]
pub enum Mark {
    /// The mark `->`.
    Arrow,
    /// The mark `-->`.
    LongArrow,
    /// The mark `-`.
    Minus,
    /// The mark `--`.
    Decrement,
    /// The mark `+`.
    Plus,
    /// The mark `++`.
    Increment,
    /// The mark `*`.
    Times,
    /// The mark `/`.
    Divide,
    /// The mark `%`.
    Remainder,
    /// The mark `&`.
    BitAnd,
    /// The mark `&&`.
    LogicalAnd,
    /// The mark `|`.
    BitOr,
    /// The mark `||`.
    LogicalOr,
    /// The mark `~`.
    BitNot,
    /// The mark `~~`.
    LogicalNot,
    /// The mark `~=`.
    NotEqual,
    /// The mark `=`.
    Assign,
    /// The mark `==`.
    Equal,
    /// The mark `>`.
    Greater,
    /// The mark `>=`.
    GreaterOrEqual,
    /// The mark `<`.
    Less,
    /// The mark `<=`.
    LessOrEqual,
    /// The mark `<<`.
    DoubleLess,
    /// The mark `>>`.
    DoubleGreater,
    /// The mark `,`.
    Comma,
    /// The mark `;`.
    Semicolon,
    /// The mark `:`.
    Colon,
    /// The mark `(`.
    OpenParenthesis,
    /// The mark `)`.
    CloseParenthesis,
    /// The mark `[`.
    OpenBracket,
    /// The mark `]`.
    CloseBracket,
    /// The mark `{`.
    OpenBrace,
    /// The mark `}`.
    CloseBrace,
    /// The mark `.`.
    Dot,
    /// The mark `.&`.
    DotAnd,
    /// The mark `.#`.
    DotHash,
    /// The mark `#`.
    Hash,
    /// The mark `##`.
    DoubleHash,
    /// The mark `?`.
    Question,
    /// The mark `@`.
    At,
}

/// The fault of a bad token.
#[derive(Clone, Copy, Debug, PartialEq, Eq)]
pub enum BadToken {
    /// A byte that begins no token.
    Unfit,
    /// A text without its closing quote, up to the end of the file; or a quote without it, up to the end of its line.
    Unclosed,
    /// A quote with nothing between its quotes.
    EmptyQuote,
    /// A run that begins with a digit or has a `$`, but is no number of at most 32 bytes up to 65535.
    Number,
    /// A name of more than 32 bytes.
    LongName,
    /// A text or quote in which `@` begins no escape.
    UnknownEscape,
    /// A text or quote with a character that has no ZSCII code.
    NoZscii,
    /// A text or quote in which a code, or the number of a string variable, is out of its range.
    BadCode,
    /// A text or quote with more bytes between its quotes than it may have.
    TooLong,
}

/// A word in single quotes, as the dictionary has it.
#[derive(Clone, Copy, Debug, PartialEq, Eq)]
pub struct DictionaryWord {
    /// The nine Z-characters of the word (Z-Machine Standard 1.1, section 13.3).
    pub text: [u8; 6],
    /// Tells whether `//p` marks the word as a plural.
    pub is_plural: bool,
}

/// The kind of a token, with its value.
#[derive(Clone, Copy, Debug, PartialEq, Eq)]
pub enum TokenKind {
    Name,
    Number(u16),
    /// A text between double quotes that can be read.
    Text,
    /// A character in single quotes.
    Char(Zscii),
    Word(DictionaryWord),
    Mark(Mark),
    Bad(BadToken),
    /// The end of the file.
    End,
}

/// The place where a token begins: the number of its file, and its line there, counted from 1.
#[derive(Clone, Copy)]
pub struct Place {
    pub file: u16,
    pub line: u32,
}

/// A token with its place.
#[derive(Clone, Copy)]
pub struct Token {
    pub kind: TokenKind,
    pub place: Place,
}
