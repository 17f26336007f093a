//! The words that the grammar knows, and where to look for one. Made from docs/grammar.txt.

/// A word that the grammar knows.
#[rattlefmt::skip]
#[derive(Clone, Copy)]
pub enum Keyword {
    Abbreviate, Additive, Alias, Array, Attribute, Break, Class, Constant, Continue, Default, Do, Else, End, Endif, Error, Extend,
    FakeAction, Fatalerror, First, For, Give, Global, Has, Hasnt, If, Ifdef, Iffalse, Ifndef, Ifnot, Iftrue, In, Include, Jump, Last,
    Lowstring, Message, Meta, Move, Nearby, NewLine, Notin, Object, Objectloop, Ofclass, Or, Print, PrintRet, Property, Provides, Quit,
    Release, Remove, Replace, Return, Reverse, Rfalse, Rtrue, Serial, Spaces, String, Stub, Style, Switch, Switches, SystemFile, Table, To,
    Until, Verb, Warning, While, With,
}

/// The words, in the order of the alphabet.
#[rattlefmt::skip]
pub(crate) static WORDS: [&[u8]; 72] = [
    b"abbreviate", b"additive", b"alias", b"array", b"attribute", b"break", b"class", b"constant", b"continue", b"default", b"do", b"else",
    b"end", b"endif", b"error", b"extend", b"fake_action", b"fatalerror", b"first", b"for", b"give", b"global", b"has", b"hasnt", b"if",
    b"ifdef", b"iffalse", b"ifndef", b"ifnot", b"iftrue", b"in", b"include", b"jump", b"last", b"lowstring", b"message", b"meta", b"move",
    b"nearby", b"new_line", b"notin", b"object", b"objectloop", b"ofclass", b"or", b"print", b"print_ret", b"property", b"provides",
    b"quit", b"release", b"remove", b"replace", b"return", b"reverse", b"rfalse", b"rtrue", b"serial", b"spaces", b"string", b"stub",
    b"style", b"switch", b"switches", b"system_file", b"table", b"to", b"until", b"verb", b"warning", b"while", b"with"
];

/// The words as keywords, in the same order.
#[rattlefmt::skip]
pub(crate) static KEYWORDS: [Keyword; 72] = [
    Keyword::Abbreviate, Keyword::Additive, Keyword::Alias, Keyword::Array, Keyword::Attribute, Keyword::Break, Keyword::Class,
    Keyword::Constant, Keyword::Continue, Keyword::Default, Keyword::Do, Keyword::Else, Keyword::End, Keyword::Endif, Keyword::Error,
    Keyword::Extend, Keyword::FakeAction, Keyword::Fatalerror, Keyword::First, Keyword::For, Keyword::Give, Keyword::Global, Keyword::Has,
    Keyword::Hasnt, Keyword::If, Keyword::Ifdef, Keyword::Iffalse, Keyword::Ifndef, Keyword::Ifnot, Keyword::Iftrue, Keyword::In,
    Keyword::Include, Keyword::Jump, Keyword::Last, Keyword::Lowstring, Keyword::Message, Keyword::Meta, Keyword::Move, Keyword::Nearby,
    Keyword::NewLine, Keyword::Notin, Keyword::Object, Keyword::Objectloop, Keyword::Ofclass, Keyword::Or, Keyword::Print,
    Keyword::PrintRet, Keyword::Property, Keyword::Provides, Keyword::Quit, Keyword::Release, Keyword::Remove, Keyword::Replace,
    Keyword::Return, Keyword::Reverse, Keyword::Rfalse, Keyword::Rtrue, Keyword::Serial, Keyword::Spaces, Keyword::String, Keyword::Stub,
    Keyword::Style, Keyword::Switch, Keyword::Switches, Keyword::SystemFile, Keyword::Table, Keyword::To, Keyword::Until, Keyword::Verb,
    Keyword::Warning, Keyword::While, Keyword::With
];

/// The place of the word with each slot: 72 where there is none.
#[rattlefmt::skip]
pub(crate) static SLOTS: [u8; 256] = [
    72, 72, 72, 52, 72, 2, 72, 72, 72, 72, 5, 72, 72, 35, 72, 72, 72, 61, 72, 72, 72, 43, 72, 72, 40, 72, 72, 72, 72, 27, 22, 72, 72, 54,
    72, 72, 72, 72, 4, 72, 72, 72, 68, 72, 53, 72, 72, 72, 72, 72, 39, 72, 72, 72, 60, 72, 72, 72, 72, 72, 72, 12, 72, 72, 72, 72, 49, 16,
    72, 72, 72, 63, 72, 72, 72, 72, 72, 72, 72, 72, 72, 45, 72, 64, 17, 72, 9, 72, 72, 72, 72, 32, 72, 72, 72, 72, 72, 72, 48, 28, 72, 41,
    72, 72, 38, 72, 72, 72, 72, 72, 72, 33, 72, 72, 72, 72, 18, 72, 72, 72, 59, 44, 72, 23, 72, 72, 72, 30, 72, 72, 72, 72, 72, 72, 72, 72,
    62, 72, 72, 72, 69, 7, 21, 72, 72, 46, 72, 72, 72, 72, 72, 24, 72, 72, 72, 72, 72, 72, 72, 65, 3, 72, 72, 71, 72, 67, 72, 72, 55, 57,
    72, 72, 72, 72, 72, 72, 72, 42, 72, 72, 72, 72, 72, 10, 72, 31, 34, 72, 72, 15, 72, 72, 72, 72, 72, 72, 72, 70, 1, 66, 26, 72, 72, 72,
    72, 72, 72, 72, 47, 72, 72, 72, 72, 11, 72, 13, 72, 72, 19, 25, 0, 72, 72, 6, 72, 72, 72, 72, 51, 72, 20, 72, 72, 72, 72, 72, 37, 56,
    36, 50, 72, 72, 72, 72, 72, 72, 72, 72, 72, 14, 8, 72, 72, 72, 29, 58
];
