//! The tokens of pieces, and the machine's answer to a piece.
use crate::reader::Reader;
use inf_grammar::{Mark, PIECE, Token};
use std::alloc::{AllocError, Global};

/// Returns the machine's answer to a piece with spaces between its tokens: that it ended with its last token, after some actions, that more
/// tokens have to come, or the number of tokens before the one that does not fit.
pub(crate) fn told(alloc: Global, reader: &mut Reader, piece: &str) -> Result<String, AllocError> {
    reader.machine.start(PIECE)?;
    if !reader.read_all(piece)? {
        return format!(in alloc; "bad behind {}", reader.taken);
    }
    if reader.machine.is_done() {
        return format!(in alloc; "whole, with {} actions", reader.actions.len());
    }
    String::from_str(alloc, "more is needed")
}

/// Returns the token with this spelling. A `^` comes before the name of a class, `!` is the end, and any other spelling
/// is that of a bad token.
pub(crate) fn token(spelling: &[u8]) -> Token<'_> {
    if let Some(mark) = mark(spelling) {
        return Token::Mark(mark);
    }
    match spelling {
        b"!" => Token::End,
        [b'"', ..] => Token::Text,
        [b'\'', _, b'\''] => Token::Char,
        [b'\'', ..] => Token::Word,
        [b'0'..=b'9', ..] => Token::Number,
        [b'a'..=b'z' | b'A'..=b'Z' | b'_', ..] => Token::Name(spelling, false),
        [b'^', name @ ..] => Token::Name(name, true),
        _ => Token::Bad,
    }
}

/// Returns the mark with this spelling, if there is one.
fn mark(spelling: &[u8]) -> Option<Mark> {
    for (mark, kind) in &MARKS {
        if *mark == spelling {
            return Some(*kind);
        }
    }
    None
}

/// The marks by their spelling.
static MARKS: [(&[u8], Mark); 40] = [
    (b"->", Mark::Arrow),
    (b"-->", Mark::LongArrow),
    (b"-", Mark::Minus),
    (b"--", Mark::Decrement),
    (b"+", Mark::Plus),
    (b"++", Mark::Increment),
    (b"*", Mark::Times),
    (b"/", Mark::Divide),
    (b"%", Mark::Remainder),
    (b"&", Mark::BitAnd),
    (b"&&", Mark::LogicalAnd),
    (b"|", Mark::BitOr),
    (b"||", Mark::LogicalOr),
    (b"~", Mark::BitNot),
    (b"~~", Mark::LogicalNot),
    (b"~=", Mark::NotEqual),
    (b"=", Mark::Assign),
    (b"==", Mark::Equal),
    (b">", Mark::Greater),
    (b">=", Mark::GreaterOrEqual),
    (b"<", Mark::Less),
    (b"<=", Mark::LessOrEqual),
    (b"<<", Mark::DoubleLess),
    (b">>", Mark::DoubleGreater),
    (b",", Mark::Comma),
    (b";", Mark::Semicolon),
    (b":", Mark::Colon),
    (b"(", Mark::OpenParenthesis),
    (b")", Mark::CloseParenthesis),
    (b"[", Mark::OpenBracket),
    (b"]", Mark::CloseBracket),
    (b"{", Mark::OpenBrace),
    (b"}", Mark::CloseBrace),
    (b".", Mark::Dot),
    (b".&", Mark::DotAnd),
    (b".#", Mark::DotHash),
    (b"#", Mark::Hash),
    (b"##", Mark::DoubleHash),
    (b"?", Mark::Question),
    (b"@", Mark::At),
];
