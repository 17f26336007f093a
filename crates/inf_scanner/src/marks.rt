//! The marks, byte by byte: each front of a mark is a mark itself.
ghost use Rattle.std.specs.Prelude.{◌≡◌, ℕ, IsTrue, not};
ghost use Rattle.inf_scanner.specs.Marks.{can_grow, first_mark, longer_mark};

use crate::tokens::Mark;

/// Returns the mark that a single byte is, if it is one.
pub(crate) fn first_mark(byte: u8) -> Option<Mark>
    ensures { result ≡ first_mark byte }
{
    let mark = match byte {
        b'-' => Mark::Minus,
        b'+' => Mark::Plus,
        b'*' => Mark::Times,
        b'/' => Mark::Divide,
        b'%' => Mark::Remainder,
        b'&' => Mark::BitAnd,
        b'|' => Mark::BitOr,
        b'~' => Mark::BitNot,
        b'=' => Mark::Assign,
        b'>' => Mark::Greater,
        b'<' => Mark::Less,
        b',' => Mark::Comma,
        b';' => Mark::Semicolon,
        b':' => Mark::Colon,
        b'(' => Mark::OpenParenthesis,
        b')' => Mark::CloseParenthesis,
        b'[' => Mark::OpenBracket,
        b']' => Mark::CloseBracket,
        b'{' => Mark::OpenBrace,
        b'}' => Mark::CloseBrace,
        b'.' => Mark::Dot,
        b'#' => Mark::Hash,
        b'?' => Mark::Question,
        b'@' => Mark::At,
        _ => return None,
    };
    Some(mark)
}

/// Returns the mark that `mark` with one more byte is, if it is one.
pub(crate) fn longer_mark(mark: Mark, byte: u8) -> Option<Mark>
    ensures { result ≡ longer_mark mark byte }
{
    match (mark, byte) {
        (Mark::Minus, b'-') => Some(Mark::Decrement),
        (Mark::Minus, b'>') => Some(Mark::Arrow),
        (Mark::Decrement, b'>') => Some(Mark::LongArrow),
        (Mark::Plus, b'+') => Some(Mark::Increment),
        (Mark::BitAnd, b'&') => Some(Mark::LogicalAnd),
        (Mark::BitOr, b'|') => Some(Mark::LogicalOr),
        (Mark::BitNot, b'~') => Some(Mark::LogicalNot),
        (Mark::BitNot, b'=') => Some(Mark::NotEqual),
        (Mark::Assign, b'=') => Some(Mark::Equal),
        (Mark::Greater, b'=') => Some(Mark::GreaterOrEqual),
        (Mark::Greater, b'>') => Some(Mark::DoubleGreater),
        (Mark::Less, b'=') => Some(Mark::LessOrEqual),
        (Mark::Less, b'<') => Some(Mark::DoubleLess),
        (Mark::Dot, b'&') => Some(Mark::DotAnd),
        (Mark::Dot, b'#') => Some(Mark::DotHash),
        (Mark::Hash, b'#') => Some(Mark::DoubleHash),
        _ => None,
    }
}

/// Returns whether `mark` with one more byte is never a mark.
pub(crate) fn is_whole(mark: Mark) -> bool
    ensures grows { result ≡ not (can_grow mark) }
    ensures none { IsTrue result → (byte : ℕ) → longer_mark mark byte ≡ None }
{
    match mark {
        Mark::Minus
        | Mark::Decrement
        | Mark::Plus
        | Mark::BitAnd
        | Mark::BitOr
        | Mark::BitNot
        | Mark::Assign
        | Mark::Greater
        | Mark::Less
        | Mark::Dot
        | Mark::Hash => false,
        _ => true,
    }
}
