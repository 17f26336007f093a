//! Tests of the kinds of tokens.
ghost use Rattle.std.specs.Prelude.{◌≡◌};
ghost use Rattle.inf_unit.specs.Tokens.{is_end, is_mark, number_of};

use inf_scanner::{Mark, TokenKind};

/// Returns whether a token of `kind` is `mark`.
pub fn is_mark(kind: TokenKind, mark: Mark) -> bool
    ensures { result ≡ is_mark mark kind }
{
    match kind {
        TokenKind::Mark(found) => found as u8 == mark as u8,
        _ => false,
    }
}

/// Returns whether a token of `kind` is the end of the source.
pub fn is_end(kind: TokenKind) -> bool
    ensures { result ≡ is_end kind }
{
    matches!(kind, TokenKind::End)
}

/// Returns the number of a token of `kind`, if it is a number.
pub fn number_of(kind: TokenKind) -> Option<u16>
    ensures { result ≡ number_of kind }
{
    match kind {
        TokenKind::Number(number) => Some(number),
        _ => None,
    }
}
