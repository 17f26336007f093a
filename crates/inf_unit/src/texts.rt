//! The characters of texts.
ghost use Rattle.std.specs.Prelude.{◌≡◌, IfOk};
ghost use Rattle.inf_unit.specs.{Spelled.spelled, Texts.read_of};

use crate::tokens::SourceToken;
use inf_scanner::TokenKind;
use inf_text::{CharSet, Mode, Text, TextFault, read_text};
use std::alloc::{AllocError, Global};

/// Returns the characters of `token`, of a source in `set`, if it is a text without a fault.
pub fn text_of(
    alloc: Global,
    set: CharSet,
    token: &SourceToken<'_>,
) -> Result<Option<Text>, AllocError>
    ensures { IfOk result (λ o. o ≡ read_of set (spelled token.now)) }
{
    if !matches!(token.kind, TokenKind::Text) {
        return Ok(None);
    }
    match read_text(alloc, token.bytes, set, Mode::Text) {
        Ok(text) => Ok(Some(text)),
        Err(TextFault::Memory) => Err(AllocError),
        Err(TextFault::UnknownEscape | TextFault::NoZscii | TextFault::BadCode) => Ok(None),
    }
}
