//! Bad tokens, tried at each place of a piece.
use crate::reader::Reader;
use inf_grammar::PIECE;
use std::alloc::AllocError;

/// The tokens that are tried at each place where they do not fit.
const TRIED: &str = "] ) : ; meta";

/// Returns whether `reader` refuses each token that does not fit `other`, which has taken the same
/// tokens.
fn refuses(reader: &mut Reader, other: &Reader) -> Result<bool, AllocError> {
    for spelling in TRIED.split(' ') {
        if !other.fits(spelling) && reader.read(spelling)? {
            return Ok(false);
        }
    }
    Ok(true)
}

/// Returns whether both take a token, each in its own way, and have the same actions behind it.
fn both_take(reader: &mut Reader, other: &mut Reader, spelling: &str) -> Result<bool, AllocError> {
    let is_taken = other.take(spelling)? && reader.read(spelling)?;
    Ok(is_taken && reader.actions.as_slice() == other.actions.as_slice())
}

/// Reads a piece from its beginning, with bad tokens before each of its own. Returns in words whether they changed anything.
pub(crate) fn told(
    reader: &mut Reader,
    other: &mut Reader,
    piece: &str,
) -> Result<&'static str, AllocError> {
    reader.machine.start(PIECE)?;
    other.machine.start(PIECE)?;
    for spelling in piece.split(' ') {
        if !refuses(reader, other)? {
            return Ok("a bad token is taken");
        }
        if !both_take(reader, other, spelling)? {
            return Ok("changed");
        }
    }
    Ok(if reader.machine.is_done() {
        "nothing changed, done"
    } else {
        "nothing changed, more is needed"
    })
}
