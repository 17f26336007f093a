//! Tokens that are kept.
ghost use Rattle.std.specs.Prelude.{◌≡◌};

use inf_scanner::{Place, TokenKind};

/// The number of numbers of 32 bits.
const HALVES: usize = 4294967296;

/// A token that is kept in a list. The list has the bytes of all its tokens: those of this one begin where those of the token before it
/// end.
///
/// A unit may have many tokens, so this one takes 24 bytes: no part of it is aligned to more than four.
#[derive(Drop)]
pub struct Kept {
    /// The halves of the place behind its bytes.
    lower: u32,
    upper: u32,
    line: u32,
    file: u16,
    pub(crate) kind: TokenKind,
    pub(crate) is_class: bool,
    pub(crate) atom: u8,
}

impl Kept {
    ghost use Rattle.inf_unit.specs.Kept.{end_of, kept_of};

    /// Returns the token with these parts as it is kept where its bytes end before `end`.
    #[inline(always)]
    pub(crate) fn new(kind: &TokenKind, place: &Place, is_class: bool, atom: u8, end: usize) -> Kept
        ensures { result ≡ kept_of kind.now place.now is_class atom end }
    {
        Kept {
            lower: (end % HALVES) as u32,
            upper: (end / HALVES) as u32,
            line: place.line,
            file: place.file,
            kind: *kind,
            is_class,
            atom,
        }
    }

    /// Returns the place behind the bytes of this token.
    #[inline(always)]
    #[tactic(auto, unfolding(crate::specs::Kept::end_of))]
    pub(crate) fn end(&self) -> usize
        ensures { result ≡ end_of self.now }
    {
        self.upper as usize * HALVES + self.lower as usize
    }

    /// Returns the place of this token in the source.
    #[inline(always)]
    pub(crate) fn place(&self) -> Place
        ensures { result ≡ record { file = (self.now).file; line = (self.now).line } }
    {
        Place {
            file: self.file,
            line: self.line,
        }
    }
}
