//! A token, as units see it.
ghost use Rattle.std.specs.Prelude.{◌≡◌, true};
ghost use Rattle.inf_unit.specs.Atoms.{atom_of_kind, is_short};

use inf_report::messages::Told;
use inf_scanner::{Place, TokenKind};
use inf_syntax::{Keyword, Token as Seen, atom_of, keyword_at};

/// A token of a source: its kind, its bytes (of a text or quote those between its quotes), the place of its first byte, and its
/// atom, by which the grammar knows it. A name has at most 32 bytes.
#[derive(Clone, Copy)]
pub struct SourceToken<'a> {
    pub kind: TokenKind,
    pub bytes: &'a [u8],
    pub place: Place,
    pub(crate) is_class: bool,
    pub(crate) atom: u8,
    ghost is_seen: { atom ≡ atom_of_kind is_class kind bytes.now },
    ghost is_short: { is_short kind bytes.now ≡ true },
}

/// Returns the atom of a token of `kind` with `bytes`, which is the name of a class if `is_class`. A token that is faulty by itself
/// is a bad one, which fits nowhere.
#[inline]
fn atom_at(kind: TokenKind, bytes: &[u8], is_class: bool) -> u8
    ensures { result ≡ atom_of_kind is_class kind bytes.now }
{
    atom_of(match kind {
        TokenKind::Mark(mark) => Seen::Mark(mark),
        TokenKind::Name => Seen::Name(bytes, is_class),
        TokenKind::Number(_) => Seen::Number,
        TokenKind::Char(_) => Seen::Char,
        TokenKind::Word(_) => Seen::Word,
        TokenKind::Text => Seen::Text,
        TokenKind::Bad(_) => Seen::Bad,
        TokenKind::End => Seen::End,
    })
}

impl<'a> SourceToken<'a> {
    ghost use Rattle.inf_report.specs.Meant.{named};
    ghost use Rattle.inf_unit.specs.{Spelled.spelled, Tokens.atom_of, Tokens.keyword, Tokens.told};

    /// Makes a token of `kind` with `bytes` at `place`, which is read as the name of a class if `is_class`. A name has at most 32 bytes.
    #[inline(always)]
    pub fn new(kind: TokenKind, bytes: &'a [u8], place: Place, is_class: bool) -> SourceToken<'a>
        requires { is_short kind bytes.now ≡ true }
        ensures { spelled result ≡ record { kind = kind; bytes = bytes.now; place = place; is_class = is_class } }
    {
        let seen = kind;
        let atom = atom_at(seen, bytes, is_class);
        SourceToken {
            kind,
            bytes,
            place,
            is_class,
            atom,
        }
    }

    /// Returns this token at `place`.
    pub fn at(&self, place: Place) -> SourceToken<'a>
        ensures { let token = spelled self.now in spelled result ≡ record token { place = place } }
    {
        SourceToken {
            kind: self.kind,
            bytes: self.bytes,
            place,
            is_class: self.is_class,
            atom: self.atom,
        }
    }

    /// Returns the number by which the grammar knows this token.
    pub fn atom(&self) -> u8
        ensures { result ≡ atom_of (spelled self.now) }
    {
        self.atom
    }

    /// Returns whether this token is read as the name of a class.
    pub fn is_class(&self) -> bool
        ensures { let token = spelled self.now in result ≡ token.is_class }
    {
        self.is_class
    }

    /// Returns the word of the grammar that this token is, if it is one.
    pub fn keyword(&self) -> Option<Keyword>
        ensures { result ≡ keyword (spelled self.now) }
    {
        match self.kind {
            TokenKind::Name => keyword_at(self.atom),
            _ => None,
        }
    }

    /// Returns the form in which messages name this token.
    pub fn told(&self) -> Told<'a>
        ensures { named result ≡ told (spelled self.now) }
    {
        match self.kind {
            TokenKind::Text => Told::Text,
            TokenKind::Char(_) | TokenKind::Word(_) => Told::Quote(self.bytes),
            TokenKind::End => Told::End,
            TokenKind::Name | TokenKind::Number(_) | TokenKind::Mark(_) | TokenKind::Bad(_) => {
                Told::Bytes(self.bytes)
            }
        }
    }
}
