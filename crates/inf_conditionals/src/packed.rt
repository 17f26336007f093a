//! Tokens that are kept in little memory, to be read one behind the other.
ghost use Rattle.std.specs.Prelude.{◌≡◌, ◌<◌, [], ◌∷◌, ◌++◌, IfNone, IfSome, OnErr, OnOk, length, true, vec_capacity, vec_len};
ghost use Rattle.inf_conditionals.specs.Packed.{beside_of, others_left, parts_of, short_kind};
ghost use Rattle.inf_unit.specs.{Atoms.is_short, Spelled.spelled};

use inf_scanner::{BadToken, Mark, Place, TokenKind};
use inf_text::Zscii;
use inf_unit::tokens::SourceToken;
use std::alloc::{AllocError, Global};
use std::marker::Model;

/// The most bytes of a token that are counted with it.
const MOST_BYTES: usize = 255;

/// The kind of a token in four bytes.
#[derive(Clone, Copy)]
pub enum ShortKind {
    Name,
    Number(u16),
    Text,
    Char(Zscii),
    Mark(Mark),
    Bad(BadToken),
    End,
    /// The kind and the number of bytes stand beside the token, since it is a word in quotes or has many bytes.
    Beside,
}

/// A token in 12 bytes: its place, its kind, whether it is read as the name of a class, and the number of its bytes.
#[derive(Drop)]
pub struct Packed {
    pub line: u32,
    pub kind: ShortKind,
    pub file: u16,
    pub is_class: bool,
    pub count: u8,
}

impl Packed {
    ghost use Rattle.inf_conditionals.specs.Packed.{packed_as, token_of};

    /// Makes a token of `kind` with `count` bytes at `place`, which is read as the name of a class if `is_class`.
    fn new(kind: &ShortKind, place: &Place, is_class: bool, count: usize) -> Packed
        ensures { result ≡ packed_as kind.now place.now is_class count }
    {
        Packed {
            line: place.line,
            kind: *kind,
            file: place.file,
            is_class,
            count: (count % 256) as u8,
        }
    }

    /// Returns this token, which has `kind` and `bytes`.
    fn unpack<'t>(&self, kind: TokenKind, bytes: &'t [u8]) -> SourceToken<'t>
        requires { is_short kind bytes.now ≡ true }
        ensures { spelled result ≡ token_of kind self.now bytes.now }
    {
        let place = Place {
            file: self.file,
            line: self.line,
        };
        SourceToken::new(kind, bytes, place, self.is_class)
    }
}

/// The kind and the number of bytes of a token that is a word in quotes or has many bytes.
#[derive(Drop)]
pub struct Beside {
    pub kind: TokenKind,
    pub count: usize,
}

/// Tokens, each in 12 bytes and those that it has in the source.
#[derive(Drop)]
pub(crate) struct PackedTokens {
    tokens: Vec<Packed>,
    beside: Vec<Beside>,
    bytes: Vec<u8>,
}

impl Model for PackedTokens {
    ghost use Rattle.std.specs.Prelude.{List};
    ghost use Rattle.inf_conditionals.specs.Packed.{ArePacked, unpacked};
    ghost use Rattle.inf_unit.specs.Tokens.{SourceToken};

    ghost Value = { List SourceToken };

    ghost view = { λ t. unpacked t.tokens.items t.beside.items t.bytes.items };

    ghost invariant = { λ t. ArePacked t.tokens.items t.beside.items t.bytes.items };
}

/// The tokens of a list that are still to be read.
#[derive(Drop)]
pub(crate) struct TokensLeft<'t> {
    tokens: &'t [Packed],
    beside: &'t [Beside],
    bytes: &'t [u8],
}

impl<'t> Model for TokensLeft<'t> {
    ghost use Rattle.std.specs.Prelude.{List};
    ghost use Rattle.inf_conditionals.specs.Packed.{ArePacked, unpacked};
    ghost use Rattle.inf_unit.specs.Tokens.{SourceToken};

    ghost Value = { List SourceToken };

    ghost view = { λ l. unpacked l.tokens.now l.beside.now l.bytes.now };

    ghost invariant = { λ l. ArePacked l.tokens.now l.beside.now l.bytes.now };
}

/// Returns the kind that a token of `kind` with `count` bytes has in four bytes.
fn short_kind(kind: &TokenKind, count: usize) -> ShortKind
    ensures { result ≡ short_kind kind.now count }
{
    if count > MOST_BYTES {
        return ShortKind::Beside;
    }
    match *kind {
        TokenKind::Name => ShortKind::Name,
        TokenKind::Number(number) => ShortKind::Number(number),
        TokenKind::Text => ShortKind::Text,
        TokenKind::Char(character) => ShortKind::Char(character),
        TokenKind::Word(_) => ShortKind::Beside,
        TokenKind::Mark(mark) => ShortKind::Mark(mark),
        TokenKind::Bad(bad) => ShortKind::Bad(bad),
        TokenKind::End => ShortKind::End,
    }
}

/// Adds the kind and the number of bytes of a token to `beside`, where they do not stand in the token, as `short` says.
fn add_beside(beside: &mut Vec<Beside>, short: &ShortKind, kind: &TokenKind, count: usize)
    requires { vec_len beside.old < vec_capacity beside.old }
    ensures { beside.new.items ≡ beside.old.items ++ beside_of short.now kind.now count }
{
    match *short {
        ShortKind::Beside => beside.push_reserved(Beside { kind: *kind, count }),
        _ => {}
    }
}

/// Returns the kind and the number of bytes of `token`, behind which `beside` stand.
fn parts_of(token: &Packed, beside: &[Beside]) -> (TokenKind, usize)
    ensures { result ≡ parts_of token.now.kind token.now.count beside.now }
{
    let count = token.count as usize;
    match token.kind {
        ShortKind::Name => (TokenKind::Name, count),
        ShortKind::Number(number) => (TokenKind::Number(number), count),
        ShortKind::Text => (TokenKind::Text, count),
        ShortKind::Char(character) => (TokenKind::Char(character), count),
        ShortKind::Mark(mark) => (TokenKind::Mark(mark), count),
        ShortKind::Bad(bad) => (TokenKind::Bad(bad), count),
        ShortKind::End => (TokenKind::End, count),
        ShortKind::Beside => match beside.first() {
            Some(other) => (other.kind, other.count),
            None => (TokenKind::End, 0),
        },
    }
}

/// Returns those of `beside` that stand behind others than a token of `kind`.
fn others_left(kind: ShortKind, beside: &[Beside]) -> &[Beside]
    ensures { result.now ≡ others_left kind beside.now }
{
    match (kind, beside.split_first()) {
        (ShortKind::Beside, Some((_, others))) => others,
        _ => beside,
    }
}

impl PackedTokens {
    /// Makes an empty list of tokens. Memory is taken only when the first one comes.
    pub(crate) fn new(alloc: Global) -> PackedTokens
        ensures { result ≡ [] }
    {
        PackedTokens {
            tokens: Vec::new(alloc),
            beside: Vec::new(alloc),
            bytes: Vec::new(alloc),
        }
    }

    /// Forgets all tokens.
    pub(crate) fn clear(&mut self)
        ensures { self.new ≡ [] }
    {
        self.tokens.clear();
        self.beside.clear();
        self.bytes.clear();
    }

    /// Returns the number of tokens.
    pub(crate) fn len(&self) -> usize
        ensures { result ≡ length self.now }
    {
        self.tokens.len()
    }

    /// Adds `token` behind the others, which stay as they were where memory runs out.
    pub(crate) fn add(&mut self, token: &SourceToken<'_>) -> Result<(), AllocError>
        ensures added { OnOk result (self.new ≡ self.old ++ spelled token.now ∷ []) }
        ensures err { OnErr result (self.new ≡ self.old) }
    {
        let count = token.bytes.len();
        let kind = short_kind(&token.kind, count);
        self.tokens.reserve(1)?;
        self.beside.reserve(1)?;
        self.bytes.extend_from_slice(token.bytes)?;
        add_beside(&mut self.beside, &kind, &token.kind, count);
        self.tokens
            .push_reserved(Packed::new(&kind, &token.place, token.is_class(), count));
        Ok(())
    }

    /// Returns the tokens, from the first one on.
    pub(crate) fn left(&self) -> TokensLeft<'_>
        ensures { result ≡ self.now }
    {
        TokensLeft {
            tokens: self.tokens.as_slice(),
            beside: self.beside.as_slice(),
            bytes: self.bytes.as_slice(),
        }
    }
}

impl<'t> TokensLeft<'t> {
    /// Takes the first of these tokens off, if there is one, and returns it.
    pub(crate) fn next(&mut self) -> Option<SourceToken<'t>>
        ensures some { IfSome result (λ token. self.old ≡ spelled token ∷ self.new) }
        ensures none { IfNone result (self.old ≡ []) }
    {
        let Some((token, others)) = self.tokens.split_first() else {
            return None;
        };
        let (kind, count) = parts_of(token, self.beside);
        let (own, bytes) = self.bytes.split_at(count);
        self.tokens = others;
        self.beside = others_left(token.kind, self.beside);
        self.bytes = bytes;
        Some(token.unpack(kind, own))
    }
}
