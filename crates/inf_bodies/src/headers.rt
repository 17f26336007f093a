//! The header of an object: its name, its arrows, its text and its parent.
ghost use Rattle.std.specs.Prelude.{◌≡◌};
ghost use Rattle.inf_bodies.specs.Objects.{arrow_at, below, header_in, object_header_of, header_step, header_with, is_nearby, named_at};
ghost use Rattle.inf_bodies.specs.Objects.{word_place};

use inf_scanner::TokenKind;
use inf_text::Text;
use inf_unit::unit::next_place;
use inf_unit::unit_tokens::UnitTokens;

/// The header of an object: the places of its own name, its short name and its parent among the tokens of the unit.
#[derive(Clone, Copy)]
pub struct Header {
    pub own: Option<usize>,
    pub text: Option<usize>,
    pub parent: Option<usize>,
    /// The first arrow, or the word `Nearby`.
    pub arrow: Option<usize>,
    pub arrows: usize,
}

/// Returns the header with one arrow more, at `at`.
fn arrow_at(header: Header, at: usize) -> Header
    ensures { result ≡ arrow_at at header }
{
    Header {
        arrow: Some(header.arrow.unwrap_or(at)),
        arrows: next_place(header.arrows),
        ..header
    }
}

/// Adds the name at `at` to `header`: as the object's own, unless it has one already, or a text; else as that of its parent.
pub fn named_at(header: Header, at: usize) -> Header
    ensures { result ≡ named_at at header }
{
    match (header.own, header.text) {
        (None, None) => Header {
            own: Some(at),
            ..header
        },
        _ => Header {
            parent: Some(at),
            ..header
        },
    }
}

/// Adds a token of `kind` at `at` to `header`.
pub fn header_with(header: Header, at: usize, kind: TokenKind) -> Header
    ensures { result ≡ header_with at kind header }
{
    match kind {
        TokenKind::Mark(_) => arrow_at(header, at),
        TokenKind::Text => Header {
            text: Some(at),
            ..header
        },
        _ => named_at(header, at),
    }
}

/// Adds a token of `kind`, if there is one at `at`, to `header`, where that place is behind `word`.
fn header_step(header: Header, word: usize, at: usize, kind: Option<TokenKind>) -> Header
    ensures { result ≡ header_step word at kind header }
{
    match kind {
        Some(kind) if word < at => header_with(header, at, kind),
        _ => header,
    }
}

/// Returns the header of an object that has these tokens, with its word at `word` among them.
#[tactic(auto, using(crate::proofs::KindSteps::header_goes))]
pub fn object_header_of(tokens: &UnitTokens, word: usize) -> Header
    ensures { result ≡ object_header_of word tokens.now }
{
    let mut header = Header {
        own: None,
        text: None,
        parent: None,
        arrow: None,
        arrows: 0,
    };
    for at in 0..tokens.len() {
        header = header_step(header, word, at, tokens.kind(at));
    }
    header
}

pub(crate) fn word_place(tokens: &UnitTokens) -> usize
    ensures { result ≡ word_place tokens.now }
{
    tokens.name_order().saturating_sub(1) as usize
}

/// Returns whether a word puts an object below the latest one without arrows, as one arrow does.
fn is_nearby(word: &[u8]) -> bool
    ensures { result ≡ is_nearby word.now }
{
    word.eq_ignore_ascii_case(b"nearby")
}

/// Returns the header of an object with one arrow, its word `Nearby` at `word`.
fn below(header: Header, word: usize) -> Header
    ensures { result ≡ below word header }
{
    Header {
        arrow: Some(word),
        arrows: 1,
        ..header
    }
}

/// Returns the header of the object that has these tokens.
pub(crate) fn header_in(tokens: &UnitTokens) -> Header
    ensures { result ≡ header_in tokens.now }
{
    let word = word_place(tokens);
    let header = object_header_of(tokens, word);
    if is_nearby(tokens.bytes_at(word)) {
        below(header, word)
    } else {
        header
    }
}
