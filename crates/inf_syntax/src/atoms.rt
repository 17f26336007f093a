//! Atoms: tokens, as far as the grammar looks at them.
ghost use Rattle.std.specs.Prelude.{◌≡◌, ◌≤◌, ◌<◌, get_or, length, map};
ghost use Rattle.std.specs.Str.{str_eq_ignore_ascii_case};
ghost use Rattle.inf_syntax.specs.{Slots.all_slots, Slots.letter, Slots.slot, Words.keywords, Words.words};
ghost use Rattle.inf_syntax.specs.Atoms.{atom_of, keyword_at, name_at, place_in};

use crate::words::{KEYWORDS, Keyword, SLOTS, WORDS};
use inf_scanner::Mark;

/// A token, as far as the grammar looks at it.
#[derive(Clone, Copy)]
pub enum Token<'a> {
    Mark(Mark),
    /// A name as it is spelled, and whether it was declared as that of a class.
    Name(&'a [u8], bool),
    Number,
    Char,
    /// A word in quotes.
    Word,
    Text,
    /// A token that is none of the language. It fits nowhere.
    Bad,
    /// The end of the source. It fits nowhere.
    End,
}

/// The number of the first atom of a name; the marks come before it.
const FIRST_NAME: u8 = 40;

/// The number of names that the grammar tells apart, each as that of a class and not.
const NAMES: u8 = 73;

/// The number of the first atom behind the names.
const FIRST_LITERAL: u8 = 186;

/// The atom of a name that is no word of the grammar, and not declared as that of a class.
pub const OTHER_NAME: u8 = FIRST_NAME + NAMES - 1;

/// Returns the atom of `token`, a number below 192.
pub fn atom_of(token: Token<'_>) -> u8
    ensures { result ≡ atom_of token.entry }
{
    match token {
        Token::Mark(mark) => mark as u8,
        Token::Name(spelling, false) => FIRST_NAME + place(spelling),
        Token::Name(spelling, true) => FIRST_NAME + NAMES + place(spelling),
        Token::Number => FIRST_LITERAL,
        Token::Char => FIRST_LITERAL + 1,
        Token::Word => FIRST_LITERAL + 2,
        Token::Text => FIRST_LITERAL + 3,
        Token::Bad => FIRST_LITERAL + 4,
        Token::End => FIRST_LITERAL + 5,
    }
}

/// Returns the word of `atom`, if it is that of a word, also where it is that of a class with the word as its name.
#[tactic(auto, unfolding(crate::specs::Atoms::keyword_at))]
pub fn keyword_at(atom: u8) -> Option<Keyword>
    ensures { result ≡ keyword_at atom }
{
    known_keywords().get(name_at(atom) as usize).copied()
}

fn name_at(atom: u8) -> u8
    ensures { result ≡ name_at atom }
{
    if atom < FIRST_NAME {
        NAMES
    } else if atom < FIRST_NAME + NAMES {
        atom - FIRST_NAME
    } else {
        atom - (FIRST_NAME + NAMES)
    }
}

/// Returns the number of words of the grammar before a name, in any case: all of them, if it is none. Only the word
/// with its slot is looked at.
fn place(spelling: &[u8]) -> u8
    ensures place { result ≡ place_in spelling.now words }
    ensures within { result ≤ 72 }
{
    let place = word_with(slot_of(spelling));
    match known_words().get(place as usize) {
        Some(word) if is_same(spelling, word) => place,
        Some(_) | None => 72,
    }
}

/// Returns whether two names are the same in any case. Most that are the same are written in the same case.
fn is_same(one: &[u8], other: &[u8]) -> bool
    ensures { result ≡ str_eq_ignore_ascii_case one.now other.now }
{
    one == other || one.eq_ignore_ascii_case(other)
}

/// Returns the slot of a name, by its size and its first, third and last letter: the same in any case, and another one
/// for each word of the grammar.
fn slot_of(spelling: &[u8]) -> usize
    ensures { result ≡ slot spelling.now }
{
    let size = spelling.len();
    let last = letter_at(spelling, size.saturating_sub(1));
    (letter_at(spelling, 0) + 5 * letter_at(spelling, 2) + 61 * last + 16 * (size % 16)) % 256
}

/// Returns the letter of a name at `place` as a number that is the same in any case: 0 where it has none.
fn letter_at(spelling: &[u8], place: usize) -> usize
    ensures letter { result ≡ letter (get_or spelling.now place 0) }
    ensures within { result < 32 }
{
    match spelling.get(place) {
        Some(byte) => (*byte % 32) as usize,
        None => 0,
    }
}

/// Returns the place of the word that has `slot`: 72 where there is none.
fn word_with(slot: usize) -> u8
    ensures { result ≡ get_or all_slots slot 72 }
{
    match slots().get(slot) {
        Some(place) => *place,
        None => 72,
    }
}

/// Returns the places of the words by their slots.
fn slots() -> &'static [u8]
    ensures { result.now ≡ all_slots }
{
    &SLOTS
}

/// Returns the words of the grammar.
fn known_words() -> &'static [&'static [u8]]
    ensures words { map (λ word. word.now) result.now ≡ words }
    ensures len { length result.now ≡ 72 }
{
    &WORDS
}

/// Returns the same words as keywords, in the same order.
#[tactic(auto, unfolding(crate::specs::Words::keywords))]
fn known_keywords() -> &'static [Keyword]
    ensures { result.now ≡ keywords }
{
    &KEYWORDS
}
