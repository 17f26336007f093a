//! Uses of a word, and the facts that they say of it together.
ghost use Rattle.std.specs.Prelude.{◌≡◌};
ghost use Rattle.inf_dictionary.specs.Words.{flags_of, is_of_other_verb, joined, verb_byte, verb_in};

/// The use of a word in a source.
#[derive(Clone, Copy)]
pub enum WordUse {
    /// A word of the verb that has this number.
    Verb(u8),
    /// A word of the verb that has this number, which is for a command about the play itself.
    MetaVerb(u8),
    Preposition,
    /// A noun, or whatever else a source has words for.
    Other,
}

/// The facts that all uses of a word say of it.
#[derive(Clone, Copy, PartialEq, Eq)]
pub struct Word {
    /// 1 for a verb, 2 for one that is meta, 4 for a plural, 8 for a preposition, 128 for any other use (Inform Technical Manual,
    /// section 8.5).
    pub flags: u8,
    /// The verb that the word belongs to.
    pub verb: Option<u8>,
}

/// Returns the flags of a use.
pub(crate) fn flags_of(word_use: WordUse, is_plural: bool) -> u8
    ensures { result ≡ flags_of word_use is_plural }
{
    let plural = if is_plural { 4 } else { 0 };
    match word_use {
        WordUse::Verb(_) => 1 | plural,
        WordUse::MetaVerb(_) => 3 | plural,
        WordUse::Preposition => 8 | plural,
        WordUse::Other => 128 | plural,
    }
}

/// Returns the verb whose word a use makes a word.
pub(crate) fn verb_in(word_use: WordUse) -> Option<u8>
    ensures { result ≡ verb_in word_use }
{
    match word_use {
        WordUse::Verb(number) | WordUse::MetaVerb(number) => Some(number),
        WordUse::Preposition | WordUse::Other => None,
    }
}

/// Returns a word with the facts that a use says of it, joined to those of `before`, if there are any.
pub(crate) fn joined(before: Option<Word>, word_use: WordUse, is_plural: bool) -> Word
    ensures { result ≡ joined before word_use is_plural }
{
    let flags = flags_of(word_use, is_plural);
    let verb = verb_in(word_use);
    match before {
        None => Word { flags, verb },
        Some(word) => Word {
            flags: word.flags | flags,
            verb: verb.or(word.verb),
        },
    }
}

pub(crate) fn is_of_other_verb(before: Option<Word>, word_use: WordUse) -> bool
    ensures { result ≡ is_of_other_verb before word_use }
{
    match (before, verb_in(word_use)) {
        (
            Some(
                Word {
                    verb: Some(old),
                    ..
                },
            ),
            Some(new),
        ) => old != new,
        _ => false,
    }
}

impl Word {
    /// Returns the byte that an entry has for the word's verb.
    pub(crate) fn verb_byte(self) -> u8
        ensures { result ≡ verb_byte self }
    {
        match self.verb {
            Some(number) => 255 - number,
            None => 0,
        }
    }
}
