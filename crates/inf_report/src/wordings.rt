//! The texts of messages, made of pieces.
ghost use Rattle.std.specs.Prelude.{◌≡◌, ◌++◌, codes};
ghost use Rattle.inf_report.specs.{Meant.named, Messages.told, Wordings.said};

use crate::messages::{Location, Told};
use crate::own_words::OwnWords;

/// The wording of a message: the pieces that its text is made of.
#[derive(Clone, Copy)]
pub(crate) enum Wording<'a> {
    /// Four pieces, of which some may be empty.
    Phrase {
        first: &'a [u8],
        second: &'a [u8],
        third: &'a [u8],
        fourth: &'a [u8],
    },
    /// A name, and where it was declared.
    Declared(&'a [u8], Location<'a>),
    /// A story that has more bytes than this.
    StoryOver(u32),
    /// The source's own words.
    Own(OwnWords<'a>),
}

impl<'a> Wording<'a> {
    /// Returns a text that is always the same.
    pub(crate) fn only(text: &'static [u8]) -> Wording<'a>
        ensures { said result ≡ text.now }
    {
        Wording::Phrase {
            first: text,
            second: b"",
            third: b"",
            fourth: b"",
        }
    }

    /// Returns a text with a word in it.
    pub(crate) fn about(before: &'static [u8], word: &'a [u8], behind: &'static [u8]) -> Wording<'a>
        ensures { said result ≡ before.now ++ word.now ++ behind.now }
    {
        Wording::Phrase {
            first: before,
            second: word,
            third: behind,
            fourth: b"",
        }
    }

    /// Returns a text with a name in it, with a closing quote behind the name.
    pub(crate) fn of_name(
        before: &'static [u8],
        name: &'a [u8],
        behind: &'static [u8],
    ) -> Wording<'a>
        ensures { said result ≡ before.now ++ name.now ++ codes "\"" ++ behind.now }
    {
        Wording::Phrase {
            first: before,
            second: name,
            third: b"\"",
            fourth: behind,
        }
    }

    /// Returns a text that ends with a token.
    pub(crate) fn of_token(before: &'static [u8], token: Told<'a>) -> Wording<'a>
        ensures { said result ≡ before.now ++ told (named token.entry) }
    {
        match token {
            Told::Bytes(bytes) => Wording::Phrase {
                first: before,
                second: b"\"",
                third: bytes,
                fourth: b"\"",
            },
            Told::Quote(bytes) => Wording::Phrase {
                first: before,
                second: b"\"'",
                third: bytes,
                fourth: b"'\"",
            },
            Told::Text => Wording::about(before, b"text", b""),
            Told::End => Wording::about(before, b"end of file", b""),
        }
    }
}
