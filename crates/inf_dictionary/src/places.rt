//! The places of words in a dictionary.
ghost use Rattle.std.specs.Prelude.{◌≡◌, ◌*◌, ◌+◌};
ghost use Rattle.inf_dictionary.specs.Texts.{AreRising, is_below, rank_of};

use std::marker::Model;

/// The texts of a dictionary's words, in rising order.
#[derive(Drop)]
pub struct Places {
    texts: Vec<[u8; 6]>,
}

impl Model for Places {
    ghost use Rattle.std.specs.Prelude.{List};
    ghost use Rattle.inf_dictionary.specs.Texts.{AreRising, Text};

    ghost Value = { List Text };

    ghost view = { λ p. p.texts.items };

    ghost invariant = { λ p. AreRising p.texts.items };
}

fn is_below(text: &[u8; 6], other: &[u8; 6]) -> bool
    ensures { result ≡ is_below text.now other.now }
{
    text.cmp(other).is_lt()
}

impl Places {
    /// Returns the places of words with these texts, which have to rise.
    pub(crate) fn new(texts: Vec<[u8; 6]>) -> Places
        requires { AreRising texts.items }
        ensures { result ≡ texts.items }
    {
        Places { texts }
    }

    /// Returns the texts, in rising order.
    pub fn into_texts(self) -> Vec<[u8; 6]>
        ensures { result.items ≡ self }
    {
        let Places { texts } = self;
        texts
    }

    /// Returns the number of words before the one with this text. Finds it by halves.
    pub fn rank(&self, text: [u8; 6]) -> usize
        ensures { result ≡ rank_of text self.now }
    {
        self.texts.partition_point(
            |other: &[u8; 6]| -> bool
                ensures { result ≡ is_below other.now text }
            { is_below(other, &text) },
        )
    }
}
