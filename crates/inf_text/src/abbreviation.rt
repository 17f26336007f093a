//! The abbreviations that a source declares.
ghost use Rattle.std.specs.Prelude.{◌≡◌, ◌<◌, ◌≤◌, ◌↔◌, IfSome, IsTrue, [], length};
ghost use Rattle.std.specs.List.{list_any};
ghost use Rattle.inf_text.specs.{Declaring.Declares, Declaring.same_text, Packing.longest, Parts.AreAbbreviations};

use crate::index::{Index, MOST, begins_with};
use inf_characters::{Text, TextItem};
use std::alloc::{AllocError, AllocFailed, Global};
use std::marker::Model;
use thiserror::Error;

/// The fewest items that an abbreviation may have.
const SHORTEST: usize = 2;

/// The reason why a text cannot be declared as an abbreviation.
#[derive(Clone, Copy, Debug, PartialEq, Eq, Drop, Error)]
pub enum AbbrevFault {
    /// There are 64 abbreviations.
    #[error("64 abbreviations are declared already")]
    Full,
    /// The text is an abbreviation already.
    #[error("the abbreviation is declared already")]
    Repeated,
    /// The text has fewer than two characters.
    #[error("the abbreviation is shorter than two characters")]
    TooShort,
    /// There is too little memory.
    #[error("out of memory")]
    Memory,
}

impl From<AllocError> for AbbrevFault {
    ghost use Rattle.std.specs.Prelude.{◌≡◌};
    ghost use Rattle.inf_text.specs.declared.abbreviation.AbbrevFault.TheVariants.{Memory};

    ghost from_gives = { λ _ e. e ≡ Memory };

    fn from(_e: AllocError) -> AbbrevFault {
        AbbrevFault::Memory
    }
}

impl<T: Drop> From<AllocFailed<T>> for AbbrevFault {
    ghost use Rattle.std.specs.Prelude.{◌≡◌};
    ghost use Rattle.inf_text.specs.declared.abbreviation.AbbrevFault.TheVariants.{Memory};

    ghost from_gives = { λ _ e. e ≡ Memory };

    fn from(_e: AllocFailed<T>) -> AbbrevFault {
        AbbrevFault::Memory
    }
}

/// The abbreviations declared so far, at most 64, in the order of their declaration.
#[derive(Drop)]
pub struct Abbreviations {
    texts: Vec<Text>,
    index: Index,
}

impl Model for Abbreviations {
    ghost use Rattle.std.specs.Prelude.{List};
    ghost use Rattle.inf_characters.specs.declared.texts.TextItem.{TextItem};

    ghost Value = { List (List TextItem) };

    ghost view = { λ a. a.texts.items };

    ghost use Rattle.inf_text.specs.Searching.{AreIndexed};

    ghost invariant = { λ a. AreIndexed a.texts.items a.index };
}

impl Abbreviations {
    /// Returns abbreviations of which none is declared yet.
    pub fn new(alloc: Global) -> Abbreviations
        ensures { result ≡ [] }
    {
        Abbreviations {
            texts: Vec::new(alloc),
            index: Index::new(),
        }
    }

    /// Declares `text` as an abbreviation and returns its number, which counts those declared before it. Returns an
    /// error, the first that applies: `Full` where there are 64, `Repeated` where the text is declared, `TooShort`
    /// where it has fewer than two characters, `Memory` where there is too little memory. An error changes nothing.
    pub fn declare(&mut self, text: &Text) -> Result<u8, AbbrevFault>
        ensures { Declares self.old text.now self.new result }
    {
        let number = self.texts.len();
        if number >= MOST {
            return Err(AbbrevFault::Full);
        }
        if is_among(self.as_slice(), text.as_slice()) {
            return Err(AbbrevFault::Repeated);
        }
        if text.len() < SHORTEST {
            return Err(AbbrevFault::TooShort);
        }
        let copy = text.copied(*self.texts.allocator())?;
        self.texts.push(copy)?;
        self.index.add(&self.texts);
        Ok(number as u8)
    }

    /// Returns the texts of the abbreviations, in the order of their declaration.
    pub fn as_slice(&self) -> &[Text]
        ensures value { result.now ≡ self.now }
        ensures declared { AreAbbreviations self.now }
    {
        self.texts.as_slice()
    }

    /// Returns the number of abbreviations that are declared.
    pub fn len(&self) -> usize
        ensures { result ≡ length self.now }
    {
        self.as_slice().len()
    }

    /// Returns whether no abbreviation is declared.
    pub fn is_empty(&self) -> bool
        ensures { IsTrue result ↔ (self.now ≡ []) }
    {
        self.texts.is_empty()
    }

    #[inline]
    pub(crate) fn longest(&self, items: &[TextItem]) -> Option<(usize, usize)>
        ensures declared { AreAbbreviations self.now }
        ensures value { result ≡ longest self.now items.now }
        ensures fits { IfSome result (λ found. (found.0 < 64) × (found.1 ≤ length items.now)) }
    {
        self.index.longest(&self.texts, items)
    }
}

/// Returns whether `text` is among `texts`.
fn is_among(texts: &[Text], text: &[TextItem]) -> bool
    ensures { result ≡ list_any (λ a. same_text a text.now) texts.now }
{
    texts.iter().any(|a| same_text(a.as_slice(), text))
}

fn same_text(a: &[TextItem], b: &[TextItem]) -> bool
    ensures { result ≡ same_text a.now b.now }
{
    a.len() == b.len() && begins_with(a, b)
}
