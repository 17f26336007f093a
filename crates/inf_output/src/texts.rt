//! Packing of the texts of a story.
ghost use Rattle.std.specs.Prelude.{◌≡◌, IfOk, IsTrue, OnErr, OnOk, [], option_copied};
ghost use Rattle.inf_text.specs.{Declaring.Declares, Packing.in_use, Packing.packed, Words.are_words};
ghost use Rattle.inf_output.specs.Texts.{late, no_texts, used_in};

use inf_text::{AbbrevFault, Abbreviations, Text, pack};
use std::alloc::{AllocError, Global};
use std::marker::Model;

/// Packing of the texts of a story: the abbreviations that its source declares, and whether texts are packed with them (Z-Machine Standard
/// 1.1, section 3.3). An abbreviation is declared in front of each text that is packed (Designer's Manual, fourth edition, section 45).
#[derive(Drop)]
pub struct Texts {
    abbreviations: Abbreviations,
    are_used: bool,
    is_late: bool,
}

impl Model for Texts {
    ghost use Rattle.inf_output.specs.Texts.{Packing};

    ghost Value = { Packing };

    ghost view = { λ t. record { declared = t.abbreviations; are_used = t.are_used; is_late = t.is_late } };
}

impl Texts {
    /// Returns a packing without abbreviations, with which no text was packed so far. It takes no memory until the first
    /// abbreviation is declared.
    pub fn new(alloc: Global) -> Texts
        ensures { result ≡ no_texts }
    {
        Texts {
            abbreviations: Abbreviations::new(alloc),
            are_used: false,
            is_late: false,
        }
    }

    /// Packs texts from now on with the abbreviations if `are_used`, and without them else.
    pub fn set_used(&mut self, are_used: bool)
        ensures { self.new ≡ record self.old { are_used = are_used } }
    {
        self.are_used = are_used;
    }

    /// Returns whether a text was packed. Then it is too late to declare an abbreviation.
    pub fn is_late(&self) -> bool
        ensures { result ≡ self.now.is_late }
    {
        self.is_late
    }

    /// Returns the bytes of `text`, packed with the abbreviations where these are used. From now on it is late. Where memory runs
    /// out nothing is changed.
    pub fn pack(&mut self, alloc: Global, text: &Text) -> Result<Vec<u8>, AllocError>
        ensures bytes { IfOk result (λ bytes. bytes.items ≡ packed text.now (used_in self.old)) }
        // They are whole words, of which only the last is marked as the end.
        ensures words { IfOk result (λ bytes. IsTrue (are_words bytes.items)) }
        ensures late { OnOk result (self.new ≡ late self.old) }
        ensures err { OnErr result (self.new ≡ self.old) }
    {
        if !self.are_used {
            return self.pack_low(alloc, text);
        }
        let bytes = pack(alloc, text, Some(&self.abbreviations))?;
        self.is_late = true;
        Ok(bytes)
    }

    /// Returns the bytes of `text`, packed without abbreviations, as those of low strings are. From now on it is late. Where memory
    /// runs out nothing is changed.
    pub fn pack_low(&mut self, alloc: Global, text: &Text) -> Result<Vec<u8>, AllocError>
        ensures bytes { IfOk result (λ bytes. bytes.items ≡ packed text.now []) }
        // They are whole words, of which only the last is marked as the end.
        ensures words { IfOk result (λ bytes. IsTrue (are_words bytes.items)) }
        ensures late { OnOk result (self.new ≡ late self.old) }
        ensures err { OnErr result (self.new ≡ self.old) }
    {
        let bytes = pack(alloc, text, None)?;
        self.is_late = true;
        Ok(bytes)
    }

    /// Declares `text` as an abbreviation, and returns its number: the count of those declared before. The refusals, in this order:
    /// `Full` where there are 64, `Repeated` where the text is declared, `TooShort` where it has fewer than two characters,
    /// `Memory` where there is too little memory. A refusal changes nothing.
    pub fn declare(&mut self, text: &Text) -> Result<u8, AbbrevFault>
        ensures declared { Declares self.old.declared text.now self.new.declared result }
        ensures others { self.new ≡ record self.old { declared = self.new.declared } }
    {
        self.abbreviations.declare(text)
    }
}
