//! The low strings of a story.
ghost use Rattle.std.specs.Prelude.{◌≡◌, ◌≤◌, IfOk, OnErr, if◌then◌else◌, max, true};
ghost use Rattle.inf_tables.specs.LowStrings.{low_fits, low_size, with_abbreviation, with_low};
ghost use Rattle.inf_settings.specs.declared.setting.Setting.{Setting};

use inf_settings::bounds::Bounds;
use std::alloc::{AllocError, Global};
use std::marker::{Model, PhantomData};

/// The number of bytes of the first low string, three spaces, which each story has.
const FIRST_BYTES: usize = 2;

/// The packed texts of a story's low strings, one behind the other in the order in which they came, behind the first one, which is not
/// among them. Each is of whole words, so that it begins at an even address (Z-Machine Standard 1.1, sections 1.2.2 and 3.3).
#[derive(Drop)]
pub struct LowStrings<B: Bounds> {
    bytes: Vec<u8>,
    // The places where the low strings of abbreviations begin, in the order of their declarations.
    abbreviations: Vec<usize>,
    limit: usize,
    of: PhantomData<B>,
    ghost is_most: { limit ≡ B.most Setting.LowStrings },
}

impl<B: Bounds> Model for LowStrings<B> {
    ghost use Rattle.std.specs.Prelude.{◌≤◌, ◌+◌, length, max};
    ghost use Rattle.inf_tables.specs.LowStrings.{LowArea};

    ghost Value = { LowArea };

    ghost view = { λ low. record { bytes = low.bytes.items; abbreviations = low.abbreviations.items } };

    ghost invariant = { λ low. 2 + length low.bytes.items ≤ max 2 low.limit };
}

impl<B: Bounds> LowStrings<B> {
    ghost use Rattle.inf_tables.specs.LowStrings.{no_low_strings};

    /// Makes the low strings of a new story: none but the first one. With it they may have `limit` bytes. They take no
    /// memory until the next one comes.
    pub fn new(alloc: Global, limit: usize) -> LowStrings<B>
        requires { limit ≡ B.most Setting.LowStrings }
        ensures { result ≡ no_low_strings }
    {
        LowStrings {
            bytes: Vec::new(alloc),
            abbreviations: Vec::new(alloc),
            limit,
            of: PhantomData,
        }
    }

    /// Returns the number of bytes of the low strings with the first one: the place of the next one.
    pub fn len(&self) -> usize
        ensures value { result ≡ low_size self.now }
        ensures few { result ≤ max 2 (B.most Setting.LowStrings) }
    {
        FIRST_BYTES + self.bytes.len()
    }

    /// Returns whether there is room for a low string of the bytes `text`.
    fn fits(&self, text: &[u8]) -> bool
        ensures { result ≡ low_fits B.most text.now self.now }
    {
        let size = self.len();
        self.limit >= size && self.limit - size >= text.len()
    }

    /// Adds a low string of the bytes `text`, and returns `true`; or returns `false` where it would pass the limit.
    /// Where there is room and memory runs out the low strings stay as they were.
    pub fn add(&mut self, text: &[u8]) -> Result<bool, AllocError>
        ensures value { IfOk result (λ added. (added ≡ low_fits B.most text.now self.old)
            × (self.new ≡ if low_fits B.most text.now self.old then with_low text.now self.old else self.old)) }
        ensures err { OnErr result (self.new ≡ self.old) }
        ensures memory { OnErr result (low_fits B.most text.now self.old ≡ true) }
    {
        if !self.fits(text) {
            return Ok(false);
        }
        self.bytes.extend_from_slice(text)?;
        Ok(true)
    }

    /// Adds a low string of the bytes `packed`, which is an abbreviation, as `add` does, and keeps its place.
    pub fn add_abbreviation(&mut self, packed: &[u8]) -> Result<bool, AllocError>
        ensures value { IfOk result (λ added. (added ≡ low_fits B.most packed.now self.old)
            × (self.new ≡ if low_fits B.most packed.now self.old then with_abbreviation packed.now self.old else self.old)) }
        ensures err { OnErr result (self.new ≡ self.old) }
        ensures memory { OnErr result (low_fits B.most packed.now self.old ≡ true) }
    {
        if !self.fits(packed) {
            return Ok(false);
        }
        let place = self.len();
        self.abbreviations.reserve(1)?;
        self.bytes.extend_from_slice(packed)?;
        self.abbreviations.push_reserved(place);
        Ok(true)
    }

    /// Returns the places where the abbreviations begin, in the order in which they were added, in bytes from the front
    /// of the first low string.
    pub fn abbreviation_places(&self) -> &[usize]
        ensures { result.now ≡ self.now.abbreviations }
    {
        self.abbreviations.as_slice()
    }

    /// Returns the bytes of the low strings behind the first one.
    pub fn as_slice(&self) -> &[u8]
        ensures { result.now ≡ self.now.bytes }
    {
        self.bytes.as_slice()
    }
}
