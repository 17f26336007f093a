//! The strings of a story.
ghost use Rattle.std.specs.Prelude.{◌≡◌, ◌≤◌, IfOk, OnErr, if◌then◌else◌, length, true};
ghost use Rattle.inf_output.specs.Strings.{fits, with_string};
ghost use Rattle.inf_settings.specs.declared.setting.Setting.{Setting};

use inf_area::{Area, PagedArea, Scale};
use inf_settings::bounds::Bounds;
use std::alloc::{AllocError, Global};
use std::marker::{Model, PhantomData};

/// The packed texts of the strings of a story, one behind the other in the order in which they came, each filled up with zeros to a
/// packed address (Z-Machine Standard 1.1, section 1.2.3).
#[derive(Drop)]
pub struct Strings<B: Bounds> {
    area: PagedArea,
    limit: usize,
    scale: Scale,
    of: PhantomData<B>,
    ghost is_most: { limit ≡ B.most Setting.Strings },
}

impl<B: Bounds> Model for Strings<B> {
    ghost use Rattle.std.specs.Prelude.{◌≤◌, length};
    ghost use Rattle.inf_output.specs.Strings.{StringArea};

    ghost Value = { StringArea };

    ghost view = { λ strings. record { bytes = strings.area; scale = strings.scale } };

    ghost invariant = { λ strings. length strings.area ≤ strings.limit };
}

impl<B: Bounds> Strings<B> {
    ghost use Rattle.inf_output.specs.Strings.{no_strings};

    /// Returns no strings, of at most `limit` bytes, in a story whose packed addresses are multiplied by `scale`. They take no
    /// memory until the first one comes.
    pub fn new(alloc: Global, limit: usize, scale: Scale) -> Strings<B>
        requires { limit ≡ B.most Setting.Strings }
        ensures { result ≡ no_strings scale }
    {
        Strings {
            area: PagedArea::new(alloc),
            limit,
            scale,
            of: PhantomData,
        }
    }

    /// Multiplies packed addresses by `scale` from now on: the next string is filled up to it.
    pub fn set_scale(&mut self, scale: Scale)
        ensures { self.new ≡ record self.old { scale = scale } }
    {
        self.scale = scale;
    }

    /// Returns the number of bytes of the strings: the place of the next one.
    pub fn len(&self) -> usize
        ensures value { result ≡ length self.now.bytes }
        ensures few { result ≤ B.most Setting.Strings }
    {
        self.area.len()
    }

    /// Adds a string of the bytes `text` and returns true; returns false, and adds nothing, where it would pass the limit. Where
    /// there is room and memory runs out the strings stay as they were.
    #[tactic(auto, using(crate::proofs::Cutting::cut_behind))]
    pub fn add(&mut self, text: &[u8]) -> Result<bool, AllocError>
        ensures value { IfOk result (λ added. (added ≡ fits B.most text.now self.old)
            × (self.new ≡ if fits B.most text.now self.old then with_string text.now self.old else self.old)) }
        ensures err { OnErr result (self.new ≡ self.old) }
        ensures memory { OnErr result (fits B.most text.now self.old ≡ true) }
    {
        let zeros: &[u8] = &[0, 0, 0, 0, 0, 0, 0];
        let behind = &zeros[..self.scale.gap(text.len())];
        let room = self.limit - self.area.len();
        if room < text.len() || room - text.len() < behind.len() {
            return Ok(false);
        }
        let front = self.area.len();
        self.area.append(text)?;
        if let Err(fault) = self.area.append(behind) {
            self.area.cut(front, text.len());
            return Err(fault);
        }
        Ok(true)
    }

    /// Returns the area of the strings.
    pub fn into_area(self) -> PagedArea
        ensures { result ≡ self.bytes }
    {
        self.area
    }
}
