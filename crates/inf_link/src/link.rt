//! A story from its areas.
ghost use Rattle.std.specs.Prelude.{◌≡◌, ◌⊎◌, None, Some, IfOk, MatchResult};
ghost use Rattle.inf_link.specs.{Areas.contents, Areas.lengths, Filling.filled, MemoryMaps.too_long, Targets.lookup, Targets.number_of};
ghost use Rattle.inf_link.specs.{declared.link.LinkFault.TheVariants.Memory};

use crate::areas::Areas;
use crate::bytes::body;
use crate::header::{HEADER_SIZE, HeaderFields, append_header};
use crate::memory_map::MemoryMap;
use crate::targets::Targets;
use inf_area::{Area, Refs, Scale};
use std::alloc::{AllocError, Global};
use std::marker::Model;

/// Reasons why there is no story.
#[derive(Clone, Copy, Debug)]
pub enum LinkFault {
    /// Code would begin at an address over 65,534.
    ReadableTooLong,
    /// The story would have more bytes than one of its version may have: 262,144 in version 5, 524,288 in version 8
    /// (Z-Machine Standard 1.1, section 1.1.4).
    StoryTooLong,
    /// No memory was left.
    Memory,
}

impl From<AllocError> for LinkFault {
    ghost from_gives = { λ _ fault. fault ≡ Memory };

    fn from(_error: AllocError) -> LinkFault {
        LinkFault::Memory
    }
}

/// Numbers of bytes of a story and of its parts.
#[derive(Clone, Copy)]
pub struct Sizes {
    pub code: usize,
    pub strings: usize,
    /// Number of bytes before the code.
    pub readable: usize,
    pub story: usize,
}

/// A finished story.
#[derive(Drop)]
pub struct Story {
    bytes: Vec<u8>,
    sizes: Sizes,
}

impl Model for Story {
    ghost use Rattle.inf_link.specs.Stories.{Linked};

    ghost Value = { Linked };

    ghost view = { λ story. record { bytes = story.bytes.items; sizes = story.sizes } };
}

impl Story {
    /// Returns the bytes of the story, in order.
    pub fn as_slice(&self) -> &[u8]
        ensures { result.now ≡ self.now.bytes }
    {
        self.bytes.as_slice()
    }

    /// Returns the bytes of the story.
    pub fn into_bytes(self) -> Vec<u8>
        ensures { result.items ≡ self.bytes }
    {
        self.bytes
    }

    /// Returns the numbers of bytes of the story and of its parts.
    pub fn sizes(&self) -> Sizes
        ensures { result ≡ self.now.sizes }
    {
        self.sizes
    }
}

/// The parts of a story: its areas, with two zeros at each fixup; the fixups of all areas, in any order; the table in which
/// their targets are looked up; and the fields of its header.
#[derive(Drop)]
pub struct Link<A> {
    pub alloc: Global,
    pub areas: Areas<A>,
    pub refs: Refs,
    pub targets: Targets,
    pub fields: HeaderFields,
}

impl<A: Area + Drop> Link<A> {
    ghost use Rattle.inf_link.specs.{Stories.refusal, Stories.sizes, Stories.story, Targets.lookup};

    /// Creates the parts of a story. It takes no memory.
    pub fn new(
        alloc: Global,
        areas: Areas<A>,
        refs: Refs,
        targets: Targets,
        fields: HeaderFields,
    ) -> Self
        ensures { result ≡ record { alloc = alloc; areas = areas; refs = refs; targets = targets; fields = fields } }
    {
        Link {
            alloc,
            areas,
            refs,
            targets,
            fields,
        }
    }

    /// Returns the story. The call is refused first where code would begin at an address over 65,534, then where the story would be longer
    /// than one of its version may be, then for want of memory. A fixup that does not lie within its area is left out.
    pub fn link(self) -> Result<Story, LinkFault>
        ensures bytes { IfOk result (λ s. s.bytes ≡ story (contents A.bytes self.areas) self.refs.list (lookup self.targets) self.fields) }
        ensures sizes { IfOk result (λ s. s.sizes ≡ sizes (contents A.bytes self.areas) self.fields s.bytes) }
        ensures fault { let long = too_long (lengths (contents A.bytes self.areas)) self.fields.scale in
            MatchResult result (λ _. long ≡ None) (λ fault. fault ≡ refusal long) }
    {
        let fields = self.fields;
        let map = MemoryMap::of(self.areas.lengths(), fields.scale)?;
        let areas = filled(
            self.areas,
            self.refs,
            self.targets,
            fields.scale,
            &map.bases,
        );
        let body = body(self.alloc, map.end - HEADER_SIZE, &areas, fields.scale)?;
        let mut bytes = Vec::with_capacity(self.alloc, map.end)?;
        append_header(&mut bytes, fields, &map.bases, &body)?;
        bytes.extend_from_slice(&body)?;
        let sizes = Sizes {
            code: areas.code.len(),
            strings: areas.strings.len(),
            readable: map.bases.code,
            story: bytes.len(),
        };
        Ok(Story { bytes, sizes })
    }
}

/// Returns areas whose fixups are filled, where they begin at `bases`.
fn filled<A: Area>(
    areas: Areas<A>,
    refs: Refs,
    targets: Targets,
    scale: Scale,
    bases: &Areas<usize>,
) -> Areas<A>
    ensures { contents A.bytes result ≡ filled (number_of (lookup targets) scale bases.now) refs.list (contents A.bytes areas) }
{
    let mut areas = areas;
    let mut targets = targets;
    targets.words.sort_unstable();
    areas.fill_all(refs.as_slice(), &targets, scale, bases);
    areas
}
