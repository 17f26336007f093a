//! Names as a source spells them.
ghost use Rattle.std.specs.Prelude.{◌≡◌, ◌≤◌, length};
ghost use Rattle.inf_names.specs.Spellings.{as_name};

use arrayvec::ArrayVec;
use inf_scanner::Place;

/// The most bytes that a name has.
pub const MOST_NAME_BYTES: usize = 32;

/// The bytes of a name, as a source spells it.
pub type Spelling = ArrayVec<u8, MOST_NAME_BYTES>;

/// Returns a copy of a spelling.
pub(crate) fn copy_of(spelling: &Spelling) -> Spelling
    ensures { result.items ≡ spelling.now.items }
{
    let mut copy = ArrayVec::new();
    let _fits = copy.try_extend_from_slice(spelling.as_slice());
    copy
}

/// A name as a source spells it, and its place.
#[derive(Drop)]
pub struct Name {
    pub spelling: Spelling,
    pub place: Place,
}

impl Name {
    /// Returns the name with the bytes `bytes`, at most 32, at `place`.
    pub fn new(bytes: &[u8], place: Place) -> Name
        requires { length bytes.now ≤ 32 }
        ensures { as_name result ≡ record { bytes = bytes.now; place = place } }
    {
        let mut spelling = ArrayVec::new();
        let _fits = spelling.try_extend_from_slice(bytes);
        Name { spelling, place }
    }

    /// Returns a copy of the name, at the same place.
    pub(crate) fn copy(&self) -> Name
        ensures { as_name result ≡ as_name self.now }
    {
        Name {
            spelling: copy_of(&self.spelling),
            place: self.place,
        }
    }

    /// Returns the bytes of the name, at most 32.
    pub fn bytes(&self) -> &[u8]
        ensures value { result.now ≡ (as_name self.now).bytes }
        ensures few { length result.now ≤ 32 }
    {
        self.spelling.as_slice()
    }
}
