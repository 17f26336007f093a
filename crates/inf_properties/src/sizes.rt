//! How large properties are in the tables of a story.
ghost use Rattle.std.specs.Prelude.{◌≡◌, ◌+◌, ◌-◌, ◌<◌, ◌≤◌, ◌^◌, length, false, IfSome, IfNone, IsTrue, ◌↔◌};
ghost use Rattle.inf_properties.specs.Sizes.{are_short, later_count};

use crate::values::Property;
use inf_area::Value;

/// The owner of a body's properties.
#[derive(Clone, Copy)]
pub enum Owner {
    Object,
    /// A class, which keeps its properties for the objects that take from it.
    Class,
    /// No object, since the header was in error.
    Nothing,
}

/// The room that properties need in the tables of a story.
#[derive(Clone, Copy)]
pub struct Size {
    pub bytes: usize,
    /// Number of values in these tables that are known later.
    pub fixups: usize,
    /// Number of the properties that are individual.
    pub individuals: usize,
}

/// The most bytes that there may be (`limit`), and the bytes of other objects among them (`others`).
#[derive(Clone, Copy)]
pub struct Room {
    pub others: usize,
    pub limit: u32,
}

impl Room {
    ghost use Rattle.inf_properties.specs.Sizes.{lacks};

    /// Returns whether `bytes` more bytes are too many.
    pub(crate) fn lacks(self, bytes: usize) -> bool
        ensures value { result ≡ lacks self bytes }
        ensures within { result ≡ false → self.others + bytes ≤ self.limit }
        ensures small { result ≡ false → self.others + bytes < 2 ^ 32 }
    {
        match (self.limit as usize).checked_sub(self.others) {
            Some(left) => left < bytes,
            None => true,
        }
    }
}

/// The size of no properties.
pub(crate) const NO_SIZE: Size = Size {
    bytes: 0,
    fixups: 0,
    individuals: 0,
};

// The most values of a property (Z-Machine Standard 1.1, section 12.4.2.1).
pub(crate) const MOST_VALUES: usize = 32;

/// The first number of individual properties.
const FIRST_INDIVIDUAL: usize = 64;

pub(crate) fn later_count(values: &[Value]) -> usize
    ensures value { result ≡ later_count values.now }
    ensures within { result ≤ length values.now }
{
    let mut count = 0;
    for value in values {
        if matches!(value, Value::Later(_)) {
            count += 1;
        }
    }
    count
}

impl Owner {
    ghost use Rattle.inf_properties.specs.Sizes.{size_by, size_of};

    /// Returns the size of property `number` with `count` values, `later` of which are known later.
    pub(crate) fn size_by(self, number: usize, count: usize, later: usize) -> Size
        requires { count ≤ 32 }
        ensures value { result ≡ size_by self number count later }
        ensures bytes { result.bytes ≤ 67 }
        ensures fixups { result.fixups ≤ later }
        ensures individuals { result.individuals ≤ 1 }
    {
        match self {
            Owner::Object if number < FIRST_INDIVIDUAL => Size {
                bytes: if count <= 1 { 3 } else { 2 + 2 * count },
                fixups: later,
                individuals: 0,
            },
            Owner::Object => Size {
                bytes: if count <= 1 { 5 } else { 3 + 2 * count },
                fixups: later,
                individuals: 1,
            },
            Owner::Class => Size {
                bytes: 2 * count,
                fixups: 0,
                individuals: 0,
            },
            Owner::Nothing => NO_SIZE,
        }
    }

    /// Returns the size of `property`, which has at most 32 values.
    pub fn size_of(self, property: &Property) -> Size
        requires { length property.now.values ≤ 32 }
        ensures value { result ≡ size_of self property.now }
        ensures bytes { result.bytes ≤ 67 }
        ensures fixups { result.fixups ≤ 32 }
        ensures individuals { result.individuals ≤ 1 }
    {
        let values = property.values.as_slice();
        self.size_by(property.number, values.len(), later_count(values))
    }
}

impl Size {
    ghost use Rattle.inf_properties.specs.Sizes.{with_table};

    pub(crate) fn with_table(self) -> Size
        requires bytes { self.bytes < 2 ^ 33 }
        requires fixups { self.fixups < 2 ^ 33 }
        ensures { result ≡ with_table self }
    {
        if self.individuals > 0 {
            Size {
                bytes: self.bytes + 5,
                fixups: self.fixups + 1,
                individuals: self.individuals,
            }
        } else {
            self
        }
    }

    /// Returns this size without `lost`, which is part of it, and with `gained`.
    pub(crate) fn changed(self, lost: Size, gained: Size) -> Size
        requires bytes { lost.bytes ≤ self.bytes }
        requires fixups { lost.fixups ≤ self.fixups }
        requires individuals { lost.individuals ≤ self.individuals }
        requires small { (self.bytes < 2 ^ 33) × (self.fixups < 2 ^ 33) × (self.individuals < 2 ^ 33) }
        requires little { (gained.bytes < 2 ^ 33) × (gained.fixups < 2 ^ 33) × (gained.individuals < 2 ^ 33) }
        ensures { result ≡ record {
          bytes = self.bytes - lost.bytes + gained.bytes;
          fixups = self.fixups - lost.fixups + gained.fixups;
          individuals = self.individuals - lost.individuals + gained.individuals;
        } }
    {
        Size {
            bytes: self.bytes - lost.bytes + gained.bytes,
            fixups: self.fixups - lost.fixups + gained.fixups,
            individuals: self.individuals - lost.individuals + gained.individuals,
        }
    }
}

/// Returns whether each property has at most 32 values.
pub(crate) fn are_short(properties: &[Property]) -> bool
    ensures { result ≡ are_short properties.now }
{
    for property in properties {
        if property.values.as_slice().len() > MOST_VALUES {
            return false;
        }
    }
    true
}
