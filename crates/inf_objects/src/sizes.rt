//! The bytes that an object needs in the areas of tables.
ghost use Rattle.std.specs.Prelude.{◌≡◌, ℕ, ◌+◌, ◌<◌, ◌≤◌, ◌^◌, length, true, false};
ghost use Rattle.inf_area.specs.Cells.{bytes_of, later_count};
ghost use Rattle.inf_properties.specs.{Sizes.are_short, Sizes.bytes_of as property_bytes, declared.sizes.Owner.Owner};
ghost use Rattle.inf_objects.specs.{Objects.object_bytes, Tables.has_individual, Tables.individual_table_cells, Tables.table_cells};
ghost use Rattle.inf_objects.specs.Measures.{CountedBy, bare_part, individual_table_part, kind_part, measured, no_part, parts_of};
ghost use Rattle.inf_objects.specs.Measures.{table_part};

use crate::body::list_bytes;
use crate::objects::Object;
use crate::tables::{has_individual, is_individual};
use inf_properties::{Owner, Property};

/// The part of an area that something needs.
#[derive(Clone, Copy)]
pub struct Part {
    pub bytes: usize,
    /// The number of values in these bytes that are known only later.
    pub later: usize,
}

/// The parts that an object needs of the areas of property tables and of individual tables.
#[derive(Clone, Copy)]
pub struct Measure {
    pub table: Part,
    pub individual_table: Part,
}

/// The part of no bytes.
const NO_PART: Part = Part { bytes: 0, later: 0 };

impl Part {
    /// Returns both parts together.
    fn plus(self, more: Part) -> Part
        requires bytes { self.bytes + more.bytes < 2 ^ 34 }
        requires later { self.later + more.later < 2 ^ 34 }
        ensures bytes { result.bytes ≡ self.bytes + more.bytes }
        ensures later { result.later ≡ self.later + more.later }
    {
        Part {
            bytes: self.bytes + more.bytes,
            later: self.later + more.later,
        }
    }
}

fn kind_part(property: &Property, individual: bool) -> Part
    requires { length property.now.values ≤ 32 }
    ensures { result ≡ kind_part individual property.now }
{
    if is_individual(property) != individual {
        return NO_PART;
    }
    let size = Owner::Object.size_of(property);
    Part {
        bytes: size.bytes,
        later: size.fixups,
    }
}

/// Returns the part that those of `properties` need that are of one kind: individual, or else declared.
fn parts_of(properties: &[Property], individual: bool) -> Part
    requires short { are_short properties.now ≡ true }
    requires small { property_bytes Owner.Object properties.now < 2 ^ 34 }
    ensures value { result ≡ parts_of individual properties.now }
    ensures small { result.bytes < 2 ^ 34 }
    ensures few { result.later < 2 ^ 34 }
{
    let mut all = NO_PART;
    for property in properties {
        all = all.plus(kind_part(property, individual));
    }
    all
}

/// Returns the part that an object needs in a property table, where its declared properties need the part `common`.
fn table_part(object: &Object, common: Part) -> Part
    requires name { length object.now.name < 2 ^ 62 }
    requires bytes { common.bytes < 2 ^ 34 }
    requires later { common.later < 2 ^ 34 }
    requires value { common ≡ parts_of false object.now.properties }
    ensures { result ≡ table_part object.now }
{
    let head = 2 + object.name.as_slice().len() + list_bytes(object.classes.as_slice().len());
    let (bytes, later) = if has_individual(object.properties.as_slice()) {
        (3, 1)
    } else {
        (0, 0)
    };
    Part {
        bytes: head + common.bytes + bytes,
        later: common.later + later,
    }
}

/// Returns the part that an object needs in an individual table, where its individual properties need the part `individual`.
fn individual_table_part(object: &Object, individual: Part) -> Part
    requires bytes { individual.bytes < 2 ^ 34 }
    requires value { individual ≡ parts_of true object.now.properties }
    ensures { result ≡ individual_table_part object.now }
{
    if !has_individual(object.properties.as_slice()) {
        return NO_PART;
    }
    Part {
        bytes: individual.bytes + 2,
        later: individual.later,
    }
}

/// Returns the parts that an object needs of the areas: exactly the bytes that are written of it, and those that it counts.
pub fn measured(object: &Object) -> Measure
    requires { object_bytes object.now < 2 ^ 34 }
    ensures value { result ≡ measured object.now }
    ensures table { (part : ℕ) → (length (bytes_of (table_cells part object.now)) ≡ result.table.bytes)
        × (later_count (table_cells part object.now) ≡ result.table.later) }
    ensures individual_table { (length (bytes_of (individual_table_cells object.now)) ≡ result.individual_table.bytes)
        × (later_count (individual_table_cells object.now) ≡ result.individual_table.later) }
    ensures counted { CountedBy object.now.owner object.now result }
{
    measure_by(object, object.properties.as_slice())
}

/// Returns the parts that an object with these properties needs of the areas.
fn measure_by(object: &Object, properties: &[Property]) -> Measure
    requires small { object_bytes object.now < 2 ^ 34 }
    requires properties { properties.now ≡ object.now.properties }
    requires short { are_short properties.now ≡ true }
    ensures { result ≡ measured object.now }
{
    if object.owner != Owner::Object {
        let bytes = 2 + object.name.as_slice().len();
        return Measure {
            table: Part { bytes, later: 0 },
            individual_table: NO_PART,
        };
    }
    Measure {
        table: table_part(object, parts_of(properties, false)),
        individual_table: individual_table_part(object, parts_of(properties, true)),
    }
}
