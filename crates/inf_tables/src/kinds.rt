//! Bounds, declared properties, parents and areas of a world.

use inf_area::{AreaName, Value};

/// The most objects and bytes that a world may have.
#[derive(Clone, Copy)]
pub struct Limits {
    /// Number of objects, the first four counted in.
    pub objects: u32,
    /// Number of bytes of property tables and individual tables, with two for each value that a class holds.
    pub property_bytes: u32,
}

/// A property that was declared.
#[derive(Clone, Copy)]
pub struct DeclaredProperty {
    /// Whether the values of classes come behind an object's own.
    pub is_additive: bool,
    /// The property's value for an object that does not give it.
    pub default: Value,
}

/// The parent of an object, as its header names it.
#[derive(Clone, Copy)]
pub enum Parent {
    /// The object of a number; 0 is no parent.
    Object(usize),
    /// The latest object that has one arrow less than this number of arrows. An object without arrows has no parent.
    Arrows(usize),
}

impl Parent {
    ghost use Rattle.std.specs.Prelude.{◌≡◌};
    ghost use Rattle.inf_tables.specs.Objects.{arrows_of};

    /// Returns the number of arrows that name this parent; 0 for a parent that is named by its number.
    pub(crate) fn arrows(self) -> usize
        ensures { result ≡ arrows_of self }
    {
        match self {
            Parent::Object(_) => 0,
            Parent::Arrows(count) => count,
        }
    }
}

/// An area that a world becomes.
#[derive(Clone, Copy)]
pub enum WorldArea {
    /// The values of properties for objects that do not give them.
    PropertyDefaults,
    /// The entries of the objects: attributes, and the tree.
    Objects,
    PropertyTables,
    ClassNumbers,
    IndividualTables,
}

impl WorldArea {
    ghost use Rattle.std.specs.Prelude.{◌≡◌};
    ghost use Rattle.inf_tables.specs.Areas.{name_of};

    /// Returns the name of this area in the story.
    pub fn name(self) -> AreaName
        ensures { result ≡ name_of self }
    {
        match self {
            WorldArea::PropertyDefaults => AreaName::PropertyDefaults,
            WorldArea::Objects => AreaName::Objects,
            WorldArea::PropertyTables => AreaName::PropertyTables,
            WorldArea::ClassNumbers => AreaName::ClassNumbers,
            WorldArea::IndividualTables => AreaName::IndividualTables,
        }
    }
}
