//! The numbers of the first objects and properties, and the most properties that may be declared.

/// Number of objects that are there from the start: `Class`, `Object`, `Routine` and `String`.
pub(crate) const SYSTEM_OBJECTS: usize = 4;

/// Number of bytes of the property tables of these four objects.
pub(crate) const SYSTEM_BYTES: usize = 30;

/// Number of the object `Class`, whose children all classes are.
pub(crate) const CLASS: usize = 1;

pub(crate) const MOST_PROPERTIES: usize = 60;

/// Number of the property `name`, which every object may give: its dictionary words.
pub(crate) const NAME: usize = 1;

/// The number of the first property that is declared, and of the first individual one.
pub(crate) const FIRST_DECLARED: usize = 4;

pub(crate) const FIRST_INDIVIDUAL: usize = 64;
