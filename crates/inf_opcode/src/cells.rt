//! The parts of an open routine that are no plain bytes.

use crate::instructions::{Branch, Label};
use inf_area::Target;

/// A part of a routine that is no plain byte.
#[derive(Clone, Copy)]
pub enum Special {
    /// A label that marks the place and takes no bytes.
    Marks(Label),
    /// A branch, of two bytes while the routine is open.
    Branches(Branch),
    /// The offset to a label in two bytes.
    Jumps(Label),
    /// A number that is known later, in two bytes.
    Refers(Target),
}

/// A special part with its place in the area.
#[derive(Clone, Copy)]
pub struct Kept {
    pub place: usize,
    pub what: Special,
}
