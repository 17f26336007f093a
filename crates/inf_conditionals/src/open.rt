//! Sides that are left out.

/// A side that is left out.
#[derive(Clone, Copy)]
pub struct LeftOut {
    /// Tells whether its conditional was opened inside the directive at hand.
    pub is_inner: bool,
    /// The number of conditionals that are open in the side.
    pub levels: u32,
}
