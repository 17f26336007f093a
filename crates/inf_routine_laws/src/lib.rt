//! Laws of the labels of routines: none is missing but such as have names, and none is marked twice. Each function carries a law as its
//! clause, and does nothing.
#![tactic(auto)]

mod laws;

pub use laws::routines_have_their_labels;
