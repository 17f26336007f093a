//! The letters of a command, of the head of a source and of the directive `Switches`, and their choices, matter by
//! matter (Inform Designer's Manual, fourth edition, section 39).
#![tactic(auto)]

mod letters;

pub use letters::Letters;
