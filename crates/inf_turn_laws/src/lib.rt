//! The turns through a piece: that they do what the text of the piece says, and that they lay routines whole; and pieces that are directives
//! of one unit, or routines, which do what their trees do. Each function carries a law as its clause, and does nothing.
#![tactic(auto)]

mod laws;

pub use laws::{
    pieces_do_their_actions, pieces_do_their_directives, pieces_do_their_routines,
    turns_read_routines_whole, unused_locals_are_warned,
};
