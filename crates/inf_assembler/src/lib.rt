//! The assembler: routines of the Z-machine that are written as they are read.
//!
//! A `Routine` is opened at the end of an area, takes instructions and label marks, and is closed. Each instruction is
//! written at once: a branch takes two bytes, and offsets and numbers that are known later are zero. The routine itself
//! keeps only the places of labels, branches, jumps and references. `close` finds the branches that fit in one byte, moves
//! the bytes together, writes the offsets, and lists the references.
//!
//! The formats are those of the Z-Machine Standard 1.1, sections 4, 5 and 14. In `specs/` a routine is a list of cells:
//! `Places` has their places and their bytes in a closed routine, `Closing` computes these from the entries that a routine
//! keeps, and `Routines` defines an open routine and the effect of each call.
#![tactic(auto)]

mod closing;
mod routines;

pub use routines::{CloseFault, Closed, GrowFault, Limit, Limits, Mark, Routine, RoutineKind};
