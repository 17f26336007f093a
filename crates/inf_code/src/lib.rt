//! The code of a story: its finished routines, with the places of numbers that are known later, and the open routine
//! (Z-Machine Standard 1.1, sections 4 and 5).
#![tactic(auto)]

pub mod code;
