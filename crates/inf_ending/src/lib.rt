//! The end of a compilation: its last messages, its status, its story, and the faults that give it up.
#![tactic(auto)]

pub mod compiled;
pub mod ending;
pub mod faults;
