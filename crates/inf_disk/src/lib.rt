//! The devices of the system: files that are read, an output, and the file of a story.
#![tactic(auto)]

pub mod disk;
