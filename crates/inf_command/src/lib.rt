//! The words of a command and their choices, the names of the files, and the date of a story.
#![tactic(auto)]

pub mod command_line;
pub mod dates;
mod directories;
pub mod head;
pub mod laws;
mod letters;
pub mod spoken;
mod taken;
