//! The settings of a compilation: limits on the parts of a source and of a story.
#![tactic(auto)]

pub mod bounds;
mod limits;
pub mod setting;
pub mod settings;
pub mod words;
