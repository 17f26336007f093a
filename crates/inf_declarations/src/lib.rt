//! Declarations: arrays with their entries, global variables, attributes and properties.
#![tactic(auto)]

pub mod arrays;
pub mod attributes;
pub mod globals;
pub mod properties;
