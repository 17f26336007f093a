//! Directives that are one unit, and that declare no array, variable, attribute or property.
#![tactic(auto)]

pub mod abbreviations;
pub mod directives;
pub mod headers;
pub mod switches;
