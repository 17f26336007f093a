//! Objects and classes: their headers, and the entries in their bodies.
#![tactic(auto)]

pub mod bodies;
mod effects;
pub mod headers;
pub mod objects;
pub mod short_names;
pub mod values;
