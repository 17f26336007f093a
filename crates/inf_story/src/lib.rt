//! The story of a source without an error: its tables as areas, the values of its names, its header, and the bytes or
//! the reason why there are none (Z-Machine Standard 1.1, sections 1 and 11).
#![tactic(auto)]

mod laws;
mod names;
mod statistics;
mod stories;
mod tables;

pub use inf_link::{LinkFault, Sizes, Story};
pub use laws::tables_are_plain;
pub use names::values_of;
pub use statistics::{Counts, Statistics};
pub use stories::story;
