//! The layout of a story: its areas, the numbers that are known at the end, its header, and what is counted of it.
//!
//! A user of this layer needs no other crate. It shows types and calls of `inf_link` and `inf_story`:
//!
//! - `Link::new` takes `Areas`, the places that are filled at the end, the `Targets` that their numbers are looked up in, and
//!   `HeaderFields`;
//!   `Link::link` answers the `Story` or a `LinkFault`.
//! - `story` does the same with the code, the strings and the tables of a source.
//! - `Story::{as_slice, into_bytes, sizes}` give its bytes and `Sizes`.
//! - `Statistics::tell` writes the ten lines of the statistics, of what `Counts::of` counted of a source and of a story's sizes.
#![tactic(auto)]

pub use inf_link::{Areas, HeaderFields, Link, LinkFault, Scale, Sizes, Story, Targets};
pub use inf_story::{Counts, Statistics, story, values_of};
