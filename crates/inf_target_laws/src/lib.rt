//! Laws of targets: names, words and parts to which a story refers are found. A function carries the law as its clause, and does nothing.
#![tactic(auto)]

mod laws;

pub use laws::{steps_keep_targets, stories_are_whole, targets_stand};
