//! Laws of the settings: counts that are compared with them where an expression or a unit has ended keep to them. A function carries
//! the law as its clause, and does nothing, or returns the counts of which it speaks.
#![tactic(auto)]

mod laws;

pub use laws::{
    abbreviations_stay, counts_keep_to_settings, held_keeps_to_settings, states_come_behind,
    steps_keep_counts,
};
