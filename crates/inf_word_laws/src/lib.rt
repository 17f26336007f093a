//! Laws of the words and names that a source uses: each word stands in the dictionary of its story, and each name among its names. Each
//! function carries a law as its clause, and does nothing.
#![tactic(auto)]

mod laws;

pub use laws::{
    names_are_found, operands_stand_for_names, operands_stand_for_words, steps_keep_words,
    used_words_stand,
};
