//! The dictionary of a story (Z-Machine Standard 1.1, section 13).
//!
//! A `Dictionary` is made of the uses of words in a source, in any order. A word is known by its six bytes of text, which
//! `inf_text::dict_word` makes. `write` appends the dictionary to an area; `Places` then has the place of each word in it.
#![tactic(auto)]

mod dictionary;
mod laws;
mod places;
mod uses;

pub use dictionary::{AddFault, Dictionary};
pub use laws::{texts_rise, word_at_its_place, word_is_found, word_of_all_uses};
pub use places::Places;
pub use uses::{Word, WordUse};
