//! The language by its pieces: the effect of tokens that are a text of the grammar as a whole, with no machine that reads
//! them one by one. Each function carries a law as its clause, and does nothing.
#![tactic(auto)]

mod laws;

pub use laws::{
    expressions_are_gathered, headers_have_their_locals, headers_note_their_names,
    texts_do_their_actions, units_are_read_alone, units_are_sifted_alone, units_name_their_locals,
};
