//! Laws of the definitions of texts together. Each function carries a law as its clause, and does
//! nothing.
#![tactic(auto)]

mod laws;

pub use laws::{
    abbreviations_cut_texts, accents_are_spelled, codes_come_back, joined_texts_are_read_joined,
    plain_texts_are_their_bytes,
};
