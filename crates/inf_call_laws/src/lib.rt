//! Laws of the calls that read a text by itself: what text they read, what they lay for it, and where they read on behind a bad token. Each
//! function carries a law as its clause, and does nothing.
#![tactic(auto)]

mod laws;

pub use laws::{bad_tokens_of_texts, expressions_are_laid_alone, texts_are_read_alone};
