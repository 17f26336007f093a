//! The texts of a story: packed strings with abbreviations, and dictionary words (Z-Machine Standard
//! 1.1, section 3). The characters of texts and their escapes come from `inf_characters`.
#![tactic(auto)]

mod abbreviation;
mod dictionary;
mod index;
mod packer;
mod packing;
mod zchars;

pub use abbreviation::{AbbrevFault, Abbreviations};
pub use dictionary::dict_word;
pub use inf_characters::{
    CharSet, Mode, Text, TextFault, TextItem, Zscii, are_plain, read_text, source_char,
};
pub use packing::{pack, packed_len};
