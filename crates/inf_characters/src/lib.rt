//! The characters of a text: ZSCII, the two character sets of a source, escapes, and the texts that are read from a source's bytes
//! (Z-Machine Standard 1.1, section 3.8; Inform Designer's Manual, section 1.11).
#![tactic(auto)]

mod characters;
mod escapes;
mod numbers;
mod reading;
mod runs;
mod texts;

pub use characters::{CharSet, Zscii, is_line_end, is_white, source_char};
pub use reading::{Mode, TextFault, are_plain, read_text};
pub use texts::{Text, TextItem};
