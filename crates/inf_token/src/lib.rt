//! Sources and their tokens: readers of files, the lexer, and the files that are open.
//!
//! A user of this layer needs no other crate. It shows types and calls of `inf_devices`, `inf_scanner` and `inf_lexer`:
//!
//! - `Files::{open, read, close}`: a reader of sources, whose contract says what an honest one gives; `MemoryFiles::new` is one over
//!   memory. `OpenFault` and `ReadFault` say why a reader refused.
//! - `Stack::new`, with a character set and a limit of quoted tokens; `Stack::{enter_main, enter}` answer the lexer of the file that they
//!   open, or an `EnterFault`; `Stack::leave` closes the innermost; `Stack::{name, innermost}` tell names.
//! - `Lexer::next` answers the next `Token` or a `LexFault`, `Lexer::spelling` the bytes of the last; `Lexer::next_head_word` reads a word
//!   of the source's head. `Stack::{set_characters, choose}` and the calls of a lexer with these names change the character set.
//! - `Token`, `TokenKind`, `Mark`, `DictionaryWord`, `BadToken`, `Place`: what a token is, and where it begins.
#![tactic(auto)]

pub use inf_devices::files::{Files, OpenFault, ReadFault};
pub use inf_devices::memory_files::MemoryFiles;
pub use inf_lexer::{EnterFault, HeadPlace, LexFault, Lexer, Stack};
pub use inf_scanner::{BadToken, DictionaryWord, Mark, Place, Token, TokenKind};
