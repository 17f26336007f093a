//! The tokens of nested files with their places. A file is seen through a window of at most 4,096 bytes,
//! and is opened and read once for each inclusion.
#![tactic(auto)]

mod enter_faults;
mod faults;
mod head;
mod include_names;
pub mod laws;
mod lexer;
mod stack;
mod window;

pub use enter_faults::EnterFault;
pub use faults::LexFault;
pub use head::HeadPlace;
pub use inf_scanner::{BadToken, DictionaryWord, Mark, Place, Token, TokenKind};
pub use lexer::Lexer;
pub use stack::Stack;
