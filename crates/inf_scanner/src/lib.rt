//! Tokens byte by byte: the step that each byte of a source makes, and the kind of a token by its bytes.
#![tactic(auto)]

mod kinds;
pub mod laws;
mod lines;
mod marks;
mod scanner;
mod spelling;
mod tokens;

pub use kinds::kind_of;
pub use lines::Lines;
pub use scanner::{ByteStep, Ending, Seen, State, Turn};
pub use spelling::Spelling;
pub use tokens::{BadToken, DictionaryWord, Mark, Place, Token, TokenKind};
