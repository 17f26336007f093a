//! A file that waits for one that it includes.

use inf_lexer::Lexer;
use inf_scanner::Place;

/// A conditional that is open.
#[derive(Clone, Copy)]
pub struct Conditional {
    /// The place where its directive begins.
    pub place: Place,
    /// Tells whether its second side has begun.
    pub is_second: bool,
}

/// A file that waits for one that it includes, with all that is needed to go on in it.
#[derive(Drop)]
pub struct OpenFile {
    pub lexer: Lexer,
    /// The conditionals that were opened between its directives, the latest last.
    pub conditionals: Vec<Conditional>,
    /// Tells whether its routines may be replaced.
    pub is_system: bool,
}
