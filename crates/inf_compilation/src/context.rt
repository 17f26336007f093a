//! The context that is handed down to all that is compiled.

use inf_lexer::Stack;
use inf_settings::settings::Settings;
use inf_text::CharSet;

/// The context that is handed down to all that is compiled.
#[derive(Clone, Copy)]
pub struct Context<'a> {
    /// The files that were opened, which give places their names.
    pub files: &'a Stack,
    /// The character set of the sources.
    pub set: CharSet,
    pub settings: &'a Settings,
}
