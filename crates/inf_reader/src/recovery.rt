ghost use Rattle.std.specs.Prelude.{◌≡◌};
ghost use Rattle.inf_reader.specs.Reading.{passed};

use inf_scanner::Mark;
use inf_unit::kinds::{is_end, is_mark};
use inf_unit::tokens::SourceToken;

/// The way in which the next token of a source is read.
#[derive(Clone, Copy)]
pub enum Recovery {
    /// The token is read by the grammar.
    Reads,
    /// The token is passed over, as all of a bad piece are up to the closing bracket of its routine.
    SkipsRoutine,
    /// The token is passed over, as all of a bad piece are up to its semicolon.
    SkipsDirective,
    /// The source has ended.
    Ended,
}

/// Returns the way in which reading goes on behind `token`, which is passed over.
pub fn passed(skip: Recovery, token: &SourceToken<'_>) -> Recovery
    ensures { result ≡ passed skip token.now.kind }
{
    if is_end(token.kind) {
        return Recovery::Ended;
    }
    match skip {
        Recovery::SkipsRoutine if is_mark(token.kind, Mark::CloseBracket) =>
            Recovery::SkipsDirective,
        Recovery::SkipsRoutine => Recovery::SkipsRoutine,
        _ if is_mark(token.kind, Mark::Semicolon) => Recovery::Reads,
        _ => Recovery::SkipsDirective,
    }
}
