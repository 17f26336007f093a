ghost use Rattle.std.specs.Prelude.{◌≡◌};
ghost use Rattle.inf_reader.specs.Tests.{complaint_of, message_of};
ghost use Rattle.inf_unit.specs.Spelled.{spelled};
ghost use Rattle.inf_report.specs.Meant.{meant};

use inf_report::messages::Message;
use inf_scanner::{BadToken, TokenKind};
use inf_settings::setting::Setting;
use inf_unit::tokens::SourceToken;

/// Returns the message about a bad token.
fn message_of(bad: BadToken) -> Message<'static>
    ensures { meant result ≡ message_of bad }
{
    match bad {
        BadToken::Unfit => Message::IllegalCharacter,
        BadToken::Unclosed | BadToken::EmptyQuote => Message::UnclosedQuote,
        BadToken::Number | BadToken::BadCode => Message::NumberOutOfRange,
        BadToken::LongName => Message::LongName,
        BadToken::UnknownEscape => Message::UnknownEscape,
        BadToken::NoZscii => Message::NoZscii,
        BadToken::TooLong => Message::Exceeded(Setting::QuotedText),
    }
}

/// Returns the message of the bad token of a piece: its own fault, or that it fits nowhere.
pub fn complaint_of<'t>(token: &SourceToken<'t>) -> Message<'t>
    ensures { meant result ≡ complaint_of (spelled token.now) }
{
    match token.kind {
        TokenKind::Bad(bad) => message_of(bad),
        _ => Message::Syntax(token.told()),
    }
}
