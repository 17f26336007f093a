//! Directives that are one unit, and their requests to the reading.
ghost use Rattle.std.specs.Prelude.{◌≡◌, map};
ghost use Rattle.inf_names.specs.Spellings.{as_name};
ghost use Rattle.inf_unit.specs.Directives.{directive_of, weight_of, weight_of_word};

use inf_characters::CharSet;
use inf_names::spellings::Name;
use inf_report::messages::Kind;
use inf_scanner::Place;
use inf_syntax::Keyword;

/// A directive that is carried out by its own function, told by its word.
#[derive(Clone, Copy)]
pub enum Directive {
    Include,
    Message,
    End,
    Constant,
    Replace,
    Stub,
    SystemFile,
    Default,
    Attribute,
    Property,
    Global,
    FakeAction,
    Switches,
    Lowstring,
    Release,
    Serial,
}

/// A request of a finished directive to the reading.
#[derive(Drop)]
pub enum Request {
    Nothing,
    /// Asks to read the file whose name is `text`, for the directive that begins at `unit`.
    Include { text: Vec<u8>, unit: Place },
    /// Asks to end all reading.
    End,
    /// Asks to read the sources by another character set from the next token on.
    Characters(CharSet),
}

/// Returns the directive that begins with `word`.
pub fn directive_of(word: Option<Keyword>) -> Directive
    ensures { result ≡ directive_of word }
{
    match word {
        Some(Keyword::Include) => Directive::Include,
        Some(Keyword::Message) => Directive::Message,
        Some(Keyword::End) => Directive::End,
        Some(Keyword::Constant) => Directive::Constant,
        Some(Keyword::Replace) => Directive::Replace,
        Some(Keyword::Stub) => Directive::Stub,
        Some(Keyword::Default) => Directive::Default,
        Some(Keyword::Attribute) => Directive::Attribute,
        Some(Keyword::Property) => Directive::Property,
        Some(Keyword::Global) => Directive::Global,
        Some(Keyword::FakeAction) => Directive::FakeAction,
        Some(Keyword::Switches) => Directive::Switches,
        Some(Keyword::Lowstring) => Directive::Lowstring,
        Some(Keyword::Release) => Directive::Release,
        Some(Keyword::Serial) => Directive::Serial,
        _ => Directive::SystemFile,
    }
}

/// Returns the weight of a message in the source's own words, by `names`, those behind the directive's word: without one the message is a
/// plain line.
pub fn weight_of(names: &[Name]) -> Option<Kind>
    ensures { result ≡ weight_of (map as_name names.now) }
{
    let name = names.first()?;
    Some(weight_of_word(name.bytes()))
}

fn weight_of_word(word: &[u8]) -> Kind
    ensures { result ≡ weight_of_word word.now }
{
    if word.eq_ignore_ascii_case(b"error") {
        Kind::Error
    } else if word.eq_ignore_ascii_case(b"warning") {
        Kind::Warning
    } else {
        Kind::Fatal
    }
}
