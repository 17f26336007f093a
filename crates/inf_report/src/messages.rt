//! The messages of a compilation, in one table.
ghost use Rattle.std.specs.Prelude.{◌≡◌};
ghost use Rattle.inf_report.specs.{Meant.located, Meant.meant, Meant.named, Wordings.said};
ghost use Rattle.inf_report.specs.Messages.{kind_of, most, number_of, severity, text, veneer_line};

use crate::own_words::OwnWords;
use crate::wordings::Wording;
use inf_settings::setting::Setting;

/// The weight of a message.
#[derive(Clone, Copy, Debug, PartialEq, Eq)]
pub enum Kind {
    /// An error: no story is written.
    Error,
    Warning,
    /// A fatal error: nothing behind its place is read, and no story is written.
    Fatal,
}

/// A line of a file, by the name under which it was opened.
#[derive(Clone, Copy)]
pub struct Location<'a> {
    pub file: &'a [u8],
    pub line: u32,
}

/// A token as a message names it.
#[derive(Clone, Copy)]
pub enum Told<'a> {
    /// The token is shown by the bytes that the source has for it.
    Bytes(&'a [u8]),
    /// The token, in single quotes, is shown by the bytes between them.
    Quote(&'a [u8]),
    /// A text, whatever its bytes are.
    Text,
    /// The end of a file.
    End,
}

/// A kind of things of which there is a fixed limit.
#[derive(Clone, Copy)]
pub enum FixedLimit {
    /// The locals of a routine.
    Locals,
    /// The global variables.
    Globals,
    /// The attributes that a source declares.
    Attributes,
    /// The declared properties.
    Properties,
    /// The values of a property.
    Values,
    /// The abbreviations that a source declares.
    Abbreviations,
    /// The verbs that a source declares.
    Verbs,
}

/// A message. Names are as the source spells them at the message's place.
#[derive(Clone, Copy)]
pub enum Message<'a> {
    /// A token that fits nowhere.
    Syntax(Told<'a>),
    /// A byte that begins no token.
    IllegalCharacter,
    /// A text or a quote without its end, or a quote of nothing.
    UnclosedQuote,
    /// A number, or a code in a text, that is out of range.
    NumberOutOfRange,
    /// A text in which `@` begins no escape.
    UnknownEscape,
    /// A name of more than 32 characters.
    LongName,
    /// A character that a story cannot print.
    NoZscii,
    /// A name that was declared before, and where.
    Declared(&'a [u8], Location<'a>),
    /// A name that the language has from the start.
    SystemName(&'a [u8]),
    /// A token that names something that is not allowed there.
    WrongKind(Told<'a>),
    /// A name that is used, and declared nowhere.
    Undeclared(&'a [u8]),
    /// A name that is declared behind a use that must not come before.
    UsedBefore(&'a [u8]),
    /// A value that is not known where it has to be.
    NotConstant,
    /// A known number that is not allowed there.
    ConstantOutOfRange,
    /// A call of too many arguments.
    TooManyArguments,
    /// An instruction that is unknown, or whose operands do not fit.
    WrongOpcode(&'a [u8]),
    /// A label that is used and not given.
    LabelMissing(&'a [u8]),
    /// A label that is given again.
    LabelTwice(&'a [u8]),
    /// A `break` or `continue` outside of what it leaves or continues.
    NothingToLeave,
    /// A branch or jump over too many bytes.
    BranchTooFar,
    /// One more of a kind than there can be.
    TooMany(FixedLimit),
    /// Switches behind another directive, or unknown ones.
    MisplacedSwitches,
    /// A text that cannot be declared as an abbreviation.
    WrongAbbreviation,
    /// A word that is a verb already, or that is none where one is needed.
    WrongVerb(Told<'a>),
    /// A source without the routine where its story begins.
    NoMain,
    /// A case behind the default.
    MisplacedDefault,
    /// An error in the source's own words.
    ErrorText(OwnWords<'a>),
    /// A conditional directive without its other end.
    LoneConditional,
    /// A local variable that nothing names.
    UnusedLocal(&'a [u8]),
    /// A warning in the source's own words.
    WarningText(OwnWords<'a>),
    /// More than a setting allows.
    Exceeded(Setting),
    /// An included file that is not there, as the source names it.
    NoInclude(&'a [u8]),
    /// One file more inside 16 others.
    TooManyFiles,
    /// A fatal error in the source's own words.
    FatalText(OwnWords<'a>),
    /// The error before this was the hundredth.
    TooManyErrors,
    /// The code would begin behind the memory that can be read.
    ReadableTooLong,
    /// A story of more bytes than this.
    StoryTooLong(u32),
    /// A main source that is not there, with its extension.
    NoSource(&'a [u8]),
    /// One nesting more inside 64 others.
    DeepNesting,
}

impl Location<'static> {
    /// Returns the line `line` of the veneer, the compiler's own routines, which messages name as a file `veneer`.
    pub fn veneer(line: u32) -> Location<'static>
        ensures { located result ≡ veneer_line line }
    {
        Location {
            file: b"veneer",
            line,
        }
    }
}

impl Kind {
    /// Returns the words between the place and the text of a message.
    pub(crate) fn severity(self) -> &'static [u8]
        ensures { result.now ≡ severity self }
    {
        match self {
            Kind::Error => b": Error: ",
            Kind::Warning => b": Warning: ",
            Kind::Fatal => b": Fatal error: ",
        }
    }
}

impl FixedLimit {
    /// Returns the most that there can be, with the name of the kind.
    fn most(self) -> &'static [u8]
        ensures { result.now ≡ most self }
    {
        match self {
            FixedLimit::Locals => b"15 locals",
            FixedLimit::Globals => b"235 globals",
            FixedLimit::Attributes => b"48 attributes",
            FixedLimit::Properties => b"60 properties",
            FixedLimit::Values => b"32 values",
            FixedLimit::Abbreviations => b"64 abbreviations",
            FixedLimit::Verbs => b"255 verbs",
        }
    }
}

impl<'a> Message<'a> {
    /// Returns the kind of the message.
    pub fn kind(&self) -> Kind
        ensures { result ≡ kind_of (meant self.now) }
    {
        match self {
            Message::UnusedLocal(_) | Message::WarningText(_) => Kind::Warning,
            Message::Exceeded(_)
            | Message::NoInclude(_)
            | Message::TooManyFiles
            | Message::FatalText(_)
            | Message::TooManyErrors
            | Message::ReadableTooLong
            | Message::StoryTooLong(_)
            | Message::NoSource(_)
            | Message::DeepNesting => Kind::Fatal,
            _ => Kind::Error,
        }
    }

    /// Returns the number of the message among those of its kind, from 1 on. Of several errors of a unit at one place
    /// the one with the least number is reported.
    pub fn number(&self) -> u8
        ensures { result ≡ number_of (meant self.now) }
    {
        match self {
            Message::Syntax(_) | Message::UnusedLocal(_) | Message::Exceeded(_) => 1,
            Message::IllegalCharacter | Message::WarningText(_) | Message::NoInclude(_) => 2,
            Message::UnclosedQuote | Message::TooManyFiles => 3,
            Message::NumberOutOfRange | Message::FatalText(_) => 4,
            Message::UnknownEscape | Message::TooManyErrors => 5,
            Message::LongName | Message::ReadableTooLong => 6,
            Message::NoZscii | Message::StoryTooLong(_) => 7,
            Message::Declared(_, _) | Message::SystemName(_) | Message::NoSource(_) => 8,
            Message::WrongKind(_) | Message::DeepNesting => 9,
            Message::Undeclared(_) => 10,
            Message::UsedBefore(_) => 11,
            Message::NotConstant => 12,
            Message::ConstantOutOfRange => 13,
            Message::TooManyArguments => 14,
            Message::WrongOpcode(_) => 15,
            Message::LabelMissing(_) | Message::LabelTwice(_) => 16,
            Message::NothingToLeave => 17,
            Message::BranchTooFar => 18,
            Message::TooMany(_) => 19,
            Message::MisplacedSwitches => 20,
            Message::WrongAbbreviation => 21,
            Message::WrongVerb(_) => 22,
            Message::NoMain => 23,
            Message::MisplacedDefault => 24,
            Message::ErrorText(_) => 25,
            Message::LoneConditional => 26,
        }
    }

    /// Returns the wording of the message.
    pub(crate) fn wording(&self) -> Wording<'a>
        ensures { said result ≡ text (meant self.now) }
    {
        match *self {
            Message::Syntax(token) => Wording::of_token(b"Syntax error at ", token),
            Message::IllegalCharacter => Wording::only(b"Illegal character"),
            Message::UnclosedQuote => Wording::only(b"Unclosed or empty quote"),
            Message::NumberOutOfRange => Wording::only(b"Number out of range"),
            Message::UnknownEscape => Wording::only(b"Unknown escape"),
            Message::LongName => Wording::only(b"Name longer than 32"),
            Message::NoZscii => Wording::only(b"No ZSCII character"),
            Message::Declared(name, location) => Wording::Declared(name, location),
            Message::SystemName(name) => Wording::of_name(b"\"", name, b" is a system name"),
            Message::WrongKind(token) => Wording::of_token(b"Wrong kind: ", token),
            Message::Undeclared(name) => Wording::of_name(b"\"", name, b" was never declared"),
            Message::UsedBefore(name) => Wording::of_name(
                b"\"",
                name,
                b" was used before its declaration",
            ),
            Message::NotConstant => Wording::only(b"Not a constant known here"),
            Message::ConstantOutOfRange => Wording::only(b"Constant out of range"),
            Message::TooManyArguments => Wording::only(b"Too many arguments"),
            Message::WrongOpcode(name) => Wording::about(
                b"Wrong opcode or operands: \"",
                name,
                b"\"",
            ),
            Message::LabelMissing(name) => Wording::of_name(b"Label \"", name, b" is missing"),
            Message::LabelTwice(name) => Wording::of_name(b"Label \"", name, b" is given twice"),
            Message::NothingToLeave => Wording::only(b"No loop or switch to leave or continue"),
            Message::BranchTooFar => Wording::only(b"Branch too far"),
            Message::TooMany(what) => Wording::about(b"More than ", what.most(), b""),
            Message::MisplacedSwitches => Wording::only(
                b"Switches must come first and hold known switches",
            ),
            Message::WrongAbbreviation => Wording::only(
                b"Abbreviation late, repeated or too short",
            ),
            Message::WrongVerb(token) => Wording::of_token(b"Wrong verb: ", token),
            Message::NoMain => Wording::only(b"No routine \"Main\""),
            Message::MisplacedDefault => Wording::only(b"default must come once and last"),
            Message::ErrorText(words) => Wording::Own(words),
            Message::LoneConditional => Wording::only(b"Conditional without its other end"),
            Message::UnusedLocal(name) => Wording::of_name(b"Local \"", name, b" is unused"),
            Message::WarningText(words) => Wording::Own(words),
            Message::Exceeded(setting) => Wording::about(
                b"",
                setting.name().as_bytes(),
                b" is exceeded",
            ),
            Message::NoInclude(name) => Wording::about(b"No file \"", name, b"\""),
            Message::TooManyFiles => Wording::only(b"More than 16 files open"),
            Message::FatalText(words) => Wording::Own(words),
            Message::TooManyErrors => Wording::only(b"Too many errors"),
            Message::ReadableTooLong => Wording::only(b"Readable memory is over 65534 bytes"),
            Message::StoryTooLong(bytes) => Wording::StoryOver(bytes),
            Message::NoSource(name) => Wording::about(b"No file \"", name, b"\""),
            Message::DeepNesting => Wording::only(b"Nesting over 64"),
        }
    }
}
