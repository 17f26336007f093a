//! Messages of a compilation so far, and their places.
ghost use Rattle.std.specs.Prelude.{◌≡◌, IsOk, OnErr, OnOk, option_map};
ghost use Rattle.inf_report.specs.{Meant.located, Meant.meant, Meant.named, Meant.worded, Messages.number_of, Writing.Writes};
ghost use Rattle.inf_expressions.specs.Findings.{error_number};
ghost use Rattle.inf_unit.specs.Diagnostics.{blamed};
ghost use Rattle.inf_unit.specs.Messages.{flushed, location, message_of, none_reported, setting_of, with_closing, with_error, with_fatal};
ghost use Rattle.inf_unit.specs.Messages.{warnings_chosen, with_fault, with_full, with_plain, with_statistic, with_warning, with_words};

use inf_assembler::Limit as CodeLimit;
use inf_devices::memory_sink::MemorySink;
use inf_devices::sinks::{Sink, write_whole};
use inf_expressions::UnitError;
use inf_lexer::{Place, Stack};
use inf_report::messages::{FixedLimit, Kind, Location, Message, Told};
use inf_report::own_words::OwnWords;
use inf_report::report::{Report, ReportFault};
use inf_settings::setting::Setting;
use std::alloc::{AllocError, Global};
use std::marker::Model;

/// A message at a place.
#[derive(Clone, Copy)]
pub struct Diagnostic<'a> {
    pub place: Place,
    pub message: Message<'a>,
}

/// Number of the file that the routines of the veneer are: no file of a source has it.
pub const VENEER_FILE: u16 = u16::MAX;

/// Returns the line of `place`, by the name under which its file was opened, or as a line of the veneer.
pub fn location(files: &Stack, place: Place) -> Location<'_>
    ensures { located result ≡ location files.now.names place }
{
    if place.file == VENEER_FILE {
        return Location::veneer(place.line);
    }
    let file = match files.name(place.file) {
        Some(name) => name.as_bytes(),
        None => b"",
    };
    Location {
        file,
        line: place.line,
    }
}

/// Returns the message of `error` at a token, which messages name as `token` and which has these bytes.
///
/// A token does not show where a name was declared first, nor of what there are too many: these two errors are told where it is known. Here
/// the name is one of the language, and there are too many values.
#[tactic(auto, unfolding(crate::specs::Messages::message_of, inf_expressions::specs::Findings::error_number))]
pub fn message_of<'t>(error: UnitError, token: Told<'t>, bytes: &'t [u8]) -> Message<'t>
    ensures message { meant result ≡ message_of error (named token.entry) bytes.now }
    ensures number { number_of (meant result) ≡ error_number error }
{
    match error {
        UnitError::NumberOutOfRange => Message::NumberOutOfRange,
        UnitError::UnknownEscape => Message::UnknownEscape,
        UnitError::NoZscii => Message::NoZscii,
        UnitError::Declared => Message::SystemName(bytes),
        UnitError::WrongKind => Message::WrongKind(token),
        UnitError::UsedBefore => Message::UsedBefore(bytes),
        UnitError::NotConstant => Message::NotConstant,
        UnitError::ConstantOutOfRange => Message::ConstantOutOfRange,
        UnitError::TooManyArguments => Message::TooManyArguments,
        UnitError::WrongOpcode => Message::WrongOpcode(bytes),
        UnitError::LabelTwice => Message::LabelTwice(bytes),
        UnitError::NothingToLeave => Message::NothingToLeave,
        UnitError::TooMany => Message::TooMany(FixedLimit::Values),
        UnitError::MisplacedSwitches => Message::MisplacedSwitches,
        UnitError::WrongAbbreviation => Message::WrongAbbreviation,
        UnitError::WrongVerb => Message::WrongVerb(token),
        UnitError::MisplacedDefault => Message::MisplacedDefault,
    }
}

/// Returns the setting of the limit `full` of code.
pub fn setting_of(full: CodeLimit) -> Setting
    ensures { result ≡ setting_of full }
{
    match full {
        CodeLimit::Labels => Setting::Labels,
        CodeLimit::Code => Setting::Code,
        CodeLimit::Refs => Setting::References,
    }
}

/// Lines of the messages so far, and the counts of the messages in them.
///
/// Each call adds its line, or refuses where no memory was left: a part of the line may then stand there.
#[derive(Drop)]
pub struct Diagnostics {
    report: Report,
    lines: MemorySink,
}

impl Model for Diagnostics {
    ghost use Rattle.inf_unit.specs.Messages.{Reported};

    ghost Value = { Reported };

    ghost view = { λ m. record { lines = m.lines.bytes; counts = m.report } };
}

impl Diagnostics {
    /// Makes messages of which none was told yet; warnings will be told if `has_warnings`. Memory is taken only when something is told.
    pub fn new(alloc: Global, has_warnings: bool) -> Diagnostics
        ensures { result ≡ none_reported has_warnings }
    {
        Diagnostics {
            report: Report::new(has_warnings),
            lines: MemorySink::new(alloc),
        }
    }

    /// Has warnings told from now on, or neither told nor counted, as `has_warnings` says. What was told stays.
    pub fn set_warnings(&mut self, has_warnings: bool)
        ensures { self.new ≡ warnings_chosen has_warnings self.old }
    {
        self.report.set_warnings(has_warnings);
    }

    /// Returns the number of errors that were told.
    pub fn errors(&self) -> u32
        ensures { result ≡ self.now.counts.errors }
    {
        self.report.errors()
    }

    /// Returns whether a fatal error has ended the compilation.
    pub fn is_over(&self) -> bool
        ensures { result ≡ self.now.counts.is_over }
    {
        self.report.is_over()
    }

    /// Tells `message` as an error at `at`, of a unit that begins at `unit`. The hundredth error is followed by a fatal error at `unit`.
    /// Nothing is told behind a fatal error.
    pub fn error(
        &mut self,
        at: Location<'_>,
        unit: Location<'_>,
        message: &Message<'_>,
    ) -> Result<(), AllocError>
        ensures { OnOk result (self.new ≡ with_error (located at.entry) (located unit.entry) (meant message.now) self.old) }
    {
        written(self.report.error(&mut self.lines, at, unit, message))
    }

    /// Tells `fault`, if there is one, as the error of a unit that begins at `unit`.
    pub fn fault(
        &mut self,
        files: &Stack,
        unit: Place,
        fault: Option<Diagnostic<'_>>,
    ) -> Result<(), AllocError>
        ensures { OnOk result (self.new ≡ with_fault files.now.names unit (option_map blamed fault.entry) self.old) }
    {
        match fault {
            Some(blame) => self.error(
                location(files, blame.place),
                location(files, unit),
                &blame.message,
            ),
            None => Ok(()),
        }
    }

    /// Tells `message` as a warning at `at`, unless a fatal error came before.
    pub fn warning(&mut self, at: Location<'_>, message: &Message<'_>) -> Result<(), AllocError>
        ensures { OnOk result (self.new ≡ with_warning (located at.entry) (meant message.now) self.old) }
    {
        written(self.report.warning(&mut self.lines, at, message))
    }

    /// Tells `message` as a fatal error at `at`, unless one came before.
    pub fn fatal(&mut self, at: Location<'_>, message: &Message<'_>) -> Result<(), AllocError>
        ensures { OnOk result (self.new ≡ with_fatal (located at.entry) (meant message.now) self.old) }
    {
        written(self.report.fatal(&mut self.lines, at, message))
    }

    /// Tells `words`, those of the source itself, in a line of their own, unless a fatal error came before.
    pub fn plain(&mut self, words: OwnWords<'_>) -> Result<(), AllocError>
        ensures { OnOk result (self.new ≡ with_plain (worded words.entry) self.old) }
    {
        written(self.report.plain(&mut self.lines, words))
    }

    /// Tells `words`, those of the source itself, of a unit that begins at `at`: as the error, warning or fatal error that `weight` is, or
    /// as a plain line where there is none.
    pub fn words(
        &mut self,
        at: Location<'_>,
        weight: Option<Kind>,
        words: OwnWords<'_>,
    ) -> Result<(), AllocError>
        ensures { OnOk result (self.new ≡ with_words (located at.entry) weight (worded words.entry) self.old) }
    {
        match weight {
            None => self.plain(words),
            Some(Kind::Error) => self.error(at, at, &Message::ErrorText(words)),
            Some(Kind::Warning) => self.warning(at, &Message::WarningText(words)),
            Some(Kind::Fatal) => self.fatal(at, &Message::FatalText(words)),
        }
    }

    /// Ends the compilation by a fatal error at `unit`, where a unit begins that would pass the setting `full`, if there is one.
    pub fn full(
        &mut self,
        files: &Stack,
        unit: Place,
        full: Option<Setting>,
    ) -> Result<(), AllocError>
        ensures { OnOk result (self.new ≡ with_full files.now.names unit full self.old) }
    {
        match full {
            Some(setting) => self.fatal(location(files, unit), &Message::Exceeded(setting)),
            None => Ok(()),
        }
    }

    /// Tells a line of the statistics, with `word` and its `number`, unless a fatal error came before.
    pub fn statistic(&mut self, word: &str, number: u64) -> Result<(), AllocError>
        ensures { OnOk result (self.new ≡ with_statistic word.now number self.old) }
    {
        written(self.report.statistic(&mut self.lines, word, number))
    }

    /// Tells the last line, unless a fatal error came before.
    pub fn close(&mut self) -> Result<(), AllocError>
        ensures { OnOk result (self.new ≡ with_closing self.old) }
    {
        written(self.report.close(&mut self.lines))
    }

    /// Writes the lines to a sink, each once; then there are none.
    ///
    /// The only error is that the sink failed: it took a front of them that is not all.
    pub fn flush<M: Sink>(&mut self, to: &mut M) -> Result<(), ReportFault>
        ensures writes { Writes (M.taken to.old) (M.taken to.new) (M.failures to.old) (M.failures to.new) self.old.lines result }
        ensures none { OnOk result (self.new ≡ flushed self.old) }
        ensures err { OnErr result (self.new ≡ self.old) }
    {
        if self.lines.bytes().is_empty() {
            return Ok(());
        }
        write_lines(to, self.lines.bytes())?;
        self.lines.clear();
        Ok(())
    }

    /// Returns the lines, and gives up the rest.
    pub fn into_lines(self) -> Vec<u8>
        ensures { result.items ≡ self.lines }
    {
        self.lines.into_bytes()
    }
}

/// Writes all of `lines` to `to`.
fn write_lines<M: Sink>(to: &mut M, lines: &[u8]) -> Result<(), ReportFault>
    ensures { Writes (M.taken to.old) (M.taken to.new) (M.failures to.old) (M.failures to.new) lines.now result }
{
    match write_whole(to, lines) {
        Ok(()) => Ok(()),
        Err(_count) => Err(ReportFault::Write),
    }
}

/// Returns the outcome of a call that told something in memory: it fails only where no memory was left.
fn written(told: Result<(), ReportFault>) -> Result<(), AllocError>
    ensures { OnOk result (IsOk told) }
{
    match told {
        Ok(()) => Ok(()),
        Err(ReportFault::Write) => Err(AllocError),
    }
}
