//! The report of a compilation, which writes each message as it comes.
ghost use Rattle.std.specs.Prelude.{◌≡◌, OnOk, OnErr};
ghost use Rattle.inf_report.specs.{Meant.located, Meant.meant, Meant.worded, Writing.Writes};
ghost use Rattle.inf_report.specs.Reports.{closing_lines, error_lines, fatal_lines, no_counts, plain_lines, statistic_lines, warning_lines};
ghost use Rattle.inf_report.specs.Reports.{with_error, with_fatal, with_warning};

use crate::lines::{write_closing, write_last, write_line, write_plain};
use crate::messages::{Kind, Location, Message};
use crate::own_words::OwnWords;
pub use crate::pieces::ReportFault;
use crate::pieces::write_pieces;
use inf_devices::sinks::Sink;
use itoa::Buffer;
use std::marker::Model;

/// The error with this number is the last.
const MOST_ERRORS: u32 = 100;

/// The numbers of errors and warnings that were reported, and whether a fatal error has ended the report: nothing is
/// written behind it. The count of warnings stops at its last value.
///
/// Each call writes its line to a sink, and allocates nothing. It returns an error only where the sink failed in the
/// call: then a part of the line may be out, and the counts are as they were.
#[derive(Drop)]
pub struct Report {
    errors: u32,
    warnings: u64,
    is_over: bool,
    has_warnings: bool,
}

impl Model for Report {
    ghost use Rattle.std.specs.Prelude.{◌≡◌, ◌<◌, false};
    ghost use Rattle.inf_report.specs.Reports.{Counts};

    ghost Value = { Counts };

    ghost view = { λ r. record { errors = r.errors; warnings = r.warnings; is_over = r.is_over; has_warnings = r.has_warnings } };

    ghost invariant = { λ r. r.is_over ≡ false → r.errors < 100 };
}

impl Report {
    /// Returns a report of no messages yet. `has_warnings` says whether warnings are reported: else they are not counted either.
    pub fn new(has_warnings: bool) -> Report
        ensures { result ≡ no_counts has_warnings }
    {
        Report {
            errors: 0,
            warnings: 0,
            is_over: false,
            has_warnings,
        }
    }

    /// Sets whether warnings are reported from now on, or neither reported nor counted. The counts so far stay.
    pub fn set_warnings(&mut self, has_warnings: bool)
        ensures { self.new ≡ record self.old { has_warnings = has_warnings } }
    {
        self.has_warnings = has_warnings;
    }

    /// Returns the number of errors that were reported.
    pub fn errors(&self) -> u32
        ensures { result ≡ self.now.errors }
    {
        self.errors
    }

    /// Returns the number of warnings that were reported.
    pub fn warnings(&self) -> u64
        ensures { result ≡ self.now.warnings }
    {
        self.warnings
    }

    /// Returns whether a fatal error has ended the report.
    pub fn is_over(&self) -> bool
        ensures { result ≡ self.now.is_over }
    {
        self.is_over
    }

    /// Reports an error at a place, in a unit that begins at another or the same. The hundredth error is followed by a
    /// fatal one where the unit begins.
    pub fn error<S: Sink>(
        &mut self,
        to: &mut S,
        at: Location<'_>,
        unit: Location<'_>,
        message: &Message<'_>,
    ) -> Result<(), ReportFault>
        ensures writes { Writes (S.taken to.old) (S.taken to.new) (S.failures to.old) (S.failures to.new)
            (error_lines (located at.entry) (located unit.entry) (meant message.now) self.old) result }
        ensures counts { OnOk result (self.new ≡ with_error self.old) }
        ensures err { OnErr result (self.new ≡ self.old) }
    {
        if self.is_over {
            return Ok(());
        }
        if self.errors + 1 == MOST_ERRORS {
            write_last(to, at, unit, message)?;
            self.is_over = true;
        } else {
            write_line(to, Kind::Error, at, message)?;
        }
        self.errors += 1;
        Ok(())
    }

    /// Reports a warning at a place, if warnings are to be reported.
    pub fn warning<S: Sink>(
        &mut self,
        to: &mut S,
        at: Location<'_>,
        message: &Message<'_>,
    ) -> Result<(), ReportFault>
        ensures writes { Writes (S.taken to.old) (S.taken to.new) (S.failures to.old) (S.failures to.new)
            (warning_lines (located at.entry) (meant message.now) self.old) result }
        ensures counts { OnOk result (self.new ≡ with_warning self.old) }
        ensures err { OnErr result (self.new ≡ self.old) }
    {
        if self.is_over || !self.has_warnings {
            return Ok(());
        }
        write_line(to, Kind::Warning, at, message)?;
        self.warnings = self.warnings.saturating_add(1);
        Ok(())
    }

    /// Reports a fatal error at a place: nothing is written behind it.
    pub fn fatal<S: Sink>(
        &mut self,
        to: &mut S,
        at: Location<'_>,
        message: &Message<'_>,
    ) -> Result<(), ReportFault>
        ensures writes { Writes (S.taken to.old) (S.taken to.new) (S.failures to.old) (S.failures to.new)
            (fatal_lines (located at.entry) (meant message.now) self.old) result }
        ensures counts { OnOk result (self.new ≡ with_fatal self.old) }
        ensures err { OnErr result (self.new ≡ self.old) }
    {
        if self.is_over {
            return Ok(());
        }
        write_line(to, Kind::Fatal, at, message)?;
        self.is_over = true;
        Ok(())
    }

    /// Writes a line of the source's own words alone.
    pub fn plain<S: Sink>(&self, to: &mut S, words: OwnWords<'_>) -> Result<(), ReportFault>
        ensures writes { Writes (S.taken to.old) (S.taken to.new) (S.failures to.old) (S.failures to.new)
            (plain_lines (worded words.entry) self.now) result }
    {
        if self.is_over {
            return Ok(());
        }
        write_plain(to, words)
    }

    /// Writes a line of the statistics: a word and its number.
    pub fn statistic<S: Sink>(&self, to: &mut S, word: &str, number: u64) -> Result<(), ReportFault>
        ensures writes { Writes (S.taken to.old) (S.taken to.new) (S.failures to.old) (S.failures to.new)
            (statistic_lines word.now number self.now) result }
    {
        if self.is_over {
            return Ok(());
        }
        let mut buffer = Buffer::new();
        let digits = buffer.format(number).as_bytes();
        write_pieces(to, word.as_bytes(), b": ", digits, b"\n")
    }

    /// Writes the last line, with the counts of errors and warnings.
    pub fn close<S: Sink>(&self, to: &mut S) -> Result<(), ReportFault>
        ensures writes { Writes (S.taken to.old) (S.taken to.new) (S.failures to.old) (S.failures to.new) (closing_lines self.now) result }
    {
        if self.is_over {
            return Ok(());
        }
        write_closing(to, self.errors, self.warnings)
    }
}
