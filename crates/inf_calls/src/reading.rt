//! The reading of a text up to its last token.
ghost use Rattle.inf_calls.specs.Answers.{Adds, HasCause, ReadFails, Reads, ReadsPart, Stays, refusal};
ghost use Rattle.inf_calls.specs.Calls.{begun_with_rule, faultless_read, part_read, whole_read};
ghost use Rattle.inf_session.specs.Standing.{IsSet};
ghost use Rattle.std.specs.Prelude.{◌≡◌, ◌<◌, false, length};

use crate::cx::Cx;
use crate::faults::UnitFault;
use inf_devices::files::Files;
use inf_devices::sinks::Sink;
use inf_reader::recovery::Recovery;
use inf_settings::bounds::Bounds;

impl<'a, B: Bounds> Cx<'a, B> {
    /// Fails behind a fatal message and behind the end of the source, where no text can be read.
    pub(crate) fn check(&self) -> Result<(), UnitFault>
        ensures { result ≡ refusal self.now.session }
    {
        if self.session.progress.work.report.is_over() {
            return Err(UnitFault::Fatal);
        }
        if matches!(self.session.progress.reader.mode, Recovery::Ended) {
            return Err(UnitFault::Syntax);
        }
        Ok(())
    }

    /// Reads a part of the source, in which the machine may have a rule, and returns whether errors were told. Behind the end, where no
    /// text can be read, it fails as `check` does.
    pub(crate) fn read<F: Files, M: Sink>(
        &mut self,
        files: &mut F,
        messages: &mut M,
    ) -> Result<bool, UnitFault>
        requires is_open { length self.old.session.open_files.outer < F.depth files.old }
        requires goes { self.old.session.open_files.lexer.has_failed ≡ false }
        requires set { IsSet self.old.session }

        // The clauses below hold with an honest reader.
        ensures reads { Reads F.Files M.Sink B.most (λ s. s) (part_read B.most) files.old files.new messages.old messages.new
            self.old.session self.new.session result }
        ensures fails { ReadFails F.Files M.Sink B.most (λ s. s) files.old files.new messages.old messages.new
            self.old.session self.new.session result }

        // The clauses below hold with any reader.
        ensures stays { Stays F.Files files.old files.new self.old.session self.new.session result }
        ensures settings { self.new.settings ≡ self.old.settings }
        ensures fault { HasCause F.Files M.Sink files.old files.new messages.old messages.new self.old.session self.new.session result }
        ensures adds { Adds M.Sink messages.old messages.new result }
    {
        let before = self.session.progress.work.report.errors();
        self.session.step(files, messages)?;
        let report = &self.session.progress.work.report;
        if report.is_over() {
            return Err(UnitFault::Fatal);
        }
        Ok(report.errors() > before)
    }

    /// Reads a text of `rule`, up to its last token, or passes over what is bad. Returns whether errors were told.
    pub(crate) fn read_text<F: Files, M: Sink>(
        &mut self,
        rule: u8,
        files: &mut F,
        messages: &mut M,
    ) -> Result<bool, UnitFault>
        requires is_open { length self.old.session.open_files.outer < F.depth files.old }
        requires goes { self.old.session.open_files.lexer.has_failed ≡ false }
        requires set { IsSet self.old.session }

        ensures called { ReadsPart F.Files M.Sink B.most (begun_with_rule rule) (part_read B.most)
            files.old files.new messages.old messages.new self.old.session self.new.session result }
        ensures stays { Stays F.Files files.old files.new self.old.session self.new.session result }
        ensures settings { self.new.settings ≡ self.old.settings }
    {
        self.check()?;
        self.session.progress.reader.machine.start(rule)?;
        self.read(files, messages)
    }

    /// Reads a text of `rule`, whose units end by themselves. Fails where errors were told.
    pub(crate) fn read_faultless<F: Files, M: Sink>(
        &mut self,
        rule: u8,
        files: &mut F,
        messages: &mut M,
    ) -> Result<(), UnitFault>
        requires is_open { length self.old.session.open_files.outer < F.depth files.old }
        requires goes { self.old.session.open_files.lexer.has_failed ≡ false }
        requires set { IsSet self.old.session }

        ensures called { ReadsPart F.Files M.Sink B.most (begun_with_rule rule) (faultless_read B.most)
            files.old files.new messages.old messages.new self.old.session self.new.session result }
        ensures stays { Stays F.Files files.old files.new self.old.session self.new.session result }
        ensures settings { self.new.settings ≡ self.old.settings }
    {
        if self.read_text(rule, files, messages)? {
            return Err(UnitFault::Wrong);
        }
        Ok(())
    }

    /// Reads a text of `rule`, which waits for its end when it was read whole. Fails where it was not.
    pub(crate) fn read_whole<F: Files, M: Sink>(
        &mut self,
        rule: u8,
        files: &mut F,
        messages: &mut M,
    ) -> Result<(), UnitFault>
        requires is_open { length self.old.session.open_files.outer < F.depth files.old }
        requires goes { self.old.session.open_files.lexer.has_failed ≡ false }
        requires set { IsSet self.old.session }

        ensures called { ReadsPart F.Files M.Sink B.most (begun_with_rule rule) (whole_read B.most)
            files.old files.new messages.old messages.new self.old.session self.new.session result }
        ensures stays { Stays F.Files files.old files.new self.old.session self.new.session result }
        ensures settings { self.new.settings ≡ self.old.settings }
    {
        self.read_text(rule, files, messages)?;
        if self.session.progress.work.unit.held.is_none() {
            return Err(UnitFault::Syntax);
        }
        Ok(())
    }
}
