//! The calls that read a text by itself.
ghost use Rattle.inf_calls.specs.Answers.{EndsText, ReadsText, Stays};
ghost use Rattle.inf_calls.specs.Calls.{alone_close, alone_constant, alone_expression, alone_line, assembly_line, begun_with_header};
ghost use Rattle.inf_calls.specs.Calls.{begun_with_rule, close, condition, constant, done, expression, header, routine_body, use_of};
ghost use Rattle.inf_calls.specs.Calls.{used_so};
ghost use Rattle.inf_area.specs.Cells.{later_count};
ghost use Rattle.inf_code.specs.Code.{place_behind};
ghost use Rattle.inf_output.specs.Output.{behind, marked, next_label};
ghost use Rattle.inf_calls.specs.Standing.{with_output};
ghost use Rattle.inf_session.specs.{Choices.chosen, Standing.IsSet};
ghost use Rattle.std.specs.Prelude.{◌≡◌, ◌<◌, ◌+◌, ◌-◌, OnErr, OnOk, false, length};

use crate::cx::{Branch, Closed, Cx, Want};
use crate::faults::UnitFault;
use inf_alone::ending::Use;
use inf_area::Value;
use inf_code::code::Code;
use inf_devices::files::Files;
use inf_devices::sinks::Sink;
use inf_grammar::{ALONE_CLOSE, ALONE_CONSTANT, ALONE_EXPRESSION, ALONE_HEADER, ALONE_LINE};
use inf_opcode::Label;
use inf_output::Simple;
use inf_settings::bounds::Bounds;
use std::alloc::AllocError;

/// Returns the use that the code makes of an expression of which this is wanted.
fn use_of(want: Want) -> Use
    ensures { result ≡ use_of want }
{
    match want {
        Want::Nothing => Use::Nothing,
        Want::Stack => Use::Operand,
        Want::Variable(variable) => Use::Variable(variable),
    }
}

/// Returns the answer about a condition, by that about its expression.
fn done(answer: Result<Option<Simple>, UnitFault>) -> Result<(), UnitFault>
    ensures { result ≡ done answer }
{
    match answer {
        Ok(_) => Ok(()),
        Err(fault) => Err(fault),
    }
}

/// Returns the number of references of the finished routines, and of those four that each story has in its tables.
#[tactic(auto, using(crate::proofs::Counting::begun, crate::proofs::Counting::bare))]
fn references_of<B: Bounds>(code: &Code<B>) -> usize
    ensures { result ≡ 4 + later_count code.now.finished }
{
    if code.count() == code.next_place() {
        code.references() - 1
    } else {
        code.references()
    }
}

/// Returns where a routine stands in `code` that began at `start`, before which there were `refs` references.
fn closed<B: Bounds>(code: &Code<B>, start: usize, refs: usize) -> Closed
    ensures { let finished = code.now.finished in result ≡ record {
      start = start;
      len = place_behind finished - start;
      refs = 4 + later_count finished - refs;
    } }
{
    Closed {
        start,
        len: code.next_place().saturating_sub(start),
        refs: references_of(code).saturating_sub(refs),
    }
}

impl<'a, B: Bounds> Cx<'a, B> {
    /// Reads an expression and the semicolon behind it, and lays its code by the use that is `wanted` of it. Returns the operand that it
    /// leaves.
    fn use_text<F: Files, M: Sink>(
        &mut self,
        wanted: Use,
        files: &mut F,
        messages: &mut M,
    ) -> Result<Option<Simple>, UnitFault>
        requires is_open { length self.old.session.open_files.outer < F.depth files.old }
        requires goes { self.old.session.open_files.lexer.has_failed ≡ false }
        requires set { IsSet self.old.session }
        requires known { (chosen self.old.session.setup).settings ≡ self.old.settings.now }

        ensures called { EndsText F.Files M.Sink B.most (begun_with_rule alone_expression) (used_so wanted B.most)
            files.old files.new messages.old messages.new self.old.session self.new.session result }
        ensures stays { Stays F.Files files.old files.new self.old.session self.new.session result }
        ensures settings { self.new.settings ≡ self.old.settings }
    {
        self.read_whole(ALONE_EXPRESSION, files, messages)?;
        self.end(wanted, messages)
    }

    /// Reads an expression and the semicolon behind it, as `x + 1;`, lays its code, and returns the operand that it leaves, where one is
    /// wanted.
    pub fn expression<F: Files, M: Sink>(
        &mut self,
        want: Want,
        files: &mut F,
        messages: &mut M,
    ) -> Result<Option<Simple>, UnitFault>
        requires is_open { length self.old.session.open_files.outer < F.depth files.old }
        requires goes { self.old.session.open_files.lexer.has_failed ≡ false }
        requires set { IsSet self.old.session }
        requires known { (chosen self.old.session.setup).settings ≡ self.old.settings.now }

        ensures called { EndsText F.Files M.Sink B.most (begun_with_rule alone_expression) (expression want B.most)
            files.old files.new messages.old messages.new self.old.session self.new.session result }
        ensures stays { Stays F.Files files.old files.new self.old.session self.new.session result }
        ensures settings { self.new.settings ≡ self.old.settings }
    {
        self.use_text(use_of(want), files, messages)
    }

    /// Reads a condition and the semicolon behind it, as `x == 1 or 2;`, and lays its branch.
    pub fn condition<F: Files, M: Sink>(
        &mut self,
        branch: Branch,
        files: &mut F,
        messages: &mut M,
    ) -> Result<(), UnitFault>
        requires is_open { length self.old.session.open_files.outer < F.depth files.old }
        requires goes { self.old.session.open_files.lexer.has_failed ≡ false }
        requires set { IsSet self.old.session }
        requires known { (chosen self.old.session.setup).settings ≡ self.old.settings.now }

        ensures called { EndsText F.Files M.Sink B.most (begun_with_rule alone_expression) (condition branch B.most)
            files.old files.new messages.old messages.new self.old.session self.new.session result }
        ensures stays { Stays F.Files files.old files.new self.old.session self.new.session result }
        ensures settings { self.new.settings ≡ self.old.settings }
    {
        let wanted = Use::Branch(branch.sense, branch.label);
        done(self.use_text(wanted, files, messages))
    }

    /// Reads a constant and the semicolon behind it, as `K + 8;`, and returns its value. Names in it are used.
    pub fn constant<F: Files, M: Sink>(
        &mut self,
        files: &mut F,
        messages: &mut M,
    ) -> Result<Value, UnitFault>
        requires is_open { length self.old.session.open_files.outer < F.depth files.old }
        requires goes { self.old.session.open_files.lexer.has_failed ≡ false }
        requires set { IsSet self.old.session }
        requires known { (chosen self.old.session.setup).settings ≡ self.old.settings.now }

        ensures called { EndsText F.Files M.Sink B.most (begun_with_rule alone_constant) (constant B.most)
            files.old files.new messages.old messages.new self.old.session self.new.session result }
        ensures stays { Stays F.Files files.old files.new self.old.session self.new.session result }
        ensures settings { self.new.settings ≡ self.old.settings }
    {
        self.read_whole(ALONE_CONSTANT, files, messages)?;
        self.end_constant(messages)
    }

    /// Reads a line of assembly, as `@add x 1 -> x;`, and lays it.
    pub fn assembly_line<F: Files, M: Sink>(
        &mut self,
        files: &mut F,
        messages: &mut M,
    ) -> Result<(), UnitFault>
        requires is_open { length self.old.session.open_files.outer < F.depth files.old }
        requires goes { self.old.session.open_files.lexer.has_failed ≡ false }
        requires set { IsSet self.old.session }

        ensures called { ReadsText F.Files M.Sink B.most (begun_with_rule alone_line) (assembly_line B.most)
            files.old files.new messages.old messages.new self.old.session self.new.session result }
        ensures stays { Stays F.Files files.old files.new self.old.session self.new.session result }
        ensures settings { self.new.settings ≡ self.old.settings }
    {
        self.read_faultless(ALONE_LINE, files, messages)
    }

    /// Reads the header of a routine with its semicolon, as `[ Main x y;`, and opens the routine.
    pub fn header<F: Files, M: Sink>(
        &mut self,
        files: &mut F,
        messages: &mut M,
    ) -> Result<(), UnitFault>
        requires is_open { length self.old.session.open_files.outer < F.depth files.old }
        requires goes { self.old.session.open_files.lexer.has_failed ≡ false }
        requires set { IsSet self.old.session }

        ensures called { ReadsText F.Files M.Sink B.most begun_with_header (header B.most)
            files.old files.new messages.old messages.new self.old.session self.new.session result }
        ensures stays { Stays F.Files files.old files.new self.old.session self.new.session result }
        ensures settings { self.new.settings ≡ self.old.settings }
    {
        self.check()?;
        self.session.progress.work.begin_piece();
        self.read_faultless(ALONE_HEADER, files, messages)
    }

    /// Reads the end of the open routine with its semicolon, `];`, and closes the routine.
    pub fn close<F: Files, M: Sink>(
        &mut self,
        files: &mut F,
        messages: &mut M,
    ) -> Result<(), UnitFault>
        requires is_open { length self.old.session.open_files.outer < F.depth files.old }
        requires goes { self.old.session.open_files.lexer.has_failed ≡ false }
        requires set { IsSet self.old.session }

        ensures called { ReadsText F.Files M.Sink B.most (begun_with_rule alone_close) (close B.most)
            files.old files.new messages.old messages.new self.old.session self.new.session result }
        ensures stays { Stays F.Files files.old files.new self.old.session self.new.session result }
        ensures settings { self.new.settings ≡ self.old.settings }
    {
        self.read_faultless(ALONE_CLOSE, files, messages)
    }

    /// Reads a routine, from its bracket to its semicolon, and returns where it stands in the code. Another directive is carried out, too.
    pub fn routine_body<F: Files, M: Sink>(
        &mut self,
        files: &mut F,
        messages: &mut M,
    ) -> Result<Closed, UnitFault>
        requires is_open { length self.old.session.open_files.outer < F.depth files.old }
        requires goes { self.old.session.open_files.lexer.has_failed ≡ false }
        requires set { IsSet self.old.session }

        ensures called { ReadsText F.Files M.Sink B.most (λ s. s) (routine_body B.most)
            files.old files.new messages.old messages.new self.old.session self.new.session result }
        ensures stays { Stays F.Files files.old files.new self.old.session self.new.session result }
        ensures settings { self.new.settings ≡ self.old.settings }
    {
        self.check()?;
        let code = &self.session.progress.work.output.code;
        let start = code.next_place();
        let refs = references_of(code);
        if self.read(files, messages)? {
            return Err(UnitFault::Wrong);
        }
        Ok(closed(&self.session.progress.work.output.code, start, refs))
    }

    /// Returns a label that was not handed out for the open routine.
    pub fn label(&mut self) -> Label
        ensures label { result ≡ next_label self.old.session.progress.work.output }
        ensures next { let out = self.old.session.progress.work.output in
            self.new ≡ with_output (record out { next = behind out.next }) self.old }
    {
        self.session.progress.work.output.label()
    }

    /// Lays the place of `label` in the open routine.
    pub fn mark(&mut self, label: Label) -> Result<(), AllocError>
        ensures ok { OnOk result (self.new ≡ with_output (marked B.most label self.old.session.progress.work.output) self.old) }
        ensures err { OnErr result (self.new ≡ self.old) }
    {
        self.session.progress.work.output.mark(label)
    }
}
