//! The end of a text that was read whole and waits for it: an expression or a constant.
ghost use Rattle.inf_calls.specs.Answers.{Adds, Ends, EndsCut, IfLost};
ghost use Rattle.inf_calls.specs.Calls.{constant_answer, constant_carried, constant_ended, expression_answer, expression_carried};
ghost use Rattle.inf_calls.specs.Calls.{expression_ended, tell};
ghost use Rattle.inf_calls.specs.Standing.{StaysHere};
ghost use Rattle.inf_devices.specs.Files.{Openings, Rose, Sources};
ghost use Rattle.inf_ending.specs.Faults.{Caused};
ghost use Rattle.inf_session.specs.{Choices.chosen, Standing.state};
ghost use Rattle.std.specs.Prelude.{◌≡◌, ℕ, IfOk, List};

use crate::cx::Cx;
use crate::faults::UnitFault;
use inf_alone::ending::{Ended, Told, Use, end_constant, end_expression};
use inf_area::Value;
use inf_compilation::context::Context;
use inf_devices::sinks::Sink;
use inf_ending::ending::FIRST_LINE;
use inf_output::Simple;
use inf_session::session::Session;
use inf_settings::bounds::Bounds;
use inf_settings::settings::Settings;
use std::alloc::AllocError;

/// Returns the answer about an expression that has ended.
fn answer(ended: Ended) -> Result<Option<Simple>, UnitFault>
    ensures { result ≡ expression_answer ended }
{
    match ended {
        Ended::Wrong(finding) => Err(UnitFault::Semantic(finding)),
        Ended::Laid(left) => Ok(left),
    }
}

/// Returns the answer about a constant that has ended.
fn answer_constant(told: Told) -> Result<Value, UnitFault>
    ensures { result ≡ constant_answer told }
{
    match told {
        Told::Wrong(finding) => Err(UnitFault::Semantic(finding)),
        Told::Is(value) => Ok(value),
    }
}

/// Ends the expression that was read by the use that is `wanted` of it.
fn carry_out<B: Bounds>(
    session: &mut Session<'_, B>,
    settings: &Settings,
    wanted: Use,
) -> Result<Ended, AllocError>
    requires known { (chosen session.old.setup).settings ≡ settings.now }
    ensures ended { (sources : Sources) → (start now : Openings) → (told : List ℕ) → IfOk result (λ e.
        let s = state sources start now session.old told in
        (state sources start now session.new told, e) ≡ expression_carried B.most (chosen session.old.setup) wanted s) }
    ensures same { (session.new.open_files ≡ session.old.open_files) × (session.new.setup ≡ session.old.setup) }
{
    let context = Context {
        files: session.open_files.names(),
        set: session.open_files.characters(),
        settings,
    };
    session.progress.work.unit.held = None;
    end_expression(&mut session.progress.work, &context, FIRST_LINE, wanted)
}

/// Ends the constant that was read.
fn carry_out_constant<B: Bounds>(
    session: &mut Session<'_, B>,
    settings: &Settings,
) -> Result<Told, AllocError>
    requires known { (chosen session.old.setup).settings ≡ settings.now }
    ensures ended { (sources : Sources) → (start now : Openings) → (told : List ℕ) → IfOk result (λ t.
        let s = state sources start now session.old told in
        (state sources start now session.new told, t) ≡ constant_carried B.most (chosen session.old.setup) s) }
    ensures same { (session.new.open_files ≡ session.old.open_files) × (session.new.setup ≡ session.old.setup) }
{
    let context = Context {
        files: session.open_files.names(),
        set: session.open_files.characters(),
        settings,
    };
    session.progress.work.unit.held = None;
    end_constant(&mut session.progress.work, &context, FIRST_LINE)
}

impl<'a, B: Bounds> Cx<'a, B> {
    /// Writes the messages about a unit that has ended. Fails behind a fatal one.
    fn tell<M: Sink>(&mut self, messages: &mut M) -> Result<(), UnitFault>
        ensures tells { Ends M.Sink tell messages.old messages.new self.old.session self.new.session result }
        ensures cut { EndsCut M.Sink tell messages.old messages.new self.old.session result }
        ensures same { StaysHere self.old self.new }
        ensures fault { IfLost result (λ fault. Caused fault (λ name. ⊥) (Rose (M.failures messages.old) (M.failures messages.new))) }
        ensures adds { Adds M.Sink messages.old messages.new result }
    {
        let report = &mut self.session.progress.work.report;
        report.flush(messages)?;
        if report.is_over() {
            return Err(UnitFault::Fatal);
        }
        Ok(())
    }

    /// Ends the expression that was read by the use that is `wanted` of it, and writes its messages. Returns the operand that it leaves.
    pub(crate) fn end<M: Sink>(
        &mut self,
        wanted: Use,
        messages: &mut M,
    ) -> Result<Option<Simple>, UnitFault>
        requires known { (chosen self.old.session.setup).settings ≡ self.old.settings.now }
        ensures ended { Ends M.Sink (expression_ended B.most (chosen self.old.session.setup) wanted) messages.old messages.new
            self.old.session self.new.session result }
        ensures cut { EndsCut M.Sink (expression_ended B.most (chosen self.old.session.setup) wanted) messages.old messages.new
            self.old.session result }
        ensures same { StaysHere self.old self.new }
        ensures fault { IfLost result (λ fault. Caused fault (λ name. ⊥) (Rose (M.failures messages.old) (M.failures messages.new))) }
        ensures adds { Adds M.Sink messages.old messages.new result }
    {
        let ended = carry_out(&mut self.session, self.settings, wanted)?;
        self.tell(messages)?;
        answer(ended)
    }

    /// Ends the constant that was read, and writes its messages. Returns its value.
    pub(crate) fn end_constant<M: Sink>(&mut self, messages: &mut M) -> Result<Value, UnitFault>
        requires known { (chosen self.old.session.setup).settings ≡ self.old.settings.now }
        ensures ended { Ends M.Sink (constant_ended B.most (chosen self.old.session.setup)) messages.old messages.new self.old.session
            self.new.session result }
        ensures cut { EndsCut M.Sink (constant_ended B.most (chosen self.old.session.setup)) messages.old messages.new self.old.session
            result }
        ensures same { StaysHere self.old self.new }
        ensures fault { IfLost result (λ fault. Caused fault (λ name. ⊥) (Rose (M.failures messages.old) (M.failures messages.new))) }
        ensures adds { Adds M.Sink messages.old messages.new result }
    {
        let told = carry_out_constant(&mut self.session, self.settings)?;
        self.tell(messages)?;
        answer_constant(told)
    }
}
