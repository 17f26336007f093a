//! The steps of a session.
ghost use Rattle.std.specs.Prelude.{◌≡◌, ◌<◌, OnOk, false, length, true};
ghost use Rattle.inf_session.specs.Promises.{MakesStep, Stepped, Supplies, Wrote, fault_in};
ghost use Rattle.inf_session.specs.{Standing.IsSet, Standing.ended, Standing.is_done, Veneer.next_supplied, Weights.steps_left};

use crate::session::{Session, Step};
use inf_devices::files::Files;
use inf_devices::sinks::Sink;
use inf_ending::faults::Fault;
use inf_settings::bounds::Bounds;

impl<'a, B: Bounds> Session<'a, B> {
    /// Reads one part: a directive, with the side that it leaves out; the tokens that are passed over behind a bad one; the end of
    /// a file; or, behind the end of the main source or a directive that ends all, the next routine of the veneer that is used and
    /// not declared. Each message is written as soon as it is found, one about a routine of the veneer at the end of that routine.
    /// Behind the end, or a fatal message, a further call returns the same again and changes nothing.
    ///
    /// The faults are those of `translate`, but for that of the story.
    pub fn step<F: Files, M: Sink>(
        &mut self,
        files: &mut F,
        messages: &mut M,
    ) -> Result<Step, Fault>
        requires is_open { length self.old.open_files.outer < F.depth files.old }
        requires goes { self.old.open_files.lexer.has_failed ≡ false }
        requires set { IsSet self.old }

        ensures called { MakesStep F.Files M.Sink B.most files.old files.new messages.old messages.new self.old self.new (fault_in result) }
        ensures wrote { Wrote M.Sink messages.old messages.new (fault_in result) }
        ensures stepped { Stepped is_done steps_left files.old files.new messages.old messages.new self.old self.new result }
        ensures goes { OnOk result (self.new.open_files.lexer.has_failed ≡ false) }
        ensures set { IsSet self.new }
        ensures is_open { length self.new.open_files.outer < F.depth files.new }

        // A routine of the veneer, for which no file is asked for anything.
        ensures supplied { ended self.old ≡ true → Supplies M.Sink (next_supplied B.most) messages.old messages.new self.old self.new
            (fault_in result) × (files.new ≡ files.old) }
    {
        if self.has_ended() {
            return self.step_veneer(messages);
        }
        self.read_part(files, messages)
    }
}
