//! The calls of a course, one after the other, and what has to come of them.
ghost use Rattle.inf_calls.specs.Answers.{is_failure, is_lost};
ghost use Rattle.inf_session.specs.{Choices.chosen, Standing.IsSet};
ghost use Rattle.std.specs.Prelude.{◌≡◌, ◌<◌, false, length};

use crate::courses::{Answer, Call};
use crate::sessions::Doing;
use crate::steps::assert_behind;
use inf_calls::cx::{Branch, Cx};
use inf_calls::faults::UnitFault;
use inf_devices::files::Files;
use inf_devices::sinks::Sink;
use inf_ending::faults::Fault;
use inf_opcode::Label;
use inf_session::session::Step;
use inf_settings::bounds::Bounds;
use inform_trials::devices::Narrow;
use std::process::Abort;

/// Returns the answer that a step is.
fn answer_of(step: Step) -> Answer {
    match step {
        Step::More => Answer::Done,
        Step::End => Answer::Syntax,
        Step::Fatal => Answer::Fatal,
    }
}

/// Returns the answer that the fault of a session is; the source that cannot be read has to be `t.inf`.
fn lost(fault: &Fault) -> Answer {
    match fault {
        Fault::Read(name) if name.as_str() == "t.inf" => Answer::Unread,
        Fault::Messages => Answer::Unwritten,
        Fault::Read(_) | Fault::Memory | Fault::Story(_) => Answer::Lost,
    }
}

/// Returns the answer that a call has `made`, or that its fault is.
fn answered(made: &Result<Answer, UnitFault>) -> Answer {
    match made {
        Ok(answer) => *answer,
        Err(UnitFault::Syntax) => Answer::Syntax,
        Err(UnitFault::Semantic(_)) => Answer::Semantic,
        Err(UnitFault::Wrong) => Answer::Wrong,
        Err(UnitFault::Fatal) => Answer::Fatal,
        Err(UnitFault::Lost(fault)) => lost(fault),
    }
}

/// Returns whether the session has failed by a call that has `made` this.
fn has_failed(made: &Result<Answer, UnitFault>) -> bool
    ensures { result ≡ is_lost made.now }
{
    match made {
        Ok(_) => false,
        Err(fault) => is_failure(fault),
    }
}

/// Returns whether a session has failed with `fault`.
fn is_failure(fault: &UnitFault) -> bool
    ensures { result ≡ is_failure fault.now }
{
    match fault {
        UnitFault::Lost(_) => true,
        UnitFault::Syntax => false,
        UnitFault::Semantic(_) => false,
        UnitFault::Wrong => false,
        UnitFault::Fatal => false,
    }
}

/// Makes a call; `label` is a new one behind each header, to which branches go.
fn make<B: Bounds, F: Files, M: Sink>(
    cx: &mut Cx<'_, B>,
    files: &mut F,
    messages: &mut M,
    label: &mut Label,
    call: Call,
) -> Result<Answer, UnitFault>
    requires is_open { length cx.old.session.open_files.outer < F.depth files.old }
    requires goes { cx.old.session.open_files.lexer.has_failed ≡ false }
    requires set { IsSet cx.old.session }
    requires known { (chosen cx.old.session.setup).settings ≡ cx.old.settings.now }
    ensures is_open { length cx.new.session.open_files.outer < F.depth files.new }
    ensures goes { is_lost result ≡ false → cx.new.session.open_files.lexer.has_failed ≡ false }
    ensures set { IsSet cx.new.session }
    ensures known { (chosen cx.new.session.setup).settings ≡ cx.new.settings.now }
{
    match call {
        Call::Directive => Ok(answer_of(cx.session.step(files, messages)?)),
        Call::Header => {
            cx.header(files, messages)?;
            *label = cx.label();
            Ok(Answer::Done)
        }
        Call::Use(want) => Ok(Answer::Left(cx.expression(want, files, messages)?)),
        Call::Branch(sense) => {
            let branch = Branch {
                sense,
                label: *label,
            };
            cx.condition(branch, files, messages)?;
            Ok(Answer::Done)
        }
        Call::Constant => Ok(Answer::Is(cx.constant(files, messages)?)),
        Call::Line => {
            cx.assembly_line(files, messages)?;
            Ok(Answer::Done)
        }
        Call::Mark => {
            cx.mark(*label)?;
            Ok(Answer::Done)
        }
        Call::Close => {
            cx.close(files, messages)?;
            Ok(Answer::Done)
        }
        Call::Routine => Ok(Answer::Stands(cx.routine_body(files, messages)?)),
    }
}

/// Returns the call at a place of what is to be done, and its answer: steps read directives.
fn row_at(doing: Doing<'_>, place: usize) -> Option<(Call, Answer)> {
    match doing {
        Doing::Calls(rows) => rows.get(place).copied(),
        Doing::Steps(steps) => {
            let (step, _, _, _) = steps.get(place)?;
            Some((Call::Directive, answer_of(*step)))
        }
    }
}

/// Asserts the messages behind a call, and the numbers of all that the settings bound, where the call is a step.
fn assert_done(
    rt: &impl Abort,
    doing: Doing<'_>,
    place: usize,
    messages: &[u8],
    held: [usize; 15],
) {
    if let Doing::Steps(steps) = doing {
        if let Some(wanted) = steps.get(place) {
            assert_behind(rt, wanted, messages, held);
        }
    }
}

/// Makes the calls that are to be made, up to one by which the session fails, and asserts their answers.
pub fn make_all<B: Bounds, F: Files>(
    rt: &impl Abort,
    cx: &mut Cx<'_, B>,
    files: &mut F,
    messages: &mut Narrow,
    doing: Doing<'_>,
)
    requires is_open { length cx.old.session.open_files.outer < F.depth files.old }
    requires goes { cx.old.session.open_files.lexer.has_failed ≡ false }
    requires set { IsSet cx.old.session }
    requires known { (chosen cx.old.session.setup).settings ≡ cx.old.settings.now }
    ensures is_open { length cx.new.session.open_files.outer < F.depth files.new }
{
    let mut label = Label { number: 0 };
    for place in 0..doing.len() {
        let Some((call, wanted)) = row_at(doing, place) else {
            return;
        };
        let made = make(cx, files, messages, &mut label, call);
        let answer = answered(&made);
        assert!(rt; answer == wanted, "{call:?}: {answer:?} for {wanted:?}");
        if has_failed(&made) {
            return;
        }
        assert_done(rt, doing, place, messages.whole.bytes(), cx.session.held());
    }
}
