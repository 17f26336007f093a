//! The results of a compilation, and the end of one.
ghost use Rattle.std.specs.Prelude.{◌≡◌, None, IfOk, IfErr, IsErrOf, OnErr};
ghost use Rattle.inf_devices.specs.Files.{Rose};
ghost use Rattle.inf_compilation.specs.Works.{work as work_of};
ghost use Rattle.inf_ending.specs.{Ending.finished, Ending.seen, Faults.Caused, Faults.HidesNoFailure};
ghost use Rattle.inf_ending.specs.Delivered.{Appends, Delivers, EndsCleanOf, TakesFront, story_in};

use crate::ending::{Outcome, finish};
use crate::faults::Fault;
use inf_compilation::compilation::Compilation;
use inf_devices::sinks::{Sink, write_whole};
use inf_lexer::Stack;
use inf_settings::bounds::Bounds;
use std::alloc::Global;

/// The way in which a compilation ended.
#[derive(Clone, Copy)]
pub enum Status {
    /// The compilation ended with no error, and with a story.
    Success,
    /// The compilation ended with errors or a fatal error, and without a story.
    Errors,
}

/// A story, where no error was found, and how the compilation ended.
#[derive(Drop)]
pub struct Compiled {
    pub story: Option<Vec<u8>>,
    pub status: Status,
}

/// Ends the compilation of sources that were read, and writes its last messages. Memory is taken only before the first of them is written.
pub fn conclude<M: Sink, B: Bounds>(
    alloc: Global,
    names: &Stack,
    serial: &[u8; 6],
    work: Compilation<B>,
    messages: &mut M,
) -> Result<Compiled, Fault>
    ensures ok { IfOk result (λ compiled. Delivers (finished B.most serial.now names.now.names (work_of work)) compiled
        (M.taken messages.old) (M.taken messages.new)) }
    ensures err { OnErr result (TakesFront (finished B.most serial.now names.now.names (work_of work)).messages (M.taken messages.old)
        (M.taken messages.new)) }
    ensures errors { IfOk result (λ compiled. compiled.status ≡ Status.Errors → compiled.story ≡ None) }
    ensures clean { IfOk result (λ compiled. compiled.status ≡ Status.Success →
        EndsCleanOf B.most serial.now names.now.names (work_of work) (story_in compiled) (M.taken messages.old) (M.taken messages.new)) }
    ensures fault { IfErr result (λ fault. Caused fault (λ name. ⊥) (Rose (M.failures messages.old) (M.failures messages.new))) }
    ensures memory { IsErrOf result Fault.Memory → messages.new ≡ messages.old }
    ensures wrote { Appends M.Sink messages.old messages.new × HidesNoFailure result (M.failures messages.old) (M.failures messages.new) }
{
    let ending = finish(alloc, names, serial, work)?;
    written(ending, messages)
}

/// Writes the last messages of a compilation. The only fault is that they could not be written.
pub fn written<M: Sink>(ending: Outcome, messages: &mut M) -> Result<Compiled, Fault>
    ensures ok { IfOk result (λ compiled. Delivers (seen ending) compiled (M.taken messages.old) (M.taken messages.new)) }
    ensures err { OnErr result (TakesFront (seen ending).messages (M.taken messages.old) (M.taken messages.new)) }
    ensures fault { IfErr result (λ fault. Caused fault (λ name. ⊥) (Rose (M.failures messages.old) (M.failures messages.new))) }
    ensures only { IfErr result (λ fault. fault ≡ Fault.Messages) }
    ensures wrote { Appends M.Sink messages.old messages.new × HidesNoFailure result (M.failures messages.old) (M.failures messages.new) }
{
    match write_whole(messages, ending.messages.as_slice()) {
        Ok(()) => Ok(Compiled {
            story: ending.story,
            status: ending.status,
        }),
        Err(_) => Err(Fault::Messages),
    }
}
