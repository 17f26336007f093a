ghost use Rattle.std.specs.Prelude.{◌≡◌, codes, IsTrue, IfOk, IfErr, OnOk, OnErr};
ghost use Rattle.inf_devices.specs.{Files.Rose, Sinks.Takes};
ghost use Rattle.inf_command.specs.FileNames.{source_name};
ghost use Rattle.inf_compile.specs.Comes.{Begins, OpenedBy};
ghost use Rattle.inf_compile.specs.Compiling.{Compiles, DeliversPart, HasCause, IfMemory, OnlyStory, TakesPart, TakesStory};
ghost use Rattle.inf_compile.specs.{Compiling.chosen_by, Compiling.named_by, Promised.GivesUp, Promised.LeavesDevices};
ghost use Rattle.inf_ending.specs.{Delivered.TakesFront, Delivered.story_in, Ending.missing, Faults.HidesNoFailure, Faults.IfStory};

use crate::translation::translate;
use inf_command::command_line::{Options, source_name};
use inf_devices::files::Files;
use inf_devices::sinks::{Sink, write_whole};
use inf_ending::compiled::{Compiled, Status, written};
use inf_ending::ending::no_file;
use inf_ending::faults::Fault;
use inf_names::hashing::NameHashing;
use std::alloc::Global;

/// Writes a story, where there is one.
fn deliver<S: Sink>(compiled: &Compiled, story: &mut S) -> Result<Status, Fault>
    ensures status { IfOk result (λ status. status ≡ compiled.now.status) }
    ensures ok { OnOk result (TakesStory (story_in compiled.now) (S.taken story.old) (S.taken story.new)) }
    ensures story { IfErr result (λ fault. OnlyStory fault (λ n. Rose (S.failures story.old) (S.failures story.new)
        × TakesPart (story_in compiled.now) n (S.taken story.old) (S.taken story.new))) }
{
    if let Some(bytes) = &compiled.story {
        if let Err(count) = write_whole(story, bytes.as_slice()) {
            return Err(Fault::Story(count));
        }
    }
    Ok(compiled.status)
}

/// Compiles the source that the options name by a word that is not empty.
fn compile_named<F: Files, M: Sink, S: Sink>(
    alloc: Global,
    options: &Options<'_>,
    date: [u8; 6],
    hashing: NameHashing,
    files: &mut F,
    messages: &mut M,
    story: &mut S,
) -> Result<Status, Fault>
    ensures headline { IsTrue (F.is_honest files.old) → IfOk result (λ status.
        Compiles (F.sources files.old) (chosen_by (F.sources files.old) options.now) date (source_name options.now.source) status
        (M.taken messages.old) (M.taken messages.new) (S.taken story.old) (S.taken story.new)) }
    ensures once { let name = source_name options.now.source in IsTrue (F.is_honest files.old) → OnOk result
        (OpenedBy (F.sources files.old name) (F.sources files.old) (chosen_by (F.sources files.old) options.now) name (F.openings files.old)
        (F.openings files.new)) }
    ensures begins { IsTrue (F.is_honest files.old) → OnErr result
        (Begins (F.sources files.old) (chosen_by (F.sources files.old) options.now) date (source_name options.now.source)
        (M.taken messages.old) (M.taken messages.new)) }
    ensures given_up { IsTrue (F.is_honest files.old) → IfErr result (λ fault. GivesUp (Rose (F.faults files.old) (F.faults files.new))
        (F.sources files.old) (chosen_by (F.sources files.old) options.now) (source_name options.now.source) (F.openings files.old)
        (F.openings files.new) (M.taken messages.old) (M.taken messages.new) fault) }
    ensures part { IsTrue (F.is_honest files.old) → IfErr result (λ fault. IfStory fault (λ n.
        DeliversPart (F.sources files.old) (chosen_by (F.sources files.old) options.now) date (source_name options.now.source) n
        (M.taken messages.old) (M.taken messages.new) (S.taken story.old) (S.taken story.new))) }
    ensures depth { F.depth files.new ≡ F.depth files.old }
    ensures leaves { LeavesDevices F.Files M.Sink S.Sink files.old files.new messages.old messages.new story.old story.new date result }
{
    let name = source_name(alloc, options)?;
    let compiled = translate(
        alloc,
        options,
        hashing,
        files,
        name.as_str(),
        &date,
        messages,
    )?;
    deliver(&compiled, story)
}

/// Tells that an empty word names no file.
fn refuse<M: Sink>(alloc: Global, messages: &mut M) -> Result<Status, Fault>
    ensures ok { IfOk result (λ status. (status ≡ Status.Errors) × Takes (M.taken messages.old) (M.taken messages.new)
        (missing (codes ".inf")).messages) }
    ensures err { OnErr result (TakesFront (missing (codes ".inf")).messages (M.taken messages.old) (M.taken messages.new)) }
    ensures fault { IfErr result (λ fault. HasCause fault (λ name. ⊥) (Rose (M.failures messages.old) (M.failures messages.new)) (λ n. ⊥)) }
    ensures memory { IfErr result (λ fault. IfMemory fault (messages.new ≡ messages.old)) }
    ensures quiet { HidesNoFailure result (M.failures messages.old) (M.failures messages.new) }
{
    let ending = no_file(alloc, b".inf")?;
    let compiled = written(ending, messages)?;
    Ok(compiled.status)
}

/// Compiles the source that the options name, with the files that it includes: writes each message as soon as it is
/// found, and the story where no error was found.
///
/// The words of the command decide; each matter that they leave open is decided by the head of the source: its lines, from the first byte
/// on, that begin with `!%`. Their words are read as those of the command, and one is passed over that the command would refuse, that
/// begins with none of `-`, `$` and `+`, or that has more than 255 bytes or one that is not of ASCII. An included file has no head.
///
/// `date` is the story's serial number, six ASCII digits. `hashing` changes nothing but how long a source takes whose names were made to
/// fall together. The source's name is the word for it, with `.inf` where its last part has no extension; a name that is not there is a
/// fatal message, and so is an empty word, for which nothing is opened. Included files are looked for in the directories of the options.
/// `Status` tells whether an error is among the messages.
///
/// Of the faults, `Memory` is want of memory; `Read` comes where a file could not be opened or read, is longer
/// than 16,777,216 bytes, or is one of more than 65,535 names, and names it: as it was opened, or where it was not, as
/// the inclusion has it; `Messages` and `Story` where a write of that sink failed or took nothing, `Story` with the
/// number of the story's bytes that were written. Only then has the story's sink taken anything beside a whole story.
pub fn compile<F: Files, M: Sink, S: Sink>(
    alloc: Global,
    options: &Options<'_>,
    date: [u8; 6],
    hashing: NameHashing,
    files: &mut F,
    messages: &mut M,
    story: &mut S,
) -> Result<Status, Fault>
    // With an honest reader, status, messages and story are those of the outcome of the sources that it has.
    ensures headline { IsTrue (F.is_honest files.old) → IfOk result (λ status.
        Compiles (named_by options.now.source (F.sources files.old)) (chosen_by (F.sources files.old) options.now) date
        (source_name options.now.source) status (M.taken messages.old) (M.taken messages.new) (S.taken story.old) (S.taken story.new)) }

    // The openings are then those of the reading, in its order, each once, and all were closed again.
    ensures once { let name = source_name options.now.source in IsTrue (F.is_honest files.old) → OnOk result
        (OpenedBy (named_by options.now.source (F.sources files.old) name) (named_by options.now.source (F.sources files.old))
        (chosen_by (F.sources files.old) options.now) name (F.openings files.old) (F.openings files.new)) }

    // Where a fault is returned, a front of the outcome's messages was written.
    ensures begins { IsTrue (F.is_honest files.old) → OnErr result
        (Begins (named_by options.now.source (F.sources files.old)) (chosen_by (F.sources files.old) options.now) date
        (source_name options.now.source) (M.taken messages.old) (M.taken messages.new)) }

    // The openings are then those of the reading up to some turn. Where memory lacks, none of the last messages was written, of which the
    // closing line is one. The messages before a fault of reading are all that come with the tokens that were read, of some number of turns
    // from the start, and behind them there is a cause: the device failed, the innermost file is too long, or its inclusion names one file
    // too many. In the head of the source nothing was written before it.
    ensures given_up { IsTrue (F.is_honest files.old) → IfErr result (λ fault. GivesUp (Rose (F.faults files.old) (F.faults files.new))
        (named_by options.now.source (F.sources files.old)) (chosen_by (F.sources files.old) options.now) (source_name options.now.source)
        (F.openings files.old) (F.openings files.new) (M.taken messages.old) (M.taken messages.new) fault) }

    // Before a fault of the story's sink, the messages of the outcome were written, and a front of its story.
    ensures part { IsTrue (F.is_honest files.old) → IfErr result (λ fault. IfStory fault (λ n.
        DeliversPart (named_by options.now.source (F.sources files.old)) (chosen_by (F.sources files.old) options.now) date
        (source_name options.now.source) n (M.taken messages.old) (M.taken messages.new) (S.taken story.old) (S.taken story.new))) }

    // With any reader nothing is left open, no story comes with an error, and a fault has its cause. Where a story came, whole or in part, it
    // is that of some work of which no error and no fatal error was counted, and the messages that were written end with the last ones of
    // this work.
    ensures depth { F.depth files.new ≡ F.depth files.old }
    ensures leaves { LeavesDevices F.Files M.Sink S.Sink files.old files.new messages.old messages.new story.old story.new date result }
{
    if options.names_nothing() {
        return refuse(alloc, messages);
    }
    compile_named(alloc, options, date, hashing, files, messages, story)
}
