ghost use Rattle.std.specs.Prelude.{◌≡◌, IsTrue, IfOk, IfErr, OnOk, OnErr};
ghost use Rattle.inf_devices.specs.Files.{Rose};
ghost use Rattle.inf_command.specs.FileNames.{source_name};
ghost use Rattle.inf_ending.specs.Faults.{IfStory};
ghost use Rattle.inf_compile.specs.{Comes.OpenedBy, Compiling.chosen_by, Compiling.named_by, Promised.GivesUp, Promised.LeavesDevices};
ghost use Rattle.inf_program.specs.Compiling.{Begins, Compiles, DeliversPart};

use inf_command::command_line::Options;
use inf_compile::{Fault, NameHashing, Status, compile as turns};
use inf_devices::files::Files;
use inf_devices::sinks::Sink;
use std::alloc::Global;

/// Compiles the source that the options name, with the files that it includes: writes each message as soon as it is
/// found, and the story where no error was found.
///
/// The words of the command decide; each matter that they leave open is decided by the head of the source: its lines,
/// from the first byte on, that begin with `!%`. Their words are read as those of the command, and one is passed over
/// that the command would refuse, that begins with none of `-`, `$` and `+`, or that has more than 255 bytes or one
/// that is not of ASCII. An included file has no head.
///
/// `date` is the story's serial number, six ASCII digits. `hashing` changes nothing but how long a source takes whose
/// names were made to fall together. The source's name is the word for it, with `.inf` where its last part has no
/// extension; a name that is not there is a fatal message, and so is an empty word, for which nothing is opened.
/// Included files are looked for in the directories of the options. `Status` tells whether an error is among the
/// messages.
///
/// Of the faults, `Memory` is want of memory; `Read` comes where a file could not be opened or read, is longer
/// than 16,777,216 bytes, or is one of more than 65,535 names, and names it: as it was opened, or where it was not, as
/// the inclusion has it; `Messages` and `Story` where a write of that sink failed or took nothing, `Story` with the
/// number of the story's bytes that were written. Only then has the story's sink taken anything beside a whole story.
pub fn compile<F: Files, M: Sink, S: Sink>(
    alloc: Global,
    options: &Options<'_>,
    date: [u8; 6],
    hashing: NameHashing,
    files: &mut F,
    messages: &mut M,
    story: &mut S,
) -> Result<Status, Fault>
    // With an honest reader, status, messages and story are those of the outcome that the program of its sources gives.
    ensures headline { IsTrue (F.is_honest files.old) → IfOk result (λ status.
        Compiles (named_by options.now.source (F.sources files.old)) (chosen_by (F.sources files.old) options.now) date
        (source_name options.now.source) status (M.taken messages.old) (M.taken messages.new) (S.taken story.old) (S.taken story.new)) }

    // The openings are then those of the reading, in its order, each once, and all were closed again.
    ensures once { let name = source_name options.now.source in
        IsTrue (F.is_honest files.old) → OnOk result
        (OpenedBy (named_by options.now.source (F.sources files.old) name) (named_by options.now.source (F.sources files.old))
        (chosen_by (F.sources files.old) options.now) name (F.openings files.old) (F.openings files.new)) }

    // Where a fault is returned, a front of the outcome's messages was written.
    ensures begins { IsTrue (F.is_honest files.old) → OnErr result
        (Begins (named_by options.now.source (F.sources files.old)) (chosen_by (F.sources files.old) options.now) date
        (source_name options.now.source) (M.taken messages.old) (M.taken messages.new)) }

    // The openings are then those of the reading up to some turn. Where memory lacks, none of the last messages was written, of which the
    // closing line is one. The messages before a fault of reading are all that come with the tokens that were read, of some number of turns
    // from the start, and behind them there is a cause: the device failed, the innermost file is too long, or its inclusion names one file
    // too many. In the head of the source nothing was written before it.
    ensures given_up { IsTrue (F.is_honest files.old) → IfErr result (λ fault. GivesUp (Rose (F.faults files.old) (F.faults files.new))
        (named_by options.now.source (F.sources files.old)) (chosen_by (F.sources files.old) options.now) (source_name options.now.source)
        (F.openings files.old) (F.openings files.new) (M.taken messages.old) (M.taken messages.new) fault) }

    // Before a fault of the story's sink, the messages of the outcome were written, and a front of its story.
    ensures part { IsTrue (F.is_honest files.old) → IfErr result (λ fault. IfStory fault (λ n.
        DeliversPart (named_by options.now.source (F.sources files.old)) (chosen_by (F.sources files.old) options.now) date
        (source_name options.now.source) n (M.taken messages.old) (M.taken messages.new) (S.taken story.old) (S.taken story.new))) }

    // With any reader nothing is left open, no story comes with an error, and a fault has its cause. Where a story came, whole or in part, it
    // is that of some compiled work of which no error was counted, and the messages that were written end with the last ones of this work.
    ensures depth { F.depth files.new ≡ F.depth files.old }
    ensures leaves { LeavesDevices F.Files M.Sink S.Sink files.old files.new messages.old messages.new story.old story.new date result }
{
    turns::compile(alloc, options, date, hashing, files, messages, story)
}
