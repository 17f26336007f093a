//! The compilation of a main source with the files that it includes.
ghost use Rattle.std.specs.Prelude.{◌≡◌, ◌<◌, [], None, false, IsTrue, IfOk, IfErr, OnErr, OnOk, length};
ghost use Rattle.inf_devices.specs.Files.{Rose};
ghost use Rattle.inf_sources.specs.Calls.{Honestly, Kept};
ghost use Rattle.inf_sources.specs.Open.{nesting};
ghost use Rattle.inf_session.specs.{Choices.chosen, Choices.most_quoted, Leading.GivenUp, Session.first_state};
ghost use Rattle.inf_session.specs.{Promises.Supplies, Promises.fault_in, Standing.IsSet, Standing.state};
ghost use Rattle.inf_session.specs.Veneer.{supplied};
ghost use Rattle.inf_ending.specs.Delivered.{SucceedsClean};
ghost use Rattle.inf_ending.specs.Faults.{Caused, HidesNoFailure};
ghost use Rattle.inf_settings.specs.Bounds.{limits_of};
ghost use Rattle.inf_compile.specs.Chosen.{begun_at, chosen_at, chosen_for};
ghost use Rattle.inf_compile.specs.Comes.{Begins, BreaksOffAll, Comes, EndsAll, GivenUpFrom, SuppliesAll, SuppliesPart};
ghost use Rattle.inf_compile.specs.{Compiling.IfMemory, Promised.GivesUp, Promised.LeavesMessages};
ghost use Rattle.inf_compile.specs.Translated.{Leaves, Translated};

use crate::heads::read_head;
use inf_command::command_line::Options;
use inf_devices::files::Files;
use inf_devices::sinks::Sink;
use inf_ending::compiled::{Compiled, Status, written};
use inf_ending::ending::no_file;
use inf_ending::faults::Fault;
use inf_lexer::EnterFault;
use inf_names::hashing::NameHashing;
use inf_session::session::Session;
use inf_session::setup::Setup;
use inf_settings::bounds::Bounds;
use inf_settings::setting::Setting;
use inf_sources::open_files::OpenFiles;
use std::alloc::Global;
use std::marker::Brand;

/// Compiles the main source of this name with the files that it includes, and writes all messages, each as soon as it is found. The words
/// of `options` choose, and where they say nothing, the head of the main source does. The serial number has six digits.
///
/// Returns an error: `Memory` is want of memory; `Read` comes where a file could not be opened or read, has more
/// than 16,777,216 bytes, or is one of more than 65,535 names; `Messages` where a write failed or took nothing.
pub fn translate<F: Files, M: Sink>(
    alloc: Global,
    options: &Options<'_>,
    hashing: NameHashing,
    files: &mut F,
    name: &str,
    serial: &[u8; 6],
    messages: &mut M,
) -> Result<Compiled, Fault>
    requires { 0 < length name.now }

    // With an honest reader the result is the outcome of its sources, and all messages were written.
    ensures comes { IsTrue (F.is_honest files.old) →
        IfOk result (λ compiled. Comes (F.sources files.old) (chosen_for (F.sources files.old) name.now options.now) serial.now name.now
        (F.openings files.old) (F.openings files.new) (M.taken messages.old) (M.taken messages.new) compiled) }
    ensures begins { IsTrue (F.is_honest files.old) → OnErr result (Begins (F.sources files.old)
        (chosen_for (F.sources files.old) name.now options.now) serial.now name.now (M.taken messages.old) (M.taken messages.new)) }
    // After a fault, the openings are those of a part of the reading, and the fault has its cause. At want of memory none of the last
    // messages was written; after a fault of reading all messages were written that come with the tokens read so far.
    ensures given_up { let o = chosen_for (F.sources files.old) name.now options.now in IsTrue (F.is_honest files.old) →
        IfErr result (λ fault. GivesUp (Rose (F.faults files.old) (F.faults files.new)) (F.sources files.old) o name.now
        (F.openings files.old) (F.openings files.new) (M.taken messages.old) (M.taken messages.new) fault) }

    // With any reader nothing is left open, no story comes with an error, and a fault has its cause.
    ensures kept { Kept F.Files files.old files.new }
    ensures depth { F.depth files.new ≡ F.depth files.old }
    ensures leaves { LeavesMessages F.Files M.Sink files.old files.new messages.old messages.new serial.now result }
{
    let told = String::from_str(alloc, name)?;
    let limit = options.settings().of(Setting::QuotedText);
    let open_files = match OpenFiles::enter_main(alloc, options.set(), limit, files, name) {
        Ok(open_files) => open_files,
        Err(EnterFault::Absent) => return written(no_file(alloc, name.as_bytes())?, messages),
        Err(EnterFault::Memory) => return Err(Fault::Memory),
        Err(EnterFault::BadName | EnterFault::TooDeep | EnterFault::Device) => {
            return Err(Fault::Read(told));
        }
    };
    let (open_files, compiled) = translate_opened(
        alloc, options, hashing, open_files, files, serial, messages,
    );
    open_files.close(files);
    compiled
}

/// Translates the main source of `open_files`, which is open alone, and of which nothing was read yet, as `translate`
/// does: its head, and the rest behind it. Returns the files that are still open then, with the result.
fn translate_opened<F: Files, M: Sink>(
    alloc: Global,
    options: &Options<'_>,
    hashing: NameHashing,
    mut open_files: OpenFiles,
    files: &mut F,
    serial: &[u8; 6],
    messages: &mut M,
) -> (OpenFiles, Result<Compiled, Fault>)
    requires is_open { length open_files.outer < F.depth files.old }
    requires alone { open_files.outer ≡ [] }
    requires goes { open_files.lexer.has_failed ≡ false }
    ensures translated { Honestly F.Files files.old open_files (λ start.
        let was = nesting (F.sources files.old) start (F.openings files.old) open_files in let o = chosen_at was options.now in
        Translated (limits_of o.settings) (F.sources files.old) o serial.now (begun_at was options.now) start (F.openings files.new) result.0
        (M.taken messages.old) (M.taken messages.new) (GivenUpFrom (limits_of o.settings) (Rose (F.faults files.old) (F.faults files.new))
        (F.sources files.old) o was (begun_at was options.now) (M.taken messages.old) (M.taken messages.new) start (F.openings files.new)
        result.0) result.1) }
    ensures leaves { Leaves F.Files M.Sink files.old files.new open_files result.0 messages.old messages.new serial.now result.1 }
    ensures is_open { length result.0.outer < F.depth files.new }
{
    let Ok(told) = String::from_str(alloc, open_files.innermost()) else {
        return (open_files, Err(Fault::Memory));
    };
    let head = match read_head(&mut open_files, files) {
        Ok(head) => head,
        Err(_) => return (open_files, Err(Fault::Read(told))),
    };
    let options = options.with_head(&head);
    let settings = options.settings();
    open_files.choose(options.set(), settings.of(Setting::QuotedText));
    let Ok(directories) = options.directories(alloc) else {
        return (open_files, Err(Fault::Memory));
    };
    let setup = Setup {
        letters: options.letters(),
        settings: &settings,
        directories: directories.as_slice(),
        hashing,
    };
    translate_under::<F, M, Brand>(alloc, setup, open_files, files, serial, messages)
}

/// Translates the rest of the main source of `open_files`, under the limits that are the settings of `setup`. Returns
/// the files that are still open then, with the result.
fn translate_under<F: Files, M: Sink, B: Bounds>(
    alloc: Global,
    setup: Setup<'_>,
    open_files: OpenFiles,
    files: &mut F,
    serial: &[u8; 6],
    messages: &mut M,
) -> (OpenFiles, Result<Compiled, Fault>)
    requires limits { B.most ≡ limits_of setup.settings.now }
    requires is_open { length open_files.outer < F.depth files.old }
    requires goes { open_files.lexer.has_failed ≡ false }
    requires set { open_files.nest.limit ≡ most_quoted (chosen setup) }
    ensures translated { Honestly F.Files files.old open_files (λ start. let limits = limits_of setup.entry.settings.now in
        let was = first_state (chosen setup.entry) (nesting (F.sources files.old) start (F.openings files.old) open_files) in
        Translated limits (F.sources files.old) (chosen setup.entry) serial.now was start (F.openings files.new) result.0
        (M.taken messages.old) (M.taken messages.new) (GivenUp limits (Rose (F.faults files.old) (F.faults files.new)) (F.sources files.old)
        (chosen setup.entry) was (M.taken messages.old) (M.taken messages.new) start (F.openings files.new) result.0) result.1) }
    ensures leaves { Leaves F.Files M.Sink files.old files.new open_files result.0 messages.old messages.new serial.now result.1 }
    ensures is_open { length result.0.outer < F.depth files.new }
{
    match Session::<B>::new(alloc, setup, open_files) {
        Ok(session) => read_out(session, files, serial, messages),
        Err(open_files) => (open_files, Err(Fault::Memory)),
    }
}

/// Reads all that is still to be read, and ends the compilation. Returns the files that are still open then, with the result.
fn read_out<F: Files, M: Sink, B: Bounds>(
    mut session: Session<'_, B>,
    files: &mut F,
    serial: &[u8; 6],
    messages: &mut M,
) -> (OpenFiles, Result<Compiled, Fault>)
    requires is_open { length session.open_files.outer < F.depth files.old }
    requires goes { session.open_files.lexer.has_failed ≡ false }
    requires set { IsSet session }
    ensures translated { Honestly F.Files files.old session.entry.open_files (λ start. let o = chosen session.entry.setup in
        let was = state (F.sources files.old) start (F.openings files.old) session.entry in
        Translated B.most (F.sources files.old) o serial.now was start (F.openings files.new) result.0 (M.taken messages.old)
        (M.taken messages.new) (GivenUp B.most (Rose (F.faults files.old) (F.faults files.new)) (F.sources files.old) o was
        (M.taken messages.old) (M.taken messages.new) start (F.openings files.new) result.0) result.1) }
    ensures leaves { Leaves F.Files M.Sink files.old files.new session.entry.open_files result.0 messages.old messages.new serial.now
        result.1 }
    ensures is_open { length result.0.outer < F.depth files.new }
{
    match session.read(files, messages) {
        Ok(()) => supply_out(session, serial, messages),
        Err(fault) => (session.open_files, Err(fault)),
    }
}

/// Reads the rest of the veneer.
fn supply_all<M: Sink, B: Bounds>(
    session: &mut Session<'_, B>,
    messages: &mut M,
) -> Result<(), Fault>
    ensures supplied { OnOk result (SuppliesAll B.most (chosen session.old.setup) session.old session.new (M.taken messages.old)
        (M.taken messages.new)) }
    ensures cut { OnErr result (SuppliesPart B.most (chosen session.old.setup) session.old (M.taken messages.old) (M.taken messages.new)) }
    ensures called { Supplies M.Sink (supplied B.most) messages.old messages.new session.old session.new (fault_in result) }
{
    session.supply(messages)
}

/// Reads the used part of the veneer, and ends the compilation. Returns the files that are still open then, with the result.
fn supply_out<M: Sink, B: Bounds>(
    mut session: Session<'_, B>,
    serial: &[u8; 6],
    messages: &mut M,
) -> (OpenFiles, Result<Compiled, Fault>)
    ensures ok { IfOk result.1 (λ compiled. EndsAll B.most (chosen session.entry.setup) serial.now session.entry compiled
        (M.taken messages.old) (M.taken messages.new)) }
    ensures err { OnErr result.1 (BreaksOffAll B.most (chosen session.entry.setup) serial.now session.entry (M.taken messages.old)
        (M.taken messages.new)) }
    ensures early { IfErr result.1 (λ fault. IfMemory fault (SuppliesPart B.most (chosen session.entry.setup) session.entry
        (M.taken messages.old) (M.taken messages.new))) }
    ensures files { result.0 ≡ session.entry.open_files }
    ensures errors { IfOk result.1 (λ compiled. compiled.status ≡ Status.Errors → compiled.story ≡ None) }
    ensures clean { IfOk result.1 (λ compiled. SucceedsClean serial.now compiled (M.taken messages.old) (M.taken messages.new)) }
    ensures fault { IfErr result.1 (λ fault. Caused fault (λ name. ⊥) (Rose (M.failures messages.old) (M.failures messages.new))) }
    ensures quiet { HidesNoFailure result.1 (M.failures messages.old) (M.failures messages.new) }
{
    match supply_all(&mut session, messages) {
        Ok(()) => session.finish(serial, messages),
        Err(fault) => (session.open_files, Err(fault)),
    }
}
