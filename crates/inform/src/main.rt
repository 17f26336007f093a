#![tactic(auto)]

mod limits;
mod reason;

use inf_command::command_line::{self, CommandLine, Options, WordFault};
use inf_command::dates;
use inf_disk::disk::{DiskFiles, OutputSink, StoryPlace, StorySink};
use inf_program::{Fault, NameHashing, Status, compile};
use jiff::Timestamp;
use jiff::tz::Offset;
use limits::{Limited, Limits};
use reason::Reason;
use std::alloc::AllocError;
use std::env;
use std::io::{self, ErrorKind};
use std::process::ExitCode;
use std::random::RandomSource;
use std::rt::{Clock, Env, Files};

/// The reason why a run could not go on.
#[derive(Clone, Copy)]
pub(crate) enum Failure {
    /// No memory was left.
    Memory,
    /// The limit on the stack is lower than what a run may need.
    Stack,
    /// The words of the command could not be had.
    Words(Reason),
    /// The standard output failed.
    Output(Reason),
    /// The clock gave no date.
    Clock,
    /// A compilation was given up, and the reason was shown already.
    Told,
}

impl Failure {
    /// Shows on standard error the failure and its reason.
    fn tell<R: Files + Eprint>(self, rt: &R, limits: Limits) {
        if !may_tell(rt, limits, "") {
            return;
        }
        let _ = match self {
            Failure::Memory => rt.eprintln("no memory was left"),
            Failure::Stack => rt.eprintln(format_args!(
                "the stack: may grow to fewer than {} bytes",
                limits::LEAST_STACK
            )),
            Failure::Words(reason) => rt.eprintln(format_args!("words of the command: {reason}")),
            Failure::Output(reason) => rt.eprintln(format_args!("standard output: {reason}")),
            Failure::Clock => rt.eprintln("the clock: no date"),
            Failure::Told => Ok(()),
        };
    }
}

impl From<AllocError> for Failure {
    fn from(_error: AllocError) -> Failure {
        Failure::Memory
    }
}

impl From<jiff::Error> for Failure {
    fn from(_error: jiff::Error) -> Failure {
        Failure::Clock
    }
}

/// Compiles the source that the words of the command line name. The status is 0 where there is no error, 1 where there
/// are errors, 2 where a word is refused, and 3 where a device or the memory failed.
fn main(rt: HostRuntime) -> ExitCode {
    let limits = Limits::of_run(&rt);
    match run(&rt, limits) {
        Ok(code) => code,
        Err(failure) => {
            failure.tell(&rt, limits);
            if has_room(&rt, limits, FAULT) {
                let _ = rt.println(FAULT);
            }
            ExitCode::from(3)
        }
    }
}

/// The last line of a run that was given up.
const FAULT: &str = "Device or memory fault";

/// Returns whether the limit on the size of files leaves room for `line` in the output.
fn has_room<R: Files>(rt: &R, limits: Limits, line: &str) -> bool {
    (line.len() as u64) < limits.room_behind(rt, limits::OUTPUT)
}

/// The greatest number of bytes of a reason, without the name that it begins with.
const LONGEST_REASON: u64 = 256;

/// Returns whether the limit on the size of files leaves room on standard error for a reason behind `name`.
fn may_tell<R: Files>(rt: &R, limits: Limits, name: &str) -> bool {
    LONGEST_REASON.saturating_add(name.len() as u64) <= limits.room_behind(rt, limits::REASONS)
}

fn run<R: Env + Clock + Files + RandomSource + Print + Eprint + AllocGlobal>(
    rt: &R,
    limits: Limits,
) -> Result<ExitCode, Failure> {
    let hashing = limits::grow_stack(rt, limits)?;
    let args = match env::args(rt) {
        Ok(args) => args,
        // An argument is no text.
        Err(error) if error.kind() == ErrorKind::InvalidData => {
            return refused(rt, limits, "Bad word: ", "?");
        }
        Err(error) if error.kind() == ErrorKind::OutOfMemory => return Err(Failure::Memory),
        Err(error) => return Err(Failure::Words(Reason::of(&error))),
    };
    let words: Vec<String> = args.skip(1).collect(rt.alloc())?;
    let words: Vec<&str> = words.iter().map(|word| word.as_str()).collect(rt.alloc())?;
    match CommandLine::read(&words) {
        Ok(options) => compile_files(rt, limits, &options, hashing),
        Err(WordFault::NoSource) => without_source(rt, limits),
        Err(WordFault::Unknown(place) | WordFault::BadSetting(place) | WordFault::TooMany(place)) =>
            {
                let word = words.get(place).copied().unwrap_or("?");
                refused(rt, limits, "Bad word: ", word)
            }
    }
}

/// The end of a compilation.
#[derive(Drop)]
enum End {
    /// The source is compiled, and the system keeps its story.
    Success,
    /// The source has errors.
    Errors,
    /// No memory was left.
    Memory,
    /// The source of this name was not read.
    Unread(String),
    /// The messages were not written.
    Untold(Reason),
    /// This number of bytes of the story was written.
    Cut(usize, Reason),
    /// The story is whole, and the system may lose it.
    Unkept(Reason),
}

/// Compiles the source that the options name, with the date of the clock in UTC, and writes the messages to the standard output. Shows the
/// reason where a source or the story failed. Its frame is a large one, which `main` would have from its start if this were inlined.
#[inline(never)]
fn compile_files<R: Clock + Files + Print + Eprint + AllocGlobal>(
    rt: &R,
    limits: Limits,
    options: &Options<'_>,
    hashing: NameHashing,
) -> Result<ExitCode, Failure> {
    let date = dates::serial(Offset::UTC.to_datetime(Timestamp::now(rt)?).date());
    let named = command_line::story_name(rt.alloc(), options)?;
    let place = StoryPlace::new(named.as_str());
    let mut files = DiskFiles::new(rt.alloc(), rt, &place);
    let room = limits.room_of_story(rt, named.as_str());
    let story = Limited::new(StorySink::new(rt, &place), room);
    match compile_to(rt, limits, options, date, hashing, &mut files, story) {
        End::Success => Ok(ExitCode::SUCCESS),
        End::Errors => Ok(ExitCode::from(1)),
        End::Memory => Err(Failure::Memory),
        End::Unread(name) => Err(tell_source(rt, limits, name.as_str(), &files)),
        End::Untold(reason) => Err(Failure::Output(reason)),
        End::Cut(count, reason) => {
            let is_source = place.is_source();
            Err(tell_story(rt, limits, named.as_str(), count, is_source, reason))
        }
        End::Unkept(reason) => Err(tell_unkept(rt, limits, named.as_str(), reason)),
    }
}

/// Compiles the source that the options name among `files`, and has the system keep the bytes of a story that is whole.
///
/// The devices of the messages and of the story are gone behind it: the file of the story may have the number of an output that was closed,
/// where a reason must not go.
fn compile_to<R: Files + Print + AllocGlobal>(
    rt: &R,
    limits: Limits,
    options: &Options<'_>,
    date: [u8; 6],
    hashing: NameHashing,
    files: &mut DiskFiles<'_, R>,
    mut story: Limited<StorySink<'_, R>>,
) -> End {
    let room = limits.room_behind(rt, limits::OUTPUT);
    let mut messages = Limited::new(OutputSink::new(io::writer(rt)), room);
    match compile::compile(
        rt.alloc(),
        options,
        date,
        hashing,
        files,
        &mut messages,
        &mut story,
    ) {
        Ok(Status::Success) if story.sink.settle().is_ok() => End::Success,
        Ok(Status::Success) => End::Unkept(Reason::of_trouble(false, &story.sink.trouble)),
        Ok(Status::Errors) => End::Errors,
        Err(Fault::Memory) => End::Memory,
        Err(Fault::Read(name)) => End::Unread(name),
        Err(Fault::Messages) => End::Untold(Reason::of_trouble(
            messages.is_full,
            &messages.sink.trouble,
        )),
        Err(Fault::Story(count)) => End::Cut(
            count,
            Reason::of_trouble(story.is_full, &story.sink.trouble),
        ),
    }
}

/// Shows that the system may lose the story of this name, and why. Returns the failure of the run, whose reason is shown then.
fn tell_unkept<R: Files + Eprint>(rt: &R, limits: Limits, name: &str, reason: Reason) -> Failure {
    if may_tell(rt, limits, name) {
        let _ = rt.eprintln(format_args!("{name}: {reason}; the story may be lost"));
    }
    Failure::Told
}

/// The greatest number of bytes of a source.
const MOST_BYTES: u64 = 16_777_216;

/// The greatest number of names that the files of a run may have.
const MOST_NAMES: usize = 65_535;

/// Says on standard error why a source was not read, by its `name` or, if the system did not open it, by the name under which it was looked
/// for. Where the system gave no reason, its name is one too many, or it is too long. Returns the failure of the run, whose reason is shown
/// then.
fn tell_source<R: Files + Eprint>(
    rt: &R,
    limits: Limits,
    name: &str,
    files: &DiskFiles<'_, R>,
) -> Failure {
    let name = match &files.refused {
        Some(refused) => refused.as_str(),
        None => name,
    };
    if !may_tell(rt, limits, name) {
        return Failure::Told;
    }
    let _ = match files.trouble.reason {
        Some(_) => {
            let reason = Reason::of_trouble(false, &files.trouble);
            rt.eprintln(format_args!("{name}: {reason}"))
        }
        None if files.names.len() > MOST_NAMES => {
            rt.eprintln(format_args!("{name}: over {MOST_NAMES} files by name"))
        }
        None => rt.eprintln(format_args!("{name}: over {MOST_BYTES} bytes")),
    };
    Failure::Told
}

/// Shows on standard error why a story was not written whole, and the number of its bytes that were. Returns the failure of the run, whose
/// reason is shown then.
fn tell_story<R: Files + Eprint>(
    rt: &R,
    limits: Limits,
    name: &str,
    count: usize,
    is_source: bool,
    reason: Reason,
) -> Failure {
    if !may_tell(rt, limits, name) {
        return Failure::Told;
    }
    let _ = if is_source {
        rt.eprintln(format_args!("{name}: is a source of this story; nothing was written"))
    } else if reason.is_there_already() {
        rt.eprintln(format_args!(
            "{name}: is named as a source and is there already; nothing was written"
        ))
    } else {
        rt.eprintln(format_args!("{name}: {reason}; {count} bytes were written"))
    };
    Failure::Told
}

/// How the command is called.
const USAGE: &str = "\
usage: inform [WORD ..] SOURCE [STORY]

Compiles SOURCE (with .inf behind a name that has no dot) into STORY, or else into a file
beside it whose name ends in .z5 or .z8. Words, which may also stand in the source's first
lines behind !%:
  -LETTERS     w no warnings, e abbreviations, s statistics, i ignore Switches, D debugging,
               v5 v8 version, C0 C1 characters; ~ before a letter turns it off
  $NAME=n      a setting, such as $MAX_CODE=262144
  +DIR,DIR     where included files are looked for";

/// Prints that the words name no source, and says on standard error how the command is called.
fn without_source<R: Files + Print + Eprint>(rt: &R, limits: Limits) -> Result<ExitCode, Failure> {
    let code = refused(rt, limits, "no source", "")?;
    if may_tell(rt, limits, USAGE) {
        let _ = rt.eprintln(USAGE);
    }
    Ok(code)
}

/// Prints why the words were refused: a text, and the word behind it.
fn refused<R: Files + Print>(
    rt: &R,
    limits: Limits,
    text: &str,
    word: &str,
) -> Result<ExitCode, Failure> {
    let count = (text.len() as u64).saturating_add(word.len() as u64);
    if limits.room_behind(rt, limits::OUTPUT) <= count {
        return Err(Failure::Output(Reason::of_kind(ErrorKind::FileTooLarge)));
    }
    match rt.println(format_args!("{text}{word}")) {
        Ok(()) => Ok(ExitCode::from(2)),
        Err(error) => Err(Failure::Output(Reason::of(&error))),
    }
}
