//! Compilations of sources in memory, and what has to come of each.
use inf_command::command_line::CommandLine;
use inf_program::compile::compile;
use inf_program::{Fault, NameHashing, Status};
use inform_trials::devices::{Fused, Narrow, folder_of};
use std::alloc::Global;
use std::process::Abort;
use std::test::Fail;

/// The date of the stories.
const DATE: [u8; 6] = *b"260307";

/// The beginning of the last message about a source without an error.
const NO_ERROR: &str = "Errors: 0, ";

/// The files of a folder by their names, and all messages about `t.inf` among them.
pub type Folder = (&'static [(&'static str, &'static [u8])], &'static str);

/// How little the devices of a compilation give and take.
#[derive(Clone, Copy)]
pub struct Devices {
    /// The most bytes that a read gives.
    pub read: usize,
    /// The number of openings and reads behind which one fails.
    pub calls: usize,
    /// The most bytes of messages that a write takes, and those that are taken in all.
    pub messages: (usize, usize),
    /// The most bytes of the story that a write takes, and those that are taken in all.
    pub story: (usize, usize),
}

/// Devices that give and take all at once.
pub const ALL: Devices = Devices {
    read: usize::MAX,
    calls: usize::MAX,
    messages: (usize::MAX, usize::MAX),
    story: (usize::MAX, usize::MAX),
};

/// The outcome of a compilation.
#[derive(Clone, Copy)]
pub enum Outcome<'a> {
    /// The source is read. There is a story only where the messages report no error.
    Read,
    /// The file of this name cannot be opened or read, and there is no story.
    Unread(&'a str),
    /// The messages cannot be written further, and there is no story.
    Untold,
    /// Of the story this number of bytes is written.
    Cut(usize),
}

/// A compilation of `t.inf`, and what has to come of it.
#[derive(Clone, Copy)]
pub struct Trial<'a> {
    /// The words of the command.
    pub words: &'static [&'static str],
    /// The files of the folder, by their names.
    pub files: &'a [(&'a str, &'a [u8])],
    pub devices: Devices,
    pub outcome: Outcome<'a>,
    /// All messages that are written.
    pub lines: &'a str,
    /// The least and the greatest number of bytes that are given of `t.inf`.
    pub given: (usize, usize),
}

/// The words of a command that names the source alone.
static WORDS: [&str; 1] = ["t.inf"];

impl<'a> Trial<'a> {
    /// Makes a trial that reads `t.inf` among these files, by no other word and with devices that give and take all.
    pub fn new(files: &'a [(&'a str, &'a [u8])], lines: &'a str) -> Trial<'a> {
        Trial {
            words: &WORDS,
            files,
            devices: ALL,
            outcome: Outcome::Read,
            lines,
            given: (0, usize::MAX),
        }
    }
}

/// Returns whether the end of a compilation, with a story of `written` bytes, is the outcome of a trial.
fn is_outcome(trial: &Trial<'_>, ended: &Result<Status, Fault>, written: usize) -> bool {
    match trial.outcome {
        Outcome::Read if trial.lines.contains(NO_ERROR) => {
            matches!(ended, Ok(Status::Success)) && written > 0
        }
        Outcome::Read => matches!(ended, Ok(Status::Errors)) && written == 0,
        Outcome::Unread(name) => {
            matches!(ended, Err(Fault::Read(told)) if told.as_str() == name) && written == 0
        }
        Outcome::Untold => matches!(ended, Err(Fault::Messages)) && written == 0,
        Outcome::Cut(count) => {
            matches!(ended, Err(Fault::Story(told)) if *told == count) && written == count
        }
    }
}

/// Compiles with the devices of a trial, and asserts what comes of it: the outcome, the messages, the bytes that were given, and that no
/// file is open. Returns the story.
fn written(
    rt: &impl Abort,
    alloc: Global,
    trial: &Trial<'_>,
    files: &mut Fused,
    messages: &mut Narrow,
    story: &mut Narrow,
) -> Result<Vec<u8>, Fail> {
    let options = CommandLine::read(trial.words)?;
    let hashing = NameHashing::new(b"");
    let result = compile(alloc, &options, DATE, hashing, files, messages, story);
    let story = story.whole.bytes();
    let (lines, (least, most)) = (trial.lines, trial.given);
    assert_eq!(rt; messages.whole.bytes(), lines.as_bytes());
    assert!(rt; is_outcome(trial, &result, story.len()), "{lines:?}");
    assert!(rt; files.depth == 0, "{lines:?}");
    assert!(rt; least <= files.first && files.first <= most, "{lines:?}");
    Ok(Vec::from_slice(alloc, story)?)
}

/// Compiles with the files of a trial and a device for its messages, and asserts what comes of it. Returns the story.
fn play_among(
    rt: &impl Abort,
    alloc: Global,
    trial: &Trial<'_>,
    files: &mut Fused,
    messages: &mut Narrow,
) -> Result<Vec<u8>, Fail> {
    let (part, whole) = trial.devices.story;
    let mut story = Narrow::new(alloc, part, whole);
    written(rt, alloc, trial, files, messages, &mut story)
}

/// Compiles with the files of a trial, and asserts what comes of it. Returns the story.
fn play_with(
    rt: &impl Abort,
    alloc: Global,
    trial: &Trial<'_>,
    files: &mut Fused,
) -> Result<Vec<u8>, Fail> {
    let (part, whole) = trial.devices.messages;
    let mut messages = Narrow::new(alloc, part, whole);
    play_among(rt, alloc, trial, files, &mut messages)
}

/// Compiles the source of a trial, and asserts what comes of it. Returns the story.
pub fn play(rt: &impl Abort, alloc: Global, trial: &Trial<'_>) -> Result<Vec<u8>, Fail> {
    let folder = folder_of(alloc, trial.files)?;
    let mut files = Fused::new(folder, trial.devices.calls, trial.devices.read);
    play_with(rt, alloc, trial, &mut files)
}

/// Compiles `t.inf` of each folder, and asserts its messages.
pub fn play_all(rt: &impl Abort, alloc: Global, folders: &[Folder]) -> Result<(), Fail> {
    for (files, lines) in folders {
        play(rt, alloc, &Trial::new(*files, *lines))?;
    }
    Ok(())
}
