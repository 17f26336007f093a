//! Sessions of which texts are read: how each is made, what is done in it, and how it ends.
ghost use Rattle.inf_session.specs.{Choices.chosen, Standing.IsSet};
ghost use Rattle.inf_settings.specs.Bounds.{AreSet};
ghost use Rattle.std.specs.Prelude.{◌≡◌, ◌<◌, IfOk, false, length};

use crate::courses::{Answer, Call, Course};
use crate::playing::make_all;
use crate::steps::Wanted;
use inf_calls::cx::Cx;
use inf_devices::files::Files;
use inf_ending::compiled::{Compiled, Status};
use inf_ending::faults::Fault;
use inf_letters::Letters;
use inf_names::hashing::NameHashing;
use inf_session::session::Session;
use inf_session::setup::Setup;
use inf_settings::bounds::Bounds;
use inf_settings::setting::Setting;
use inf_settings::settings::Settings;
use inf_sources::open_files::OpenFiles;
use inf_text::CharSet;
use inform_trials::devices::{Fused, Narrow, folder_of};
use std::alloc::{AllocError, Global};
use std::marker::Brand;
use std::process::Abort;
use std::test::Fail;

/// Place of the first routine of a source in a story that has nothing else, behind the first routine of the story.
const FIRST_CODE: usize = 0x3C8;

/// The calls or the steps that are made in a session.
#[derive(Clone, Copy)]
pub enum Doing<'a> {
    /// Calls, with their answers.
    Calls(&'a [(Call, Answer)]),
    /// Steps, with the messages and numbers behind each.
    Steps(&'a [Wanted]),
}

impl Doing<'_> {
    /// Returns the number of calls or steps.
    pub fn len(self) -> usize {
        match self {
            Doing::Calls(rows) => rows.len(),
            Doing::Steps(steps) => steps.len(),
        }
    }
}

/// A session, and what has to come of it.
#[derive(Clone, Copy)]
pub struct Play<'a> {
    pub source: &'a [u8],
    /// The source `c.h`.
    pub included: &'a [u8],
    /// A setting and its number, where one is not as usual.
    pub setting: Option<(&'static [u8], u32)>,
    /// The number of openings and reads behind which one fails.
    pub calls: usize,
    /// The most bytes of messages that are taken.
    pub room: usize,
    pub doing: Doing<'a>,
    /// The messages up to the end of the session.
    pub lines: &'a str,
    /// The messages at the end, where there are errors and they are looked at.
    pub last: Option<&'a str>,
    /// The code of the story from the source's first routine on.
    pub code: &'a [u8],
    /// The ends of the pieces that were read of both sources, where they are looked at.
    pub given: Option<(usize, usize)>,
}

impl<'a> Play<'a> {
    /// Returns the play of a course with the usual settings.
    pub fn new(course: &Course) -> Play<'static> {
        Play::of_source(course.source, course)
    }

    /// Returns the play of a course in another source, with the usual settings.
    pub fn of_source(source: &'a [u8], course: &Course) -> Play<'a> {
        Play {
            doing: Doing::Calls(course.rows),
            lines: course.lines,
            code: course.code,
            ..Play::of_steps(source, &[])
        }
    }

    /// Returns the play of some steps with the usual settings, up to the messages behind the last of them.
    pub fn of_steps(source: &'a [u8], steps: &'a [Wanted]) -> Play<'a> {
        let lines = match steps.last() {
            Some((_, lines, _, _)) => *lines,
            None => "",
        };
        Play {
            source,
            included: b"",
            setting: None,
            calls: usize::MAX,
            room: usize::MAX,
            doing: Doing::Steps(steps),
            lines,
            last: None,
            code: b"",
            given: None,
        }
    }
}

/// Makes a session at the front of `t.inf`, of which texts are read.
fn begin<'a, B: Bounds, F: Files>(
    alloc: Global,
    settings: &'a Settings,
    files: &mut F,
) -> Result<Cx<'a, B>, Fail>
    requires { AreSet B.most settings.now }
    ensures is_open { IfOk result (λ cx. length cx.session.open_files.outer < F.depth files.new) }
    ensures goes { IfOk result (λ cx. cx.session.open_files.lexer.has_failed ≡ false) }
    ensures set { IfOk result (λ cx. IsSet cx.session) }
    ensures known { IfOk result (λ cx. (chosen cx.session.setup).settings ≡ cx.settings.now) }
{
    let limit = settings.of(Setting::QuotedText);
    let open_files = OpenFiles::enter_main(alloc, CharSet::Latin1, limit, files, "t.inf")?;
    let setup = Setup {
        letters: Letters::none(),
        settings,
        directories: &[],
        hashing: NameHashing::new(b""),
    };
    let Ok(session) = Session::new(alloc, setup, open_files) else {
        return Err(AllocError.into());
    };
    Ok(Cx { settings, session })
}

/// Ends a session on 7 March 2026, and closes its files.
fn finish<B: Bounds, F: Files>(
    cx: Cx<'_, B>,
    files: &mut F,
    messages: &mut Narrow,
) -> Result<Compiled, Fault>
    requires is_open { length cx.session.open_files.outer < F.depth files.old }
{
    let Cx { session, .. } = cx;
    let (open_files, compiled) = session.finish(b"260307", messages);
    open_files.close(files);
    compiled
}

/// Makes a session, does in it what is to be done, and ends it with its last messages in `others`. Returns its end, where it is written.
fn play_under<B: Bounds, F: Files>(
    rt: &impl Abort,
    alloc: Global,
    settings: &Settings,
    doing: Doing<'_>,
    files: &mut F,
    messages: &mut Narrow,
    others: &mut Narrow,
) -> Result<Option<Compiled>, Fail>
    requires { AreSet B.most settings.now }
{
    let mut cx = begin::<B, F>(alloc, settings, files)?;
    make_all(rt, &mut cx, files, messages, doing);
    Ok(finish(cx, files, others).ok())
}

/// Returns whether `given` bytes of a source are those up to the end of a piece, with at most a window behind it.
fn is_near(given: usize, end: usize) -> bool {
    given >= end && given <= end.saturating_add(4096)
}

/// Returns whether a story has this code from the source's first routine on; where there is no story, there is none.
fn has_code(story: &Option<Vec<u8>>, code: &[u8]) -> bool {
    match story {
        Some(story) => {
            let bytes = story.as_slice().iter().skip(FIRST_CODE);
            bytes.zip(code).all(|(is, wanted)| is == wanted)
        }
        None => code.is_empty(),
    }
}

/// Plays a session with these settings, files and messages. Asserts all that comes of it but the messages, and returns the story, where
/// there is one.
fn play_among(
    rt: &impl Abort,
    alloc: Global,
    settings: &Settings,
    row: &Play<'_>,
    files: &mut Fused,
    messages: &mut Narrow,
) -> Result<Option<Vec<u8>>, Fail> {
    let mut others = Narrow::new(alloc, usize::MAX, usize::MAX);
    let compiled = play_under::<Brand, Fused>(
        rt,
        alloc,
        settings,
        row.doing,
        files,
        messages,
        &mut others,
    )?;
    if let Some(last) = row.last {
        assert_eq!(rt; others.whole.bytes(), last.as_bytes());
        assert!(rt; matches!(&compiled, Some(compiled) if compiled.status == Status::Errors));
    }
    if let Some((first, included)) = row.given {
        assert!(rt; is_near(files.first, first) && is_near(files.included, included));
    }
    let story = match compiled {
        Some(compiled) => compiled.story,
        None => None,
    };
    assert!(rt; has_code(&story, row.code));
    Ok(story)
}

/// Plays a session with these settings and files, asserts what comes of it, and returns the story, where there is one.
fn play_with(
    rt: &impl Abort,
    alloc: Global,
    settings: &Settings,
    row: &Play<'_>,
    files: &mut Fused,
) -> Result<Option<Vec<u8>>, Fail> {
    let mut messages = Narrow::new(alloc, usize::MAX, row.room);
    let story = play_among(rt, alloc, settings, row, files, &mut messages);
    assert_eq!(rt; messages.whole.bytes(), row.lines.as_bytes());
    story
}

/// Plays a session from the front of `t.inf` on, asserts what comes of it, and returns the story, where there is one.
pub fn play_row(rt: &impl Abort, alloc: Global, row: &Play<'_>) -> Result<Option<Vec<u8>>, Fail> {
    let mut settings = Settings::new();
    if let Some((name, number)) = row.setting {
        settings.set(name, number)?;
    }
    let folder = folder_of(alloc, &[("t.inf", row.source), ("c.h", row.included)])?;
    let mut files = Fused::new(folder, row.calls, usize::MAX);
    play_with(rt, alloc, &settings, row, &mut files)
}

/// Plays some courses with a setting, or with the usual ones.
pub fn play_all(
    rt: &impl Abort,
    alloc: Global,
    courses: &[Course],
    setting: Option<(&'static [u8], u32)>,
) -> Result<(), Fail> {
    for course in courses {
        let row = Play {
            setting,
            ..Play::new(course)
        };
        play_row(rt, alloc, &row)?;
    }
    Ok(())
}
