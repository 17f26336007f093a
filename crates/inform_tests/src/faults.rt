//! Each call of a device fails in turn: openings and reads of files, writes of messages and of the story.
use crate::fault_rows::{ROWS, Row};
use crate::reading::HEADED;
use crate::trials::{ALL, Devices, Outcome, Trial, play};
use inform_trials::devices::{Piece, joined};
use std::alloc::Global;
use std::process::Abort;
use std::test::Fail;

/// The calls that fail in turn.
#[derive(Clone, Copy)]
enum Turn {
    /// Each opening and each read, which gives one byte.
    Read,
    /// Each write of messages, which takes one byte.
    Message,
    /// Each write of the story, which takes 100 bytes: before its first byte and before its last.
    Story,
}

/// Returns the name of the file that a failure of the call behind `calls` others names, and the messages before it.
fn told_at(row: &Row, calls: usize) -> (&'static str, &'static str) {
    let mut told = ("t.inf", "");
    for (first, name, lines) in row.told {
        if *first <= calls {
            told = (*name, *lines);
        }
    }
    told
}

/// Returns the trial of a row at a place of a turn, where the story has `length` bytes.
fn trial_at(row: &Row, turn: Turn, place: usize, length: usize) -> Trial<'static> {
    let mut devices = ALL;
    let mut outcome = Outcome::Read;
    let mut lines = row.lines;
    match turn {
        Turn::Read => {
            devices.read = 1;
            devices.calls = place;
            if place < row.calls {
                let (name, told) = told_at(row, place);
                outcome = Outcome::Unread(name);
                lines = told;
            }
        }
        Turn::Message => {
            devices.messages = (1, place);
            if let Some((front, rest)) = lines.split_at_checked(place) {
                if !rest.is_empty() {
                    outcome = Outcome::Untold;
                    lines = front;
                }
            }
        }
        Turn::Story => {
            let behind = if place % 2 == 0 { 0 } else { 99 };
            let room = (place / 2).saturating_mul(100).saturating_add(behind);
            devices.story = (100, room);
            if room < length {
                outcome = Outcome::Cut(room);
            }
        }
    }
    Trial {
        devices,
        outcome,
        lines,
        ..Trial::new(row.files, row.lines)
    }
}

/// Has the calls of a turn fail, one in each trial and none in the last. Asserts what comes of each, and the bytes of the story, of which
/// `whole` has all.
fn fail_in_turn(
    rt: &impl Abort,
    alloc: Global,
    row: &Row,
    turn: Turn,
    whole: &[u8],
) -> Result<(), Fail> {
    let last = match turn {
        Turn::Read => row.calls,
        Turn::Message => row.lines.len(),
        Turn::Story => (whole.len() / 100).saturating_mul(2).saturating_add(2),
    };
    for place in 0..=last {
        let trial = trial_at(row, turn, place, whole.len());
        let written = play(rt, alloc, &trial)?;
        let count = match trial.outcome {
            Outcome::Read => whole.len(),
            Outcome::Unread(_) | Outcome::Untold => 0,
            Outcome::Cut(count) => count,
        };
        let front = &whole[..whole.len().min(count)];
        assert_eq!(rt; written.as_slice(), front);
    }
    Ok(())
}

/// Has each call of a turn fail that a row makes.
fn fail_each(rt: &impl Abort, alloc: Global, row: &Row, turn: Turn) -> Result<(), Fail> {
    let whole = play(rt, alloc, &Trial::new(row.files, row.lines))?;
    fail_in_turn(rt, alloc, row, turn, whole.as_slice())
}

#[test]
fn each_open_and_each_read_fails_in_turn(rt: HostRuntime) -> Result<(), Fail> {
    for row in &ROWS {
        fail_each(&rt, rt.alloc(), row, Turn::Read)?;
    }
    Ok(())
}

#[test]
fn each_write_of_messages_fails_in_turn(rt: HostRuntime) -> Result<(), Fail> {
    for row in &ROWS {
        fail_each(&rt, rt.alloc(), row, Turn::Message)?;
    }
    Ok(())
}

#[test]
fn each_write_of_the_story_fails_in_turn(rt: HostRuntime) -> Result<(), Fail> {
    for row in &ROWS {
        fail_each(&rt, rt.alloc(), row, Turn::Story)?;
    }
    Ok(())
}

/// Has a call fail behind each number of calls under `count`, which all come before the first message.
fn fail_early(rt: &impl Abort, alloc: Global, trial: &Trial<'_>, count: usize) -> Result<(), Fail> {
    for calls in 0..count {
        let trial = Trial {
            devices: Devices {
                calls,
                ..trial.devices
            },
            outcome: Outcome::Unread("t.inf"),
            lines: "",
            ..*trial
        };
        play(rt, alloc, &trial)?;
    }
    Ok(())
}

/// Has a call fail behind each number of calls, for a source with a long head and for one with a short head. The first is opened, its
/// 10,071 bytes come in eleven reads, and its end is read. The semicolon of the other one's message comes behind 57 bytes, one byte a read.
fn fail_in_heads(rt: &impl Abort, alloc: Global) -> Result<(), Fail> {
    let long = joined(alloc, &LONG)?;
    let files = [("t.inf", long.as_slice())];
    let whole = Trial {
        devices: Devices {
            read: 1000,
            calls: 13,
            ..ALL
        },
        ..Trial::new(&files, "d\nErrors: 0, warnings: 0\n")
    };
    play(rt, alloc, &whole)?;
    fail_early(rt, alloc, &whole, 12)?;
    let unread = Trial {
        devices: Devices {
            read: 1000,
            calls: 12,
            ..ALL
        },
        outcome: Outcome::Unread("t.inf"),
        ..Trial::new(&files, "d\n")
    };
    play(rt, alloc, &unread)?;
    let short = Trial {
        devices: Devices { read: 1, ..ALL },
        ..Trial::new(&SHORT, "")
    };
    fail_early(rt, alloc, &short, 59)
}

/// A source with a short head.
static SHORT: [(&str, &[u8]); 1] = [("t.inf", HEADED)];

/// The pieces of a source with more spaces than a window has bytes before each of two words of its head.
static LONG: [Piece<'static>; 5] = [
    (b"!% -D", 1),
    (b" ", 5000),
    (b"-w\n!%", 1),
    (b" ", 5000),
    (
        b"$MAX_CODE=999\n[ Main x; ]; #Ifdef DEBUG; Message \"d\"; #Endif;",
        1,
    ),
];

#[test]
fn a_failed_read_is_not_the_end_of_a_head(rt: HostRuntime) -> Result<(), Fail> {
    fail_in_heads(&rt, rt.alloc())
}

/// The files of a folder, and the number of openings and reads, of one byte each, behind which one fails; the file that is named then, and
/// the messages before it.
static UNREAD: [(&[(&str, &[u8])], usize, &str, &str); 2] = [
    // Messages are written as they are found.
    (
        &[("t.inf", b"Message \"a\"; Message \"b\"; Mess")],
        31,
        "t.inf",
        "a\nb\n",
    ),
    // A file that cannot be opened is named.
    (
        &[
            ("t.inf", b"Message \"a\"; Include \"c.h\"; Message \"b\";"),
            ("c.h", b""),
        ],
        28,
        "c.h",
        "a\n",
    ),
];

/// A source without a byte.
static EMPTY: [(&str, &[u8]); 1] = [("t.inf", b"")];

#[test]
fn failures_are_told(rt: HostRuntime) -> Result<(), Fail> {
    for (files, calls, name, lines) in &UNREAD {
        let unread = Trial {
            devices: Devices {
                read: 1,
                calls: *calls,
                ..ALL
            },
            outcome: Outcome::Unread(*name),
            ..Trial::new(*files, *lines)
        };
        play(&rt, rt.alloc(), &unread)?;
    }
    let untold = Trial {
        devices: Devices {
            messages: (4096, 10),
            ..ALL
        },
        outcome: Outcome::Untold,
        ..Trial::new(&EMPTY, "t.inf(1): ")
    };
    play(&rt, rt.alloc(), &untold)?;
    Ok(())
}
