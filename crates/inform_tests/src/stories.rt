//! The story that a compilation writes.
use crate::trials::{ALL, Devices, Outcome, Trial, play};
use inform_trials::devices::{Piece, joined};
use std::alloc::Global;
use std::process::Abort;
use std::test::Fail;

/// A source of 25 bytes.
const GREETING: &[u8] = b"[ Main; print \"hello\"; ];";

/// Pieces of the greeting's story, with how often each is there.
static PIECES: [Piece<'static>; 20] = [
    (b"\x05\x00\x00\x01\x03\xC0\x03\xC1\x03\xB8", 1),
    (b"\x01\x02\x01\xD8\x03\xB8\x00\x00260307\x00\x42", 1),
    // the length and the checksum of the story
    (b"\x00\xF4\x1E\x6D", 1),
    (b"\x00", 34),
    (b"\x80\x00", 1),
    (b"\x00\x20", 96),
    (b"\x00", 126 + 12),
    (b"\x01\xB8", 1),
    (b"\x00", 12),
    (b"\x01\xBE", 1),
    (b"\x00", 12),
    (b"\x01\xC6", 1),
    (b"\x00", 12),
    (b"\x01\xCE\x02\x11\x11\x9B\x18\x00", 1),
    (b"\x03\x12\x87\x3D\x48\xE4\xA5\x00", 1),
    (b"\x03\x12\xF4\x6B\x2E\xCD\x45\x00", 1),
    (b"\x03\x13\x19\x5D\xD3\xB0\xA5\x00", 1),
    (b"\x00", 482),
    (b"\x03.,\"\x09\x00\x00\x00", 1),
    // the code of the story
    (
        b"\x00\x8F\x00\xF2\xBA\x00\x00\x00\x00\xB2\x35\x51\xC6\x85\xB0\x00",
        1,
    ),
];

/// The most bytes of a read, the number of openings and reads, and the most bytes of the story at a write and in all; the outcome, and the
/// number of bytes that are written of the story.
type Written = (usize, usize, (usize, usize), Outcome<'static>, usize);

/// The greatest number, where there is no limit.
const NONE: usize = usize::MAX;

/// Devices for the greeting.
static WRITTEN: [Written; 9] = [
    // The story does not depend on the number of bytes that a read gives.
    (1, NONE, (NONE, NONE), Outcome::Read, 976),
    (2, NONE, (NONE, NONE), Outcome::Read, 976),
    (3, NONE, (NONE, NONE), Outcome::Read, 976),
    (7, NONE, (NONE, NONE), Outcome::Read, 976),
    (4096, NONE, (NONE, NONE), Outcome::Read, 976),
    (NONE, NONE, (NONE, NONE), Outcome::Read, 976),
    // A read behind the end would fail.
    (NONE, 3, (NONE, NONE), Outcome::Read, 976),
    // One byte a write is taken, or a hundred in all.
    (NONE, NONE, (1, NONE), Outcome::Read, 976),
    (NONE, NONE, (64, 100), Outcome::Cut(100), 100),
];

/// Compiles the greeting with each of these devices, and asserts what is written of its story, of which `whole` has all bytes.
fn greet_all(rt: &impl Abort, alloc: Global, whole: &[u8]) -> Result<(), Fail> {
    let files = [("t.inf", GREETING)];
    for (read, calls, story, outcome, count) in &WRITTEN {
        let trial = Trial {
            devices: Devices {
                read: *read,
                calls: *calls,
                story: *story,
                ..ALL
            },
            outcome: *outcome,
            given: (25, 25),
            ..Trial::new(&files, "Errors: 0, warnings: 0\n")
        };
        let written = play(rt, alloc, &trial)?;
        let front = &whole[..whole.len().min(*count)];
        assert_eq!(rt; written.as_slice(), front);
    }
    Ok(())
}

#[test]
fn a_story_is_given_byte_for_byte(rt: HostRuntime) -> Result<(), Fail> {
    let whole = joined(rt.alloc(), &PIECES)?;
    assert!(rt; whole.len() == 976);
    greet_all(&rt, rt.alloc(), whole.as_slice())
}
