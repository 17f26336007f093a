//! Calls at which the session fails: the source cannot be read further, or the messages cannot be written.
use crate::courses::{ALONE, Answer, Call, Course, UNLESS};
use crate::sessions::{Play, play_row};
use inform_trials::devices::joined;
use std::alloc::Global;
use std::process::Abort;
use std::test::Fail;

/// The line about the bad text before the one at which reading fails.
const BAD: &str = "t.inf(2): Error: Syntax error at \")\"\n";

/// Texts of each kind of which some tokens come before the read that fails.
static UNREAD: [Course; 7] = [
    Course {
        source: b"[ Main x;\x0Ax = ) 7; x = 1 +",
        rows: &[
            (Call::Header, Answer::Done),
            (ALONE, Answer::Syntax),
            (ALONE, Answer::Unread),
        ],
        lines: BAD,
        code: b"",
    },
    Course {
        source: b"[ Main x;\x0Ax = ) 7; x ==",
        rows: &[
            (Call::Header, Answer::Done),
            (ALONE, Answer::Syntax),
            (UNLESS, Answer::Unread),
        ],
        lines: BAD,
        code: b"",
    },
    Course {
        source: b"[ Main x;\x0Ax = ) 7; 1 +",
        rows: &[
            (Call::Header, Answer::Done),
            (ALONE, Answer::Syntax),
            (Call::Constant, Answer::Unread),
        ],
        lines: BAD,
        code: b"",
    },
    Course {
        source: b"[ Main x;\x0Ax = ) 7; @add x",
        rows: &[
            (Call::Header, Answer::Done),
            (ALONE, Answer::Syntax),
            (Call::Line, Answer::Unread),
        ],
        lines: BAD,
        code: b"",
    },
    Course {
        source: b"[ Main x;\x0Ax = ) 7; x = 1; ]",
        rows: &[
            (Call::Header, Answer::Done),
            (ALONE, Answer::Syntax),
            (ALONE, Answer::Left(None)),
            (Call::Close, Answer::Unread),
        ],
        lines: BAD,
        code: b"",
    },
    Course {
        source: b"\x0A[ ); [ F x",
        rows: &[
            (Call::Header, Answer::Wrong),
            (Call::Header, Answer::Unread),
        ],
        lines: BAD,
        code: b"",
    },
    Course {
        source: b"\x0A[ ); [ F x; x =",
        rows: &[
            (Call::Header, Answer::Wrong),
            (Call::Routine, Answer::Unread),
        ],
        lines: BAD,
        code: b"",
    },
];

/// The front of a line that is written before the write that fails.
const FRONT: &str = "t.inf";

/// Texts of each kind with an error, told by the reading or at the end of the unit.
static UNWRITTEN: [Course; 9] = [
    Course {
        source: b"[ Main x; x = ) 7;",
        rows: &[(Call::Header, Answer::Done), (ALONE, Answer::Unwritten)],
        lines: FRONT,
        code: b"",
    },
    Course {
        source: b"[ Main x; 5 = 1;",
        rows: &[(Call::Header, Answer::Done), (ALONE, Answer::Unwritten)],
        lines: FRONT,
        code: b"",
    },
    Course {
        source: b"[ Main x; 5 = 1;",
        rows: &[(Call::Header, Answer::Done), (UNLESS, Answer::Unwritten)],
        lines: FRONT,
        code: b"",
    },
    Course {
        source: b"1, 2;",
        rows: &[(Call::Constant, Answer::Unwritten)],
        lines: FRONT,
        code: b"",
    },
    Course {
        source: b"1/0;",
        rows: &[(Call::Constant, Answer::Unwritten)],
        lines: FRONT,
        code: b"",
    },
    Course {
        source: b"[ Main x; @add x;",
        rows: &[
            (Call::Header, Answer::Done),
            (Call::Line, Answer::Unwritten),
        ],
        lines: FRONT,
        code: b"",
    },
    Course {
        source: b"[ F x x;",
        rows: &[(Call::Header, Answer::Unwritten)],
        lines: FRONT,
        code: b"",
    },
    Course {
        source: b"[ Main x; @je x 1 ?~L; ];",
        rows: &[
            (Call::Header, Answer::Done),
            (Call::Line, Answer::Done),
            (Call::Close, Answer::Unwritten),
        ],
        lines: FRONT,
        code: b"",
    },
    Course {
        source: b"[ F x; x = ); ];",
        rows: &[(Call::Routine, Answer::Unwritten)],
        lines: FRONT,
        code: b"",
    },
];

/// Plays a course where its source has 5,000 spaces more, and its second read fails.
fn lose_source(rt: &impl Abort, alloc: Global, course: &Course) -> Result<(), Fail> {
    let source = joined(alloc, &[(course.source, 1), (b" ", 5000)])?;
    let unread = Play {
        calls: 2,
        ..Play::of_source(source.as_slice(), course)
    };
    play_row(rt, alloc, &unread)?;
    Ok(())
}

#[test]
fn sources_cannot_be_read(rt: HostRuntime) -> Result<(), Fail> {
    for course in &UNREAD {
        lose_source(&rt, rt.alloc(), course)?;
    }
    Ok(())
}

#[test]
fn messages_cannot_be_written(rt: HostRuntime) -> Result<(), Fail> {
    for course in &UNWRITTEN {
        let unwritten = Play {
            room: FRONT.len(),
            ..Play::new(course)
        };
        play_row(&rt, rt.alloc(), &unwritten)?;
    }
    Ok(())
}
