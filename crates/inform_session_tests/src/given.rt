//! The number of bytes of each source that were given behind each step of a session.
use crate::courses::{Answer, Call};
use crate::sessions::{Doing, Play, play_row};
use inform_trials::devices::{Piece, joined};
use std::alloc::Global;
use std::process::Abort;
use std::test::Fail;

/// The steps. The fifth reads the end of the included file, and the last but one that of the first.
static STEPS: [(Call, Answer); 8] = [
    (Call::Directive, Answer::Done),
    (Call::Directive, Answer::Done),
    (Call::Directive, Answer::Done),
    (Call::Directive, Answer::Done),
    (Call::Directive, Answer::Done),
    (Call::Directive, Answer::Done),
    (Call::Directive, Answer::Done),
    (Call::Directive, Answer::Syntax),
];

/// The number of steps, the messages behind them, and the ends of the pieces that were read: in the first source, and in the one that it
/// includes.
static ENDS: [(usize, &str, (usize, usize)); 8] = [
    (1, "a\n", (12, 0)),
    (2, "a\n", (5026, 0)),
    (3, "a\nc\n", (5026, 12)),
    (4, "a\nc\nd\n", (5026, 5024)),
    (5, "a\nc\nd\n", (5026, 5024)),
    (6, "a\nc\nd\nb\n", (10038, 5024)),
    (7, "a\nc\nd\nb\n", (10038, 5024)),
    (8, "a\nc\nd\nb\n", (10038, 5024)),
];

/// Plays the steps up to each, and asserts how many bytes were given then.
fn give_little(rt: &impl Abort, alloc: Global, outer: &[u8], inner: &[u8]) -> Result<(), Fail> {
    for (count, lines, ends) in &ENDS {
        let little = Play {
            included: inner,
            doing: Doing::Calls(&STEPS[..STEPS.len().min(*count)]),
            lines: *lines,
            given: Some(*ends),
            ..Play::of_steps(outer, &[])
        };
        play_row(rt, alloc, &little)?;
    }
    Ok(())
}

/// Three directives, of which the second is an inclusion, with 5,000 spaces between them.
static OUTER: [Piece<'static>; 5] = [
    (b"Message \"a\";", 1),
    (b" ", 5000),
    (b"Include \"c.h\";", 1),
    (b" ", 5000),
    (b"Message \"b\";", 1),
];

/// Two directives, with 5,000 spaces between them.
static INNER: [Piece<'static>; 3] = [(b"Message \"c\";", 1), (b" ", 5000), (b"Message \"d\";", 1)];

#[test]
fn of_each_source_little_is_given_behind_a_step(rt: HostRuntime) -> Result<(), Fail> {
    let outer = joined(rt.alloc(), &OUTER)?;
    let inner = joined(rt.alloc(), &INNER)?;
    give_little(&rt, rt.alloc(), outer.as_slice(), inner.as_slice())
}
