//! Courses of calls with a unit that passes a limit.
use crate::courses::{ALONE, Answer, Call, Course, STACK, UNLESS};
use crate::sessions::{Play, play_all, play_row};
use inf_area::Value;
use inf_output::Simple;
use std::test::Fail;

/// As many brackets as there may be, and one more.
static DEEP: Course = Course {
    source: b"[ Main x; ((((((((((((((((((((((((((((((((((((((((((((((((((((((((((((((((x)))))))))))))))))))))))))))))))))))))))))))))))))))))))))))))))); (((((((((((((((((((((((((((((((((((((((((((((((((((((((((((((((((x)))))))))))))))))))))))))))))))))))))))))))))))))))))))))))))))));",
    rows: &[
        (Call::Header, Answer::Done),
        (STACK, Answer::Left(Some(Simple::Variable(1)))),
        (STACK, Answer::Fatal),
    ],
    lines: "t.inf(1): Fatal error: Nesting over 64\n",
    code: b"",
};

/// The line where code has more bytes than it may have.
const FULL_CODE: &str = "t.inf(1): Fatal error: MAX_CODE is exceeded\n";

/// The most bytes that code may have, and a unit with which it has more: the first routine of a story has 8 bytes, a header one, and each
/// branch is long.
static FULL: [(u32, Course); 7] = [
    (
        8,
        Course {
            source: b"[ Main x; ];",
            rows: &[(Call::Header, Answer::Fatal), (Call::Close, Answer::Fatal)],
            lines: FULL_CODE,
            code: b"",
        },
    ),
    (
        9,
        Course {
            source: b"[ Main x; @new_line; ];",
            rows: &[(Call::Header, Answer::Done), (Call::Line, Answer::Fatal)],
            lines: FULL_CODE,
            code: b"",
        },
    ),
    (
        11,
        Course {
            source: b"[ Main x; x = 1; ];",
            rows: &[(Call::Header, Answer::Done), (ALONE, Answer::Fatal)],
            lines: FULL_CODE,
            code: b"",
        },
    ),
    (
        12,
        Course {
            source: b"[ Main x; x = 1; ];",
            rows: &[
                (Call::Header, Answer::Done),
                (ALONE, Answer::Left(None)),
                (Call::Close, Answer::Fatal),
            ],
            lines: FULL_CODE,
            code: b"",
        },
    ),
    (
        12,
        Course {
            source: b"[ Main x; x; ];",
            rows: &[(Call::Header, Answer::Done), (UNLESS, Answer::Fatal)],
            lines: FULL_CODE,
            code: b"",
        },
    ),
    (
        13,
        Course {
            source: b"[ Main x; x; ];",
            rows: &[(Call::Header, Answer::Done), (UNLESS, Answer::Done)],
            lines: "",
            code: b"",
        },
    ),
    (
        8,
        Course {
            source: b"[ Main x; x = 1; ];",
            rows: &[(Call::Routine, Answer::Fatal)],
            lines: FULL_CODE,
            code: b"",
        },
    ),
];

/// The line where an expression has more tokens than it may have.
const TOO_LONG: &str = "t.inf(1): Fatal error: MAX_EXPRESSION_NODES is exceeded\n";

/// Texts of each kind with an expression of four tokens at least, where three are as many as it may have. A semicolon is none of them.
static LONGER: [Course; 5] = [
    // Each call behind a fatal error.
    Course {
        source: b"[ Main x; x = 1; x = 1 + 1; x = 2; x; ]; [ F;",
        rows: &[
            (Call::Header, Answer::Done),
            (ALONE, Answer::Left(None)),
            (ALONE, Answer::Fatal),
            (UNLESS, Answer::Fatal),
            (Call::Constant, Answer::Fatal),
            (Call::Line, Answer::Fatal),
            (Call::Close, Answer::Fatal),
            (Call::Routine, Answer::Fatal),
            (Call::Header, Answer::Fatal),
        ],
        lines: TOO_LONG,
        code: b"",
    },
    Course {
        source: b"[ Main x; x == 1; x == 1 + 1; ];",
        rows: &[
            (Call::Header, Answer::Done),
            (UNLESS, Answer::Done),
            (UNLESS, Answer::Fatal),
        ],
        lines: TOO_LONG,
        code: b"",
    },
    Course {
        source: b"1 + 1; 1 + 1 + 1;",
        rows: &[
            (Call::Constant, Answer::Is(Value::Known(2))),
            (Call::Constant, Answer::Fatal),
        ],
        lines: TOO_LONG,
        code: b"",
    },
    Course {
        source: b"[ Main x; @print_num (x + 1); ];",
        rows: &[(Call::Header, Answer::Done), (Call::Line, Answer::Fatal)],
        lines: TOO_LONG,
        code: b"",
    },
    Course {
        source: b"[ Main x; x = 1 + 1; ];",
        rows: &[(Call::Routine, Answer::Fatal)],
        lines: TOO_LONG,
        code: b"",
    },
];

/// The names of two settings.
const CODE: &[u8] = b"MAX_CODE";

const NODES: &[u8] = b"MAX_EXPRESSION_NODES";

#[test]
fn a_unit_passes_a_limit(rt: HostRuntime) -> Result<(), Fail> {
    for (most, course) in &FULL {
        let full = Play {
            setting: Some((CODE, *most)),
            ..Play::new(course)
        };
        play_row(&rt, rt.alloc(), &full)?;
    }
    let three = Some((NODES, 3));
    play_all(&rt, rt.alloc(), &LONGER, three)?;
    let deep = Play {
        setting: Some((NODES, 1000)),
        ..Play::new(&DEEP)
    };
    play_row(&rt, rt.alloc(), &deep)?;
    Ok(())
}
