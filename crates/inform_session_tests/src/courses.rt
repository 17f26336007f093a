//! Courses of calls: a source, the calls with their answers, the messages, and the code of the story.
use crate::sessions::{Play, play_all, play_row};
use inf_area::{Target, Value};
use inf_calls::cx::{Closed, Want};
use inf_output::Simple;
use std::alloc::AllocError;
use std::test::Fail;

/// A call.
#[derive(Clone, Copy, Debug)]
pub enum Call {
    Directive,
    Header,
    /// An expression, with the use that is made of its value.
    Use(Want),
    /// A condition, with the truth at which it branches.
    Branch(bool),
    Constant,
    Line,
    Mark,
    Close,
    Routine,
}

/// The answer to a call.
#[derive(Clone, Copy, Debug, PartialEq, Eq)]
pub enum Answer {
    Done,
    Left(Option<Simple>),
    Is(Value),
    Stands(Closed),
    Syntax,
    Semantic,
    Wrong,
    Fatal,
    /// The session has failed: `t.inf` cannot be read further.
    Unread,
    /// The session has failed: the messages cannot be written further.
    Unwritten,
    /// The session has failed otherwise.
    Lost,
}

/// An expression of which nothing is wanted, and one that is an operand.
pub const ALONE: Call = Call::Use(Want::Nothing);

pub const STACK: Call = Call::Use(Want::Stack);

/// A condition that branches where it is true, and one that branches where it is false.
pub const WHEN: Call = Call::Branch(true);

pub const UNLESS: Call = Call::Branch(false);

/// A source, the calls and their answers, the messages, and the code of the story from the source's first routine on: none, where
/// there is no story, or it is not looked at.
pub struct Course {
    pub source: &'static [u8],
    pub rows: &'static [(Call, Answer)],
    pub lines: &'static str,
    pub code: &'static [u8],
}

/// A routine of which each unit is a statement.
const ROUTINE: &[u8] =
    b"[ Main x y; x = y - 1 - 2 * 3; @add x 1 -> x; x++; y = x / 2; @print_num y; ];";

/// The code of this routine.
const ROUTINE_CODE: &[u8] =
    b"\x02U\x02\x01\x00U\x00\x06\x01T\x01\x01\x01\x95\x01W\x01\x02\x02\xE6\xBF\x02\xB0\x00";

/// A course that reads a routine by its header, its units and its end, each by a call.
static PIECEWISE: Course = Course {
    source: ROUTINE,
    rows: &[
        (Call::Header, Answer::Done),
        (ALONE, Answer::Left(None)),
        (Call::Line, Answer::Done),
        (ALONE, Answer::Left(None)),
        (ALONE, Answer::Left(None)),
        (Call::Line, Answer::Done),
        (Call::Close, Answer::Done),
    ],
    lines: "",
    code: ROUTINE_CODE,
};

/// A course that reads the routine of `PIECEWISE` by one call, from its bracket to its semicolon.
static WHOLE: Course = Course {
    source: ROUTINE,
    rows: &[(
        Call::Routine,
        Answer::Stands(Closed {
            start: 8,
            len: 24,
            refs: 0,
        }),
    )],
    lines: "",
    code: ROUTINE_CODE,
};

/// Courses with the usual settings and no included file.
static USUAL: [Course; 15] = [
    // A condition that branches where it is false.
    Course {
        source: b"[ Main x; x == 1 or 2 or 3 or 4; @new_line; ];",
        rows: &[
            (Call::Header, Answer::Done),
            (UNLESS, Answer::Done),
            (Call::Line, Answer::Done),
            (Call::Mark, Answer::Done),
            (Call::Close, Answer::Done),
        ],
        lines: "",
        code: b"\x01\xC1\x95\x01\x01\x02\x03\xC6A\x01\x04C\xBB\xB0",
    },
    // A condition that branches where it is true.
    Course {
        source: b"[ Main x y; x && y > 2; @quit; @new_line; ];",
        rows: &[
            (Call::Header, Answer::Done),
            (WHEN, Answer::Done),
            (Call::Line, Answer::Done),
            (Call::Mark, Answer::Done),
            (Call::Line, Answer::Done),
            (Call::Close, Answer::Done),
        ],
        lines: "",
        code: b"\x02\xA0\x01\xC6C\x02\x02\xC3\xBA\xBB\xB0",
    },
    // Expressions, and the operands that they leave.
    Course {
        source: b"[ Main x y; x = y - 1 - 2 * 3; y; x + y; x + 1; 7; ];",
        rows: &[
            (Call::Header, Answer::Done),
            (ALONE, Answer::Left(None)),
            (STACK, Answer::Left(Some(Simple::Variable(2)))),
            (STACK, Answer::Left(Some(Simple::Variable(0)))),
            (
                Call::Use(Want::Variable(16)),
                Answer::Left(Some(Simple::Variable(16))),
            ),
            (ALONE, Answer::Left(None)),
            (Call::Close, Answer::Done),
        ],
        lines: "",
        code: b"\x02U\x02\x01\x00U\x00\x06\x01t\x01\x02\x00T\x01\x01\x10\xB0",
    },
    // Constants, of which one is a name that is declared nowhere.
    Course {
        source: b"Constant K = 3; [ Main; ]; K; K + 4 * 2; 'x'; later; 1/0;",
        rows: &[
            (Call::Directive, Answer::Done),
            (
                Call::Routine,
                Answer::Stands(Closed {
                    start: 8,
                    len: 4,
                    refs: 0,
                }),
            ),
            (Call::Constant, Answer::Is(Value::Known(3))),
            (Call::Constant, Answer::Is(Value::Known(11))),
            (Call::Constant, Answer::Is(Value::Known(120))),
            (Call::Constant, Answer::Is(Value::Later(Target::Name(2)))),
            (Call::Constant, Answer::Semantic),
        ],
        lines: "t.inf(1): Error: Constant out of range\n",
        code: b"",
    },
    // A constant that is declared behind its use.
    Course {
        source: b"[ Main x; x = L; ]; L; Constant L = 9;",
        rows: &[
            (Call::Header, Answer::Done),
            (ALONE, Answer::Left(None)),
            (Call::Close, Answer::Done),
            (Call::Constant, Answer::Is(Value::Later(Target::Name(1)))),
            (Call::Directive, Answer::Done),
        ],
        lines: "",
        code: b"\x01\xCDO\x01\x00\x09\xB0",
    },
    // A line of assembly.
    Course {
        source: b"[ Main x; @add x 1 -> x; ];",
        rows: &[
            (Call::Header, Answer::Done),
            (Call::Line, Answer::Done),
            (Call::Close, Answer::Done),
        ],
        lines: "",
        code: b"\x01T\x01\x01\x01\xB0",
    },
    // Calls of a routine with each number of arguments.
    Course {
        source: b"[ F; ]; [ Main; F(); F(1); F(1,2,3); F(1,2,3,4); F(1,2,3,4,5,6,7); ];",
        rows: &[
            (
                Call::Routine,
                Answer::Stands(Closed {
                    start: 8,
                    len: 4,
                    refs: 0,
                }),
            ),
            (Call::Header, Answer::Done),
            (ALONE, Answer::Left(None)),
            (ALONE, Answer::Left(None)),
            (ALONE, Answer::Left(None)),
            (ALONE, Answer::Left(None)),
            (ALONE, Answer::Left(None)),
            (Call::Close, Answer::Done),
        ],
        lines: "",
        code: b"\x00\xB0\x00\x00\x00\x8F\x00\xF2\xDA\x1F\x00\xF2\x01\xF9\x15\x00\xF2\x01\x02\x03\xFA\x15\x7F\x00\xF2\x01\x02\x03\x04\xFA\x15U\x00\xF2\x01\x02\x03\x04\x05\x06\x07\xB0",
    },
    // Units with an error, which have no effect, and one behind them.
    Course {
        source: b"[ F; ]; [ Main x;\x0AF(1,2,3,4,5,6,7,8);\x0A5 = 1;\x0Ax = 1/0; x = 2; ];",
        rows: &[
            (
                Call::Routine,
                Answer::Stands(Closed {
                    start: 8,
                    len: 4,
                    refs: 0,
                }),
            ),
            (Call::Header, Answer::Done),
            (ALONE, Answer::Semantic),
            (UNLESS, Answer::Semantic),
            (STACK, Answer::Semantic),
            (ALONE, Answer::Left(None)),
            (Call::Close, Answer::Done),
        ],
        lines: "t.inf(2): Error: Too many arguments\nt.inf(3): Error: Wrong kind: \"5\"\nt.inf(4): Error: Constant out of range\n",
        code: b"",
    },
    // Bad tokens: what follows them is passed over up to its semicolon. Behind the end of the source nothing is told again.
    Course {
        source: b"[ Main x;\x0Ax = ) 7; x = 1;\x0A); @add x;\x0A1, 2; x = 1",
        rows: &[
            (Call::Header, Answer::Done),
            (ALONE, Answer::Syntax),
            (ALONE, Answer::Left(None)),
            (UNLESS, Answer::Syntax),
            (Call::Line, Answer::Wrong),
            (Call::Constant, Answer::Syntax),
            (ALONE, Answer::Syntax),
            (ALONE, Answer::Syntax),
            (Call::Constant, Answer::Syntax),
            (Call::Line, Answer::Syntax),
            (Call::Header, Answer::Syntax),
            (Call::Close, Answer::Syntax),
            (Call::Routine, Answer::Syntax),
        ],
        lines: "t.inf(2): Error: Syntax error at \")\"\nt.inf(3): Error: Syntax error at \")\"\nt.inf(3): Error: Wrong opcode or operands: \"add\"\nt.inf(4): Error: Syntax error at \",\"\nt.inf(4): Error: Syntax error at end of file\n",
        code: b"",
    },
    // Conditionals inside of a text, and two that a text opens and does not end.
    Course {
        source: b"Constant K; [ Main x; x = #Ifdef K; 1 #Ifnot; 2 #Endif; ; x\x0A#Ifdef L; + 1 #Endif; ;\x0A#Ifdef K; x = 3; #Endif; x = 4; ];",
        rows: &[
            (Call::Directive, Answer::Done),
            (Call::Header, Answer::Done),
            (ALONE, Answer::Left(None)),
            (STACK, Answer::Left(Some(Simple::Variable(1)))),
            (ALONE, Answer::Left(None)),
            (ALONE, Answer::Left(None)),
            (Call::Close, Answer::Done),
        ],
        lines: "t.inf(3): Error: Conditional without its other end\nt.inf(3): Error: Conditional without its other end\n",
        code: b"",
    },
    // Values that need code, and such as need none.
    Course {
        source: b"Global g; Constant K = 3; [ F a b; a = b; ]; [ Main x y; x + y * 2; K + 2; x == 1 || y; K; y; x = 1, y++; F(x, y + 1); ];",
        rows: &[
            (Call::Directive, Answer::Done),
            (Call::Directive, Answer::Done),
            (
                Call::Routine,
                Answer::Stands(Closed {
                    start: 8,
                    len: 8,
                    refs: 0,
                }),
            ),
            (Call::Header, Answer::Done),
            (STACK, Answer::Left(Some(Simple::Variable(0)))),
            (STACK, Answer::Left(Some(Simple::Known(5)))),
            (
                Call::Use(Want::Variable(16)),
                Answer::Left(Some(Simple::Variable(16))),
            ),
            (
                Call::Use(Want::Variable(16)),
                Answer::Left(Some(Simple::Variable(16))),
            ),
            (
                Call::Use(Want::Variable(16)),
                Answer::Left(Some(Simple::Variable(16))),
            ),
            (ALONE, Answer::Left(None)),
            (ALONE, Answer::Left(None)),
            (Call::Close, Answer::Done),
        ],
        lines: "",
        code: b"\x02-\x01\x02\xB0\x00\x00\x00\x02V\x02\x02\x00t\x01\x00\x00A\x01\x01\xC5\xA0\x02\xC8\x0D\x10\x01\x8C\x00\x05\x0D\x10\x00\x0D\x10\x03-\x10\x02\x0D\x01\x01\x9E\x02\xFF\x95\x02T\x02\x01\x00\xF9+\x00\xF2\x01\x00\xB0",
    },
    // Conditions whose truth is known, and one in which something is wrong.
    Course {
        source: b"[ Main x; 1; (x has 5); @quit; later; ];",
        rows: &[
            (Call::Header, Answer::Done),
            (UNLESS, Answer::Done),
            (UNLESS, Answer::Done),
            (Call::Line, Answer::Done),
            (Call::Mark, Answer::Done),
            (STACK, Answer::Left(Some(Simple::Later(Target::Name(1))))),
            (Call::Close, Answer::Done),
        ],
        lines: "",
        code: b"",
    },
    // Texts that are no expressions, a word of a statement, and a label that is nowhere.
    Course {
        source: b"[ Main x; x = \x22a@x\x22; x or 1; x == 1 == 2; if (x) quit; x = ; @je x 1 ?~L; ];",
        rows: &[
            (Call::Header, Answer::Done),
            (ALONE, Answer::Syntax),
            (ALONE, Answer::Syntax),
            (UNLESS, Answer::Syntax),
            (ALONE, Answer::Syntax),
            (STACK, Answer::Syntax),
            (Call::Line, Answer::Done),
            (Call::Close, Answer::Wrong),
        ],
        lines: "t.inf(1): Error: Unknown escape\nt.inf(1): Error: Syntax error at \"or\"\nt.inf(1): Error: Syntax error at \"==\"\nt.inf(1): Error: Syntax error at \"quit\"\nt.inf(1): Error: Syntax error at \";\"\nt.inf(1): Error: Label \"L\" is missing\n",
        code: b"",
    },
    // A routine with an error, another directive, and a routine with a reference.
    Course {
        source: b"[ F x; x = ); ]; Constant K; [ Main x; x = \x22a\x22; ];",
        rows: &[
            (Call::Routine, Answer::Wrong),
            (
                Call::Routine,
                Answer::Stands(Closed {
                    start: 8,
                    len: 0,
                    refs: 0,
                }),
            ),
            (
                Call::Routine,
                Answer::Stands(Closed {
                    start: 8,
                    len: 8,
                    refs: 1,
                }),
            ),
        ],
        lines: "t.inf(1): Error: Syntax error at \")\"\n",
        code: b"",
    },
    // The end of all reading, and behind it.
    Course {
        source: b"[ Main; ]; End; x;",
        rows: &[
            (
                Call::Routine,
                Answer::Stands(Closed {
                    start: 8,
                    len: 4,
                    refs: 0,
                }),
            ),
            (Call::Directive, Answer::Done),
            (Call::Constant, Answer::Syntax),
            (ALONE, Answer::Syntax),
        ],
        lines: "",
        code: b"\x00\xB0\x00\x00",
    },
];

/// Headers with an error, each with the calls behind it.
static HEADERS: [Course; 2] = [
    Course {
        source: b"[ F x x;",
        rows: &[(Call::Header, Answer::Wrong)],
        lines: "t.inf(1): Error: \"x\" was declared at t.inf(1)\n",
        code: b"",
    },
    Course {
        source: b"[ ); [ Main; ];",
        rows: &[
            (Call::Header, Answer::Wrong),
            (Call::Header, Answer::Done),
            (Call::Close, Answer::Done),
        ],
        lines: "t.inf(1): Error: Syntax error at \")\"\n",
        code: b"",
    },
];

/// A file that is included between calls, and the calls that read it: its directive, and its end.
static INCLUDING: Course = Course {
    source: b"Include \x22c.h\x22; [ Main x; x = K; ];",
    rows: &[
        (Call::Directive, Answer::Done),
        (Call::Directive, Answer::Done),
        (Call::Directive, Answer::Done),
        (Call::Header, Answer::Done),
        (ALONE, Answer::Left(None)),
        (Call::Close, Answer::Done),
    ],
    lines: "",
    code: b"\x01\x0D\x01\x03\xB0",
};

/// A file that is included and ends inside of a text. Reading goes on in the file that includes it.
static BROKEN_OFF: Course = Course {
    source: b"Include \x22c.h\x22; [ Main x; x = 1; ];",
    rows: &[
        (Call::Directive, Answer::Done),
        (Call::Header, Answer::Done),
        (ALONE, Answer::Syntax),
        (Call::Header, Answer::Done),
        (ALONE, Answer::Left(None)),
        (Call::Close, Answer::Done),
    ],
    lines: "c.h(2): Error: Syntax error at end of file\n",
    code: b"",
};

#[test]
fn calls_have_these_answers(rt: HostRuntime) -> Result<(), Fail> {
    play_all(&rt, rt.alloc(), &USUAL, None)?;
    play_all(&rt, rt.alloc(), &HEADERS, None)?;
    let including = Play {
        included: b"Constant K = 3;",
        ..Play::new(&INCLUDING)
    };
    play_row(&rt, rt.alloc(), &including)?;
    let broken_off = Play {
        included: b"[ F x;\x0Ax = 1",
        ..Play::new(&BROKEN_OFF)
    };
    play_row(&rt, rt.alloc(), &broken_off)?;
    Ok(())
}

#[test]
fn a_routine_by_its_parts_is_the_whole_one(rt: HostRuntime) -> Result<(), Fail> {
    let parts = play_row(&rt, rt.alloc(), &Play::new(&PIECEWISE))?;
    let whole = play_row(&rt, rt.alloc(), &Play::new(&WHOLE))?;
    match (parts, whole) {
        (Some(parts), Some(whole)) => {
            assert_eq!(rt; parts.as_slice(), whole.as_slice());
            Ok(())
        }
        _ => Err(AllocError.into()),
    }
}
