//! The steps of a session, the messages behind each, and the numbers then of all that the settings bound.
use crate::sessions::{Play, play_row};
use inf_session::session::Step;
use std::process::Abort;
use std::test::Fail;

const SOURCE: &[u8] =
    b"Message \"abc\"; [ Main; F(); F(); ];\nIfdef K; Message \"long\"; Ifnot; Constant K; Message \"e\"; Endif;\n\
        [ F; print \"hello\"; ];\n5;";

/// Sides between directives and inside a routine, with a `#` before their words and without.
const SIDES: &[u8] = b"Constant K;\nIfdef L; Constant A; #Endif; Ifndef K;\nMessage \"x\";\n\
        #Ifnot; Message \"y\"; Endif; [ Main; #Ifdef L; print \"a\"; #Ifnot; print \"b\"; #Endif; ];\n";

/// Expressions of some tokens, in conditions between directives and inside a routine, too; labels of two routines, one
/// of which a bad token ends: nothing behind its last whole statement counts.
const EXPRESSIONS: &[u8] =
    b"Iftrue 1 + 2 * 3 == 7;\nEndif;\n[ Main i; while (i < 9) if (i == 4) i++; #Iftrue (2 + 3 + 4 + 5 + 6) > 1; i = 1; #Endif; ];\n\
        [ R x; if (x) if (x > 1) if (x > 2) { x = 1; 5 } ];\nConstant C = 1 + 2;\n[ S; do { } until (1); ];\n";

/// Directives of each kind that fills tables, a routine with labels and a string, and one with a low string.
const TABLES: &[u8] =
    b"Constant text = \"abcd\";\nClass Room with size 1 2, name 'hall';\nRoom hall \"Hall\" with size 3 \"ab\", run [ x; return x; ];\n\
        Array list --> 'hall' 'door' ##Go list;\nVerb 'take' 'get' * noun 'off'/'door' -> Take * -> Look;\n\
        Extend 'get' first * topic -> Go reverse;\nFake_action Fall;\n[ Main x; while (x) x--; print (string) \"abc\", x; ];\n\
        [ Set; string 1 \"abcd\"; ];\n";

/// A condition of many tokens, and a routine that needs four of the veneer, behind which the source ends.
const SUPPLIED: &[u8] =
    b"Iftrue 1 + 2 * 3 * 4 + 5 + 6 * 7 * 8 * 9 > 10;\n[ Main; print (the) 5; ];\nEnd;\n";

/// The line behind the bad token in those expressions.
const CUT: &str = "t.inf(4): Error: Syntax error at \"}\"\n";

/// The lines behind the bad token.
const BAD: &str = "abc\ne\nt.inf(4): Error: Syntax error at \"5\"\n";

/// The lines behind a bad token that is the whole source.
const FIVE: &str = "t.inf(1): Error: Syntax error at \"5\"\n";

/// The outcome of a step, the messages behind it, and the longest quoted token, the tokens of the longest expression,
/// the names, the most labels of a routine, the bytes of code, and the references then; the words, objects, verbs and
/// actions, and the bytes of grammar, of properties, of arrays, of low strings and of strings.
pub type Wanted = (Step, &'static str, [usize; 6], [usize; 9]);

/// The last nine numbers without a directive or a statement for them: four objects, whose property tables have 30
/// bytes, and a low string of two bytes.
const BARE: [usize; 9] = [0, 4, 0, 0, 0, 30, 0, 2, 0];

/// Asserts the messages behind a step, and the numbers of all that the settings bound.
pub fn assert_behind(rt: &impl Abort, wanted: &Wanted, messages: &[u8], held: [usize; 15]) {
    let (_, lines, counts, tables) = wanted;
    let [quoted, tokens, names, labels, code, references] = *counts;
    let [
        words,
        objects,
        verbs,
        actions,
        grammar,
        properties,
        arrays,
        low,
        strings,
    ] = *tables;
    assert_eq!(rt; messages, lines.as_bytes());
    let wanted = [
        quoted, tokens, names, labels, words, objects, verbs, actions, grammar, properties, arrays,
        low, code, strings, references,
    ];
    assert!(rt; held == wanted, "{held:?}");
}

/// All steps of the source.
static STEPS: [Wanted; 12] = [
    (Step::More, "abc\n", [3, 0, 0, 0, 8, 5], BARE),
    (Step::More, "abc\n", [3, 3, 2, 0, 16, 7], BARE),
    // a conditional with the side that it leaves out, and the directive behind this side
    (Step::More, "abc\n", [3, 3, 2, 0, 16, 7], BARE),
    (Step::More, "abc\n", [3, 3, 2, 0, 16, 7], BARE),
    (Step::More, "abc\n", [3, 3, 3, 0, 16, 7], BARE),
    (Step::More, "abc\ne\n", [3, 3, 3, 0, 16, 7], BARE),
    (Step::More, "abc\ne\n", [3, 3, 3, 0, 16, 7], BARE),
    (Step::More, "abc\ne\n", [5, 3, 3, 0, 24, 7], BARE),
    (Step::More, BAD, [5, 3, 3, 0, 24, 7], BARE),
    // the end of the file
    (Step::More, BAD, [5, 3, 3, 0, 24, 7], BARE),
    // behind the end nothing is read
    (Step::End, BAD, [5, 3, 3, 0, 24, 7], BARE),
    (Step::End, BAD, [5, 3, 3, 0, 24, 7], BARE),
];

/// All steps of the source of conditionals.
static CHOICES: [Wanted; 10] = [
    (Step::More, "", [0, 0, 1, 0, 8, 5], BARE),
    (Step::More, "", [0, 0, 1, 0, 8, 5], BARE),
    (Step::More, "", [0, 0, 1, 0, 8, 5], BARE),
    (Step::More, "", [0, 0, 1, 0, 8, 5], BARE),
    (Step::More, "", [0, 0, 1, 0, 8, 5], BARE),
    (Step::More, "y\n", [1, 0, 1, 0, 8, 5], BARE),
    (Step::More, "y\n", [1, 0, 1, 0, 8, 5], BARE),
    // sides inside a routine are part of it
    (Step::More, "y\n", [1, 0, 2, 0, 16, 5], BARE),
    (Step::More, "y\n", [1, 0, 2, 0, 16, 5], BARE),
    (Step::End, "y\n", [1, 0, 2, 0, 16, 5], BARE),
];

/// All steps of a bad piece.
static BAD_STEPS: [Wanted; 3] = [
    (Step::More, FIVE, [0, 0, 0, 0, 0, 4], BARE),
    (Step::More, FIVE, [0, 0, 0, 0, 0, 4], BARE),
    (Step::End, FIVE, [0, 0, 0, 0, 0, 4], BARE),
];

/// All steps of the source of expressions and labels.
static COUNTED: [Wanted; 8] = [
    (Step::More, "", [0, 7, 0, 0, 8, 5], BARE),
    (Step::More, "", [0, 7, 0, 0, 8, 5], BARE),
    (Step::More, "", [0, 13, 1, 8, 28, 5], BARE),
    (Step::More, CUT, [0, 13, 2, 8, 28, 5], BARE),
    (Step::More, CUT, [0, 13, 3, 8, 28, 5], BARE),
    (Step::More, CUT, [0, 13, 4, 8, 32, 5], BARE),
    (Step::More, CUT, [0, 13, 4, 8, 32, 5], BARE),
    (Step::End, CUT, [0, 13, 4, 8, 32, 5], BARE),
];

/// All steps of the source of tables.
static FILLED: [Wanted; 11] = [
    (
        Step::More,
        "",
        [4, 1, 1, 0, 8, 5],
        [0, 4, 0, 0, 0, 30, 0, 2, 4],
    ),
    // eight bytes of a class's own table, and six of the table that it holds for others
    (
        Step::More,
        "",
        [4, 1, 3, 0, 8, 6],
        [1, 5, 0, 0, 0, 44, 0, 2, 4],
    ),
    // 15 bytes of an object's table, and 14 of that of its individual properties
    (
        Step::More,
        "",
        [4, 1, 5, 0, 12, 11],
        [1, 6, 0, 0, 0, 73, 0, 2, 8],
    ),
    (
        Step::More,
        "",
        [4, 2, 7, 0, 12, 15],
        [2, 6, 0, 1, 0, 73, 8, 2, 8],
    ),
    // three bytes of a verb, and three of each line and of each token of a line
    (
        Step::More,
        "",
        [4, 2, 9, 0, 12, 20],
        [5, 6, 1, 3, 18, 73, 8, 2, 8],
    ),
    (
        Step::More,
        "",
        [4, 2, 9, 0, 12, 20],
        [5, 6, 1, 3, 24, 73, 8, 2, 8],
    ),
    (
        Step::More,
        "",
        [4, 2, 10, 0, 12, 20],
        [5, 6, 1, 3, 24, 73, 8, 2, 8],
    ),
    (
        Step::More,
        "",
        [4, 2, 11, 4, 28, 21],
        [5, 6, 1, 3, 24, 73, 8, 2, 12],
    ),
    // a low string of four bytes, whose statement refers to it and to the abbreviations
    (
        Step::More,
        "",
        [4, 2, 12, 4, 40, 23],
        [5, 6, 1, 3, 24, 73, 8, 6, 12],
    ),
    // the end of the file
    (
        Step::More,
        "",
        [4, 2, 12, 4, 40, 23],
        [5, 6, 1, 3, 24, 73, 8, 6, 12],
    ),
    (
        Step::End,
        "",
        [4, 2, 12, 4, 40, 23],
        [5, 6, 1, 3, 24, 73, 8, 6, 12],
    ),
];

/// All steps of the source that needs four routines of the veneer.
static NEEDED: [Wanted; 9] = [
    (Step::More, "", [0, 19, 0, 0, 8, 5], BARE),
    (Step::More, "", [0, 19, 2, 0, 16, 6], BARE),
    (Step::More, "", [0, 19, 2, 0, 16, 6], BARE),
    // `DefArt`, `PrintShortName`, `Z__Region` and `Unsigned__Compare`
    (Step::More, "", [4, 19, 3, 0, 28, 7], BARE),
    (Step::More, "", [4, 19, 4, 5, 48, 8], BARE),
    (Step::More, "", [4, 19, 5, 12, 96, 14], BARE),
    (Step::More, "", [4, 19, 5, 16, 132, 14], BARE),
    (Step::End, "", [4, 19, 5, 16, 132, 14], BARE),
    (Step::End, "", [4, 19, 5, 16, 132, 14], BARE),
];

/// The steps of a source whose words and entries count.
static ENTRIES: [Wanted; 2] = [
    (Step::More, "", [0, 0, 1, 0, 12, 5], BARE),
    (
        Step::More,
        "",
        [2, 1, 2, 0, 12, 8],
        [2, 4, 0, 0, 0, 30, 6, 2, 0],
    ),
];

/// The steps of a source in which code begins with the header of an array.
static HEADED: [Wanted; 2] = [
    (Step::More, "", [0, 0, 0, 0, 0, 4], BARE),
    (
        Step::More,
        "",
        [0, 1, 1, 0, 8, 5],
        [0, 4, 0, 0, 0, 30, 4, 2, 0],
    ),
];

/// The line where there are more references than there may be.
const REFERENCES: &str = "t.inf(1): Fatal error: MAX_REFS is exceeded\n";

/// The step of a source that has more references than it may have before its first token: it reads nothing, and the line is written at the
/// end of the session.
static REFUSED: [Wanted; 1] = [(Step::Fatal, "", [0, 0, 0, 0, 0, 4], BARE)];

/// A word counts once, as an entry of an array it is an expression of one token, and each is a reference of two bytes.
const WORDS: &[u8] = b"[ Main; ]; Array a --> 'xa' 'xb' 'xa';";

/// Code has begun behind the header of an array, which is the first unit: a semicolon alone is none.
const HEADER: &[u8] = b";Array a --> 1 2;";

#[test]
fn a_step_reads_one_part(rt: HostRuntime) -> Result<(), Fail> {
    let rows = [
        Play::of_steps(SOURCE, &STEPS),
        Play::of_steps(SIDES, &CHOICES),
        Play::of_steps(SUPPLIED, &NEEDED),
        Play::of_steps(EXPRESSIONS, &COUNTED),
        // Behind the last of these steps there is something of all that the settings bound.
        Play::of_steps(TABLES, &FILLED),
        Play::of_steps(WORDS, &ENTRIES),
        Play::of_steps(HEADER, &HEADED),
    ];
    for row in &rows {
        play_row(&rt, rt.alloc(), row)?;
    }
    Ok(())
}

/// The name of the setting of references.
const REFS: &[u8] = b"MAX_REFS";

/// Checks the last lines of two sessions: behind a bad token, and where the references in tables alone would pass their setting, so that
/// nothing is read.
#[test]
fn a_session_is_finished(rt: HostRuntime) -> Result<(), Fail> {
    let bad = Play {
        lines: FIVE,
        last: Some("t.inf(1): Error: No routine \"Main\"\nErrors: 2, warnings: 0 (no output)\n"),
        ..Play::of_steps(b"5;", &BAD_STEPS)
    };
    play_row(&rt, rt.alloc(), &bad)?;
    let refused = Play {
        setting: Some((REFS, 3)),
        last: Some(REFERENCES),
        ..Play::of_steps(b"\n\n5;", &REFUSED)
    };
    play_row(&rt, rt.alloc(), &refused)?;
    Ok(())
}
