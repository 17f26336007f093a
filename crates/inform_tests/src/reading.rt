//! The reading of a source: through a window, to its end or to a fatal error, whatever number of bytes a read gives.
use crate::trials::{ALL, Devices, Trial, play};
use inform_trials::devices::{Piece, joined};
use std::alloc::Global;
use std::process::Abort;
use std::test::Fail;

/// Numbers of bytes that a read gives at most, in turn.
static READS: [usize; 6] = [1, 2, 3, 7, 4096, usize::MAX];

/// A source with two bad pieces, whose lines end in three ways.
const BAD: &[u8] = b"[ Main;\r\nprint ;\r\n];\n\r7000;";

/// The messages of the source with two bad pieces.
const BAD_LINES: &str =
    "t.inf(2): Error: Syntax error at \";\"\nt.inf(5): Error: Syntax error at \"7000\"\nErrors: 2, warnings: 0 (no output)\n";

/// A source with a head of three lines, whose ends are of three kinds, and a comment that ends it.
pub const HEADED: &[u8] = b"!% -w x\r\n!%\t-D -Q\r!%$MAX_SYMBOLS=1\n! -s\n!% -s\nMessage \"a\";\n\
    [ Main x; ];#Ifdef DEBUG; Constant K; #Endif;";

/// The messages of the source with a head.
const HEADED_LINES: &str = "a\nt.inf(7): Fatal error: MAX_SYMBOLS is exceeded\n";

/// Returns the messages about a hundred lines with an error each.
fn hundred_messages(alloc: Global) -> Result<String, Fail> {
    let mut lines = String::new(alloc);
    for line in 1..=100u32 {
        let told = format!(in alloc; "t.inf({line}): Error: Syntax error at \"5\"\n")?;
        lines.push_str(told.as_str())?;
    }
    lines.push_str("t.inf(100): Fatal error: Too many errors\n")?;
    Ok(lines)
}

/// Compiles sources, of which the last one is that of the hundred lines, where a read gives at most `most` bytes.
fn read_in_parts(
    rt: &impl Abort,
    alloc: Global,
    most: usize,
    hundred: &[u8],
    lines: &str,
) -> Result<(), Fail> {
    let rows = [
        (BAD, BAD_LINES, (0, usize::MAX)),
        (HEADED, HEADED_LINES, (0, usize::MAX)),
        // The last number ends behind 298 bytes, as the byte behind it shows.
        (hundred, lines, (299, 298 + most.min(4096))),
    ];
    for (source, lines, given) in rows {
        let files = [("t.inf", source)];
        let trial = Trial {
            devices: Devices { read: most, ..ALL },
            given,
            ..Trial::new(&files, lines)
        };
        play(rt, alloc, &trial)?;
    }
    Ok(())
}

/// Checks sources and their heads, and that little is read behind a fatal error: a hundred lines come before many spaces.
#[test]
fn what_is_read_does_not_depend_on_the_bytes_of_a_read(rt: HostRuntime) -> Result<(), Fail> {
    let source = joined(rt.alloc(), &[(b"5;\n", 100), (b" ", 1_000_000)])?;
    let lines = hundred_messages(rt.alloc())?;
    for most in READS {
        read_in_parts(&rt, rt.alloc(), most, source.as_slice(), lines.as_str())?;
    }
    Ok(())
}

/// The words of the command, and the pieces of a source; its messages, and the most bytes that are given of it.
type Row = (
    &'static [&'static str],
    &'static [Piece<'static>],
    &'static str,
    usize,
);

/// Sources with words before their name, and sources of which one piece comes often.
static ROWS: [Row; 6] = [
    // Warnings are not told where a word says so.
    (
        &["-w", "t.inf"],
        &[(b"[ Main x; ]; Message warning \"a\"; Message \"b\";", 1)],
        "b\nErrors: 0, warnings: 0\n",
        usize::MAX,
    ),
    (
        &["-w~w", "t.inf"],
        &[(b"[ Main x; ]; Message warning \"a\"; Message \"b\";", 1)],
        "t.inf(1): Warning: Local \"x\" is unused\nt.inf(1): Warning: a\nb\nErrors: 0, warnings: 2\n",
        usize::MAX,
    ),
    // No more than the window is read behind the statement that passes the limit, since the code of a statement is counted when it ends.
    (
        &["$MAX_CODE=64", "t.inf"],
        &[(b"[ Main;", 1), (b"new_line;", 100_000), (b" ];", 1)],
        "t.inf(1): Fatal error: MAX_CODE is exceeded\n",
        8192,
    ),
    // A line end over the edge of the window is one.
    (
        &["t.inf"],
        &[(b" ", 4095), (b"\r\n5;", 1)],
        "t.inf(2): Error: Syntax error at \"5\"\nt.inf(1): Error: No routine \"Main\"\nErrors: 2, warnings: 0 (no output)\n",
        usize::MAX,
    ),
    // A text has at most 4,000 bytes.
    (
        &["t.inf"],
        &[(b"[ Main;\nprint \"", 1), (b"a", 4000), (b"\";\n]; ,;", 1)],
        "t.inf(3): Error: Syntax error at \",\"\nErrors: 1, warnings: 0 (no output)\n",
        usize::MAX,
    ),
    (
        &["t.inf"],
        &[(b"[ Main;\nprint \"", 1), (b"a", 4001), (b"\";\n]; ,;", 1)],
        "t.inf(2): Fatal error: MAX_QTEXT_SIZE is exceeded\n",
        usize::MAX,
    ),
];

/// Compiles the source of some pieces, and asserts its messages, and that at most `most` bytes are given.
fn read_pieces(
    rt: &impl Abort,
    alloc: Global,
    words: &'static [&'static str],
    pieces: &[Piece<'_>],
    lines: &str,
    most: usize,
) -> Result<(), Fail> {
    let source = joined(alloc, pieces)?;
    let files = [("t.inf", source.as_slice())];
    let trial = Trial {
        words,
        given: (0, most),
        ..Trial::new(&files, lines)
    };
    play(rt, alloc, &trial)?;
    Ok(())
}

/// Checks the rows, and a word of 14 bytes in a head at the edge of the window, which sets a limit that the first objects alone pass: some
/// of it, all or nothing of it, and its line end are behind the edge.
#[test]
fn sources_of_pieces_are_read(rt: HostRuntime) -> Result<(), Fail> {
    for (words, pieces, lines, most) in &ROWS {
        read_pieces(&rt, rt.alloc(), *words, *pieces, *lines, *most)?;
    }
    let full = "t.inf(1): Fatal error: MAX_OBJECTS is exceeded\n";
    for count in 4078..=4095 {
        let pieces: [Piece<'static>; 3] = [
            (b"!%", 1),
            (b" ", count),
            (b"$MAX_OBJECTS=3\r\n[ Main; ];", 1),
        ];
        read_pieces(&rt, rt.alloc(), &["t.inf"], &pieces, full, usize::MAX)?;
    }
    Ok(())
}
