//! The messages of sources: rows of tokens and of words, of conditionals, of replaced routines and of inclusions.
use crate::trials::{Folder, play_all};
use crate::{conditionals, including, replacing};
use std::test::Fail;

/// The rows of tokens and of words.
static FOLDERS: [Folder; 19] = [
    // A source that is not there is a fatal error.
    (&[], "t.inf(1): Fatal error: No file \"t.inf\"\n"),
    // The words of all statements are keywords where a statement begins, and names elsewhere. `default` would be a keyword only before a
    // colon.
    (
        &[(
            "t.inf",
            b"[ while; ];\n[ Main;\nprint \"a\";\nwhile(); ];\n",
        )],
        "t.inf(4): Error: Syntax error at \")\"\nErrors: 1, warnings: 0 (no output)\n",
    ),
    (
        &[(
            "t.inf",
            b"[ while; ];\n[ Main if;\nreturn while; F(if, while); ]; [ F a; return a; ];\n",
        )],
        "Errors: 0, warnings: 0\n",
    ),
    (
        &[("t.inf", b"[ default; ];\n[ Main;\ndefault(); ];\n")],
        "Errors: 0, warnings: 0\n",
    ),
    // A source is cut in a text.
    (
        &[("t.inf", b"[ Main; print \"hel")],
        "t.inf(1): Error: Unclosed or empty quote\nErrors: 1, warnings: 0 (no output)\n",
    ),
    // The first token is a bad one.
    (
        &[("t.inf", b"5;")],
        "t.inf(1): Error: Syntax error at \"5\"\nt.inf(1): Error: No routine \"Main\"\nErrors: 2, warnings: 0 (no output)\n",
    ),
    (
        &[("t.inf", b"$fF;")],
        "t.inf(1): Error: Syntax error at \"$fF\"\nt.inf(1): Error: No routine \"Main\"\nErrors: 2, warnings: 0 (no output)\n",
    ),
    (
        &[("t.inf", b"$$101;")],
        "t.inf(1): Error: Syntax error at \"$$101\"\nt.inf(1): Error: No routine \"Main\"\nErrors: 2, warnings: 0 (no output)\n",
    ),
    (
        &[("t.inf", b"Name;")],
        "t.inf(1): Error: Syntax error at \"Name\"\nt.inf(1): Error: No routine \"Main\"\nErrors: 2, warnings: 0 (no output)\n",
    ),
    (
        &[("t.inf", b"'a';")],
        "t.inf(1): Error: Syntax error at \"'a'\"\nt.inf(1): Error: No routine \"Main\"\nErrors: 2, warnings: 0 (no output)\n",
    ),
    (
        &[("t.inf", b"'ab//p';")],
        "t.inf(1): Error: Syntax error at \"'ab//p'\"\nt.inf(1): Error: No routine \"Main\"\nErrors: 2, warnings: 0 (no output)\n",
    ),
    (
        &[("t.inf", b"\"text\";")],
        "t.inf(1): Error: Syntax error at text\nt.inf(1): Error: No routine \"Main\"\nErrors: 2, warnings: 0 (no output)\n",
    ),
    (
        &[("t.inf", b"~~=;")],
        "t.inf(1): Error: Syntax error at \"~~\"\nt.inf(1): Error: No routine \"Main\"\nErrors: 2, warnings: 0 (no output)\n",
    ),
    (
        &[("t.inf", b"-->;")],
        "t.inf(1): Error: Syntax error at \"-->\"\nt.inf(1): Error: No routine \"Main\"\nErrors: 2, warnings: 0 (no output)\n",
    ),
    (
        &[("t.inf", b"65536;")],
        "t.inf(1): Error: Number out of range\nt.inf(1): Error: No routine \"Main\"\nErrors: 2, warnings: 0 (no output)\n",
    ),
    (
        &[("t.inf", b"'';")],
        "t.inf(1): Error: Unclosed or empty quote\nt.inf(1): Error: No routine \"Main\"\nErrors: 2, warnings: 0 (no output)\n",
    ),
    (
        &[("t.inf", b"\x00;")],
        "t.inf(1): Error: Illegal character\nt.inf(1): Error: No routine \"Main\"\nErrors: 2, warnings: 0 (no output)\n",
    ),
    (
        &[("t.inf", b"abcdefghijklmnopqrstuvwxyz0123456;")],
        "t.inf(1): Error: Name longer than 32\nt.inf(1): Error: No routine \"Main\"\nErrors: 2, warnings: 0 (no output)\n",
    ),
    (
        &[("t.inf", b"\"@{x\";")],
        "t.inf(1): Error: Unknown escape\nt.inf(1): Error: No routine \"Main\"\nErrors: 2, warnings: 0 (no output)\n",
    ),
];

#[test]
fn sources_have_these_messages(rt: HostRuntime) -> Result<(), Fail> {
    play_all(&rt, rt.alloc(), &FOLDERS)?;
    play_all(&rt, rt.alloc(), &conditionals::FOLDERS)?;
    play_all(&rt, rt.alloc(), &replacing::FOLDERS)?;
    play_all(&rt, rt.alloc(), &including::FOLDERS)
}
