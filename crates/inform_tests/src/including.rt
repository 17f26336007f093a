//! Files that include one another.
use crate::trials::Folder;

/// The rows of inclusions.
pub static FOLDERS: [Folder; 7] = [
    (
        &[
            ("t.inf", b"Include \"c.h\"; [ Main; F(); ];"),
            ("c.h", b"[ F; print \"a\"; ];"),
        ],
        "Errors: 0, warnings: 0\n",
    ),
    // Behind an inclusion the outer file goes on from there.
    (
        &[
            (
                "t.inf",
                b"Message \"a\";\nInclude \"c\"; Message \"b\";\nInclude \"c\";\n[ Main; ];\n5;",
            ),
            ("c.h", b"\nMessage \"c\";\n)"),
        ],
        "a\nc\nc.h(3): Error: Syntax error at \")\"\nb\nc\nc.h(3): Error: Syntax error at \")\"\nt.inf(5): Error: Syntax error at \"5\"\n\
            Errors: 3, warnings: 0 (no output)\n",
    ),
    // A directive ends in the file in which it began.
    (
        &[
            ("t.inf", b"Include \"c.h\"; ]; [ Main; ];"),
            ("c.h", b"[ F;"),
        ],
        "c.h(1): Error: Syntax error at end of file\nt.inf(1): Error: Syntax error at \"]\"\nErrors: 2, warnings: 0 (no output)\n",
    ),
    (
        &[("t.inf", b"Message \"a\";\nInclude \"d\"; Message \"b\";")],
        "a\nt.inf(2): Fatal error: No file \"d\"\n",
    ),
    // `End` ends all reading, in an included file too.
    (
        &[
            ("t.inf", b"[ Main; ]; Include \"c.h\"; Message \"b\";"),
            ("c.h", b"Message \"a\"; End; Message \"c\";"),
        ],
        "a\nErrors: 0, warnings: 0\n",
    ),
    (
        &[
            ("t.inf", b"Include \"c.h\"; [ Main; ];"),
            ("c.h", b"[ F; G(); ]; Message fatalerror \"no\";"),
        ],
        "c.h(1): Fatal error: no\n",
    ),
    // Sixteen files may be open.
    (
        &[("t.inf", b"Message \"x\";\nInclude \"t.inf\";\n")],
        "x\nx\nx\nx\nx\nx\nx\nx\nx\nx\nx\nx\nx\nx\nx\nx\nt.inf(2): Fatal error: More than 16 files open\n",
    ),
];
