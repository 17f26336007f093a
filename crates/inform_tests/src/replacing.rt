//! Routines that are replaced.
use crate::trials::Folder;

/// The rows of replaced routines.
pub static FOLDERS: [Folder; 9] = [
    // A routine of a file that is marked gives nothing: no name, no error, no warning.
    (
        &[
            (
                "t.inf",
                b"Replace R; Include \"l\"; [ R; ]; [ Main; R(); ];",
            ),
            (
                "l.h",
                b"System_file; [ R x x; true(); G(); ]; [ F y; return y; ];",
            ),
        ],
        "Errors: 0, warnings: 0\n",
    ),
    // The tokens of a replaced routine have to fit.
    (
        &[
            ("t.inf", b"Replace R; Include \"l\"; [ R; ]; [ Main; ];"),
            ("l.h", b"System_file;\n[ R; ); ]; [ R; ];"),
        ],
        "l.h(2): Error: Syntax error at \")\"\nErrors: 1, warnings: 0 (no output)\n",
    ),
    // A routine is as any other where its file has no mark, or where it comes before the directive.
    (
        &[
            ("t.inf", b"Replace R; Include \"l\";\n[ R; ]; [ Main; ];"),
            ("l.h", b"[ R; ];"),
        ],
        "t.inf(2): Error: \"R\" was declared at l.h(1)\nErrors: 1, warnings: 0 (no output)\n",
    ),
    (
        &[
            ("t.inf", b"Include \"l\"; Replace R;\n[ R; ]; [ Main; ];"),
            ("l.h", b"System_file; [ R; ];"),
        ],
        "t.inf(2): Error: \"R\" was declared at l.h(1)\nErrors: 1, warnings: 0 (no output)\n",
    ),
    // The mark of a file holds from there on: not in a file that it includes, and again behind that one.
    (
        &[
            ("t.inf", b"Replace R; Replace S; Include \"l\"; [ Main; ];"),
            ("l.h", b"System_file; Include \"m\"; [ R; ]; [ S; ];"),
            ("m.h", b"[ R; ]; [ S; ];"),
        ],
        "Errors: 0, warnings: 0\n",
    ),
    // `Replace` is a use of its name, in a message where it is the first.
    (
        &[(
            "t.inf",
            b"[ Main; ];\nReplace r;\nReplace R; System_file; [ R; ];",
        )],
        "t.inf(2): Error: \"r\" was never declared\nErrors: 1, warnings: 0 (no output)\n",
    ),
    (
        &[("t.inf", b"Replace;\nReplace R S;\n[ Main; ];")],
        "t.inf(1): Error: Syntax error at \";\"\nt.inf(2): Error: Syntax error at \"S\"\nErrors: 2, warnings: 0 (no output)\n",
    ),
    // The language may have the name.
    (
        &[("t.inf", b"System_file; Replace true; [ True; ]; [ Main; ];")],
        "Errors: 0, warnings: 0\n",
    ),
    // A file that is entered again is not marked yet.
    (
        &[
            (
                "t.inf",
                b"Replace R; Include \"l\";\nInclude \"l\"; [ Main; ];",
            ),
            ("l.h", b"[ R; ]; System_file; [ R; ];"),
        ],
        "l.h(1): Error: \"R\" was declared at l.h(1)\nErrors: 1, warnings: 0 (no output)\n",
    ),
];
