//! Sources of each kind, for calls that fail: the messages where each of their reads fails.

/// The number of calls behind which a failed call gives this result: the name of the file that it names, and the messages
/// before it.
pub type Told = (usize, &'static str, &'static str);

/// A source, `t.inf`, with the files that it includes.
pub struct Row {
    pub files: &'static [(&'static str, &'static [u8])],
    /// The failures of calls, in the order of the calls. Files are given one byte a read.
    pub told: &'static [Told],
    /// Number of calls that open and read all.
    pub calls: usize,
    /// All messages, where nothing fails.
    pub lines: &'static str,
}

/// The rows of sources. Their calls are counted by hand: a file is opened, each of its bytes is read, and its end is read.
/// A message comes behind the call that reads the semicolon of its directive.
pub static ROWS: [Row; 7] = [
    // No byte.
    Row {
        files: &[("t.inf", b"")],
        told: &[(0, "t.inf", "")],
        calls: 2,
        lines: "t.inf(1): Error: No routine \"Main\"\nErrors: 1, warnings: 0 (no output)\n",
    },
    // One routine.
    Row {
        files: &[("t.inf", b"[ Main; print \"hello\"; ];")],
        told: &[(0, "t.inf", "")],
        calls: 27,
        lines: "Errors: 0, warnings: 0\n",
    },
    // Classes, and an object that has their properties.
    Row {
        files: &[(
            "t.inf",
            b"Property size 9; Property weight; Attribute light; Attribute dark; Class A with size 1, name \
                    'a//', has light; Class B with size 2, weight 7, name 'b//', has dark; Object o \"o\" with \
                    name 'c//', class A B, has ~light; [ Main; ];",
        )],
        told: &[(0, "t.inf", "")],
        calls: 229,
        lines: "Errors: 0, warnings: 0\n",
    },
    // Conditionals, and a file that decides one of them: its opening is the call behind 15 others.
    Row {
        files: &[
            (
                "t.inf",
                b"Include \"c.h\";\nIfdef K; Message \"yes\"; Ifnot; Message \"no\"; Endif;\n[ Main; #Ifdef L; \
                    new_line; #Endif; ];\nConstant L;\nIfdef M;",
            ),
            ("c.h", b"Constant K;"),
        ],
        told: &[
            (0, "t.inf", ""),
            (15, "c.h", ""),
            (28, "t.inf", ""),
            (52, "t.inf", "yes\n"),
        ],
        calls: 141,
        lines: "yes\nt.inf(5): Error: Conditional without its other end\nErrors: 1, warnings: 0 (no output)\n",
    },
    // A file that includes itself: each of the 16 openings precedes 29 reads, of which the twelfth ends the message.
    Row {
        files: &[("t.inf", b"Message \"x\";\nInclude \"t.inf\";\n")],
        told: &[
            (0, "t.inf", ""),
            (13, "t.inf", "x\n"),
            (43, "t.inf", "x\nx\n"),
            (73, "t.inf", "x\nx\nx\n"),
            (103, "t.inf", "x\nx\nx\nx\n"),
            (133, "t.inf", "x\nx\nx\nx\nx\n"),
            (163, "t.inf", "x\nx\nx\nx\nx\nx\n"),
            (193, "t.inf", "x\nx\nx\nx\nx\nx\nx\n"),
            (223, "t.inf", "x\nx\nx\nx\nx\nx\nx\nx\n"),
            (253, "t.inf", "x\nx\nx\nx\nx\nx\nx\nx\nx\n"),
            (283, "t.inf", "x\nx\nx\nx\nx\nx\nx\nx\nx\nx\n"),
            (313, "t.inf", "x\nx\nx\nx\nx\nx\nx\nx\nx\nx\nx\n"),
            (343, "t.inf", "x\nx\nx\nx\nx\nx\nx\nx\nx\nx\nx\nx\n"),
            (373, "t.inf", "x\nx\nx\nx\nx\nx\nx\nx\nx\nx\nx\nx\nx\n"),
            (403, "t.inf", "x\nx\nx\nx\nx\nx\nx\nx\nx\nx\nx\nx\nx\nx\n"),
            (
                433,
                "t.inf",
                "x\nx\nx\nx\nx\nx\nx\nx\nx\nx\nx\nx\nx\nx\nx\n",
            ),
            (
                463,
                "t.inf",
                "x\nx\nx\nx\nx\nx\nx\nx\nx\nx\nx\nx\nx\nx\nx\nx\n",
            ),
        ],
        calls: 480,
        lines: "x\nx\nx\nx\nx\nx\nx\nx\nx\nx\nx\nx\nx\nx\nx\nx\nt.inf(2): Fatal error: More than 16 files open\n",
    },
    // A verb.
    Row {
        files: &[(
            "t.inf",
            b"Verb 'take' * noun -> Take; [ TakeSub; ]; [ Main; ];",
        )],
        told: &[(0, "t.inf", "")],
        calls: 54,
        lines: "Errors: 0, warnings: 0\n",
    },
    // A source that needs each routine of the veneer.
    Row {
        files: &[(
            "t.inf",
            b"Array b -> 4; Array w --> 4; Property p 7; Class C; C o \"thing\" with p 1 2, q 3; [ Main x; \
                    <Go 1 2>; <<Go>>; print (the) o, (a) o, (an) o, (The) o, (name) o, (number) 5; x = o.p++; \
                    --o.q; x = o.p(1); o.p = 2; x = o.p + o.#q + o.&q; if (o provides q && o ofclass C) x = \
                    children(o); spaces x; x = (b->1 = 2) + (w-->1 = 2) + (b->1)++ - --(w-->1); x = CP__Tab(o, 64) \
                    + Z__Region(o) + Unsigned__Compare(1, x); ]; [ GoSub; ]; ",
        )],
        told: &[(0, "t.inf", "")],
        calls: 423,
        lines: "Errors: 0, warnings: 0\n",
    },
];
