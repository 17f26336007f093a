//! Conditionals: the tokens of a source that are read, and the message about a conditional without its other end.
use crate::trials::Folder;

/// The rows of conditionals.
pub static FOLDERS: [Folder; 27] = [
    // A name of an included file is known; one that is declared later is not; a file ends with an open conditional.
    (
        &[
            (
                "t.inf",
                b"Include \"c.h\";\nIfdef K; Message \"yes\"; Ifnot; Message \"no\"; Endif;\n[ Main; #Ifdef L; new_line; #Endif; ];\n\
                    Constant L;\nIfdef M;",
            ),
            ("c.h", b"Constant K;"),
        ],
        "yes\nt.inf(5): Error: Conditional without its other end\nErrors: 1, warnings: 0 (no output)\n",
    ),
    // A directive that has nothing to end or to turn has its message at its own semicolon.
    (
        &[(
            "t.inf",
            b"Endif;\nIfnot;\n[ Main;\n#Endif; print \"a\"; ];\nMessage \"b\";",
        )],
        "t.inf(1): Error: Conditional without its other end\nt.inf(2): Error: Conditional without its other end\n\
            t.inf(4): Error: Conditional without its other end\nb\nErrors: 3, warnings: 0 (no output)\n",
    ),
    // A second `Ifnot` has a message in a side that is kept, and none in one that is left out.
    (
        &[(
            "t.inf",
            b"Ifdef K; Ifnot; Message \"a\";\nIfnot;\nMessage \"b\"; Endif; [ Main; ];",
        )],
        "a\nt.inf(2): Error: Conditional without its other end\nb\nErrors: 1, warnings: 0 (no output)\n",
    ),
    (
        &[(
            "t.inf",
            b"Constant K; Ifdef K; Message \"a\"; Ifnot; Ifnot; Message \"no\"; Endif; [ Main; ];",
        )],
        "a\nErrors: 0, warnings: 0\n",
    ),
    // In a side that is left out conditionals are counted, with `#` or not.
    (
        &[(
            "t.inf",
            b"Ifdef K; Iftrue J; Message \"a\"; Ifnot; 5 Endif; #Ifndef K; #Endif; \"x\"; ) Message \"b\"; #Ifnot; Message \"c\"; #Endif; \
                [ Main; ];",
        )],
        "c\nErrors: 0, warnings: 0\n",
    ),
    // A token that does not fit a conditional is the bad token of the directive around it.
    (
        &[(
            "t.inf",
            b"[ Main;\n#Ifdef 5; print \"a\"; ];\n[ Main; ];\nIfdef;\nMessage \"b\";",
        )],
        "t.inf(2): Error: Syntax error at \"5\"\nt.inf(3): Error: \"Main\" was declared at t.inf(1)\n\
            t.inf(4): Error: Syntax error at \";\"\nb\nErrors: 3, warnings: 0 (no output)\n",
    ),
    // A conditional inside a directive ends in it: its message comes behind all messages of the directive.
    (
        &[(
            "t.inf",
            b"Constant K;\n[ Main x;\n#Ifdef K;\nprint \"a\";\n];\nMessage \"b\";",
        )],
        "t.inf(5): Warning: Local \"x\" is unused\nt.inf(3): Error: Conditional without its other end\nb\n\
            Errors: 1, warnings: 1 (no output)\n",
    ),
    // Messages about two conditionals come in the order in which they were opened.
    (
        &[(
            "t.inf",
            b"Ifndef A;\nIfndef B;\nIfndef C; Endif;\n[ Main; ];",
        )],
        "t.inf(1): Error: Conditional without its other end\nt.inf(2): Error: Conditional without its other end\n\
            Errors: 2, warnings: 0 (no output)\n",
    ),
    // A conditional ends in the file in which it began.
    (
        &[
            (
                "t.inf",
                b"Constant K;\nIfdef K; Include \"c\"; Endif;\n[ Main; ];",
            ),
            ("c.h", b"\nIfdef K; Message \"a\";"),
        ],
        "a\nc.h(2): Error: Conditional without its other end\nErrors: 1, warnings: 0 (no output)\n",
    ),
    (
        &[
            ("t.inf", b"Ifndef K;\nInclude \"c\"; Endif;\n[ Main; ];"),
            ("c.h", b"Endif;"),
        ],
        "c.h(1): Error: Conditional without its other end\nErrors: 1, warnings: 0 (no output)\n",
    ),
    // A file that is left out is not opened.
    (
        &[("t.inf", b"Ifdef K; Include \"c\"; Endif; [ Main; ];")],
        "Errors: 0, warnings: 0\n",
    ),
    // `End` ends all reading, and there is no message about open conditionals.
    (
        &[("t.inf", b"Ifndef K; [ Main; ]; End; )")],
        "Errors: 0, warnings: 0\n",
    ),
    // A side that is left out may run to the end of the file, which then cuts the directive.
    (
        &[("t.inf", b"[ Main;\n#Ifdef K;\nprint \"a\"; ];")],
        "t.inf(3): Error: Syntax error at end of file\nt.inf(2): Error: Conditional without its other end\n\
            Errors: 2, warnings: 0 (no output)\n",
    ),
    // Among tokens that are passed over conditionals choose which these are, and there is no message about them.
    (
        &[(
            "t.inf",
            b"Constant K;\n) #Ifdef K; 5 #Ifnot; ; #Endif; ;\nMessage \"a\"; [ Main; ];\n) #Endif; 5;\nMessage \"b\";",
        )],
        "t.inf(2): Error: Syntax error at \")\"\na\nt.inf(4): Error: Syntax error at \")\"\nb\nErrors: 2, warnings: 0 (no output)\n",
    ),
    // A conditional that is left open among such tokens has its message.
    (
        &[("t.inf", b")\n#Ifndef K; 5;\nMessage \"a\"; [ Main; ];")],
        "t.inf(1): Error: Syntax error at \")\"\nt.inf(2): Error: Conditional without its other end\na\n\
            Errors: 2, warnings: 0 (no output)\n",
    ),
    // A conditional directive begins at its `#`.
    (
        &[(
            "t.inf",
            b"#Ifdef K; Message \"a\"; #Ifnot; Message \"b\"; #Endif;\n#\nEndif; [ Main; ];",
        )],
        "b\nt.inf(2): Error: Conditional without its other end\nErrors: 1, warnings: 0 (no output)\n",
    ),
    // Between a `#` and the word of its directive a conditional is inside the directive.
    (
        &[(
            "t.inf",
            b"# #Ifndef K;\nConstant J; Ifdef J; Message \"j\"; Endif;\n# #Ifdef J; Ifnot; Message \"a\";\n[ Main; ];",
        )],
        "t.inf(1): Error: Conditional without its other end\nj\nt.inf(3): Error: Conditional without its other end\na\n\
            Errors: 2, warnings: 0 (no output)\n",
    ),
    // A conditional inside a conditional directive belongs to the directive around both.
    (
        &[(
            "t.inf",
            b"Ifdef #Ifndef A;\nB #Endif; ; Message \"no\"; Endif;\n[ Main; #Ifdef #Ifdef A; #Ifnot; true; #Endif; #Endif; print \"a\"; ];",
        )],
        "Errors: 0, warnings: 0\n",
    ),
    // A condition is a known number, and true where it is not 0.
    (
        &[(
            "t.inf",
            b"Constant K = 7;\nIftrue K == 7; Message \"a\"; Ifnot; Message \"no\"; Endif;\n\
                #Iffalse k * 2 - 14 || 'a' ~= 97; Message \"b\"; #Endif;\n\
                Iftrue -1 < 0 && ~~(3 == 1 or 2) && 7 / -2 == -3; Message \"c\"; Endif;\nIftrue K = 7; Message \"d\"; [ Main; ];",
        )],
        "a\nb\nc\nt.inf(5): Error: Syntax error at \"=\"\nd\nErrors: 1, warnings: 0 (no output)\n",
    ),
    // A condition with an error is false.
    (
        &[(
            "t.inf",
            b"Iftrue X; Message \"no\"; Ifnot; Message \"a\"; Endif;\nIffalse 1 % 0; Message \"b\"; Endif;\nIffalse\n\
                child; Message \"c\"; Endif;\nIftrue 0 && X; Endif;\nIftrue\n(1 +\n5++) * 1 / 0; Endif;\nIftrue self || random(5); Endif;\n\
                Iftrue X(1, 2, 3, 4, 5, 6, 7, 8); Endif;\n[ Main; ];",
        )],
        "t.inf(1): Error: Not a constant known here\na\nt.inf(2): Error: Constant out of range\nb\nt.inf(4): Error: Wrong kind: \"child\"\n\
            c\nt.inf(5): Error: Not a constant known here\nt.inf(6): Error: Not a constant known here\n\
            t.inf(9): Error: Not a constant known here\nt.inf(10): Error: Not a constant known here\nErrors: 7, warnings: 0 (no output)\n",
    ),
    // A condition sees the names of the directives before, and no locals.
    (
        &[(
            "t.inf",
            b"Constant K = 3;\n[ Main K; #Iftrue K == 3; K; #Endif;\n#Iftrue L; #Endif; #Iffalse Main; #Endif; ];\nConstant L = 1;\n\
                [ R; #Iftrue L; #Ifnot; ) #Endif; ];",
        )],
        "t.inf(3): Error: Not a constant known here\nt.inf(3): Error: Not a constant known here\nErrors: 2, warnings: 0 (no output)\n",
    ),
    // A conditional inside a condition chooses among its tokens, and belongs to the directive around both.
    (
        &[(
            "t.inf",
            b"Iftrue 1 #Iftrue 0; + #Ifnot; - 1 #Endif; ; Message \"no\"; Ifnot; Message \"a\"; Endif;\n\
                Iftrue #Iffalse #Iftrue 1; 0 #Endif; == 2; 3 #Endif; == 3; Message \"b\"; Endif;\n\
                Iftrue 1 #Iftrue 1; ; Message \"c\"; Endif;\n[ Main; #Iftrue 1 #Ifdef K; ( #Endif; ; print \"d\"; #Endif; #Iftrue 2\n\
                #Iftrue 3;\n; #Endif; ];",
        )],
        "a\nb\nt.inf(3): Error: Conditional without its other end\nc\nt.inf(5): Error: Conditional without its other end\n\
            Errors: 2, warnings: 0 (no output)\n",
    ),
    // A token that does not fit a condition is the bad token of the directive around it.
    (
        &[(
            "t.inf",
            b"Iftrue; Message \"a\";\nIftrue 5 5; Message \"b\";\nIffalse (1; Message \"c\";\nIftrue 1 Iftrue 1; Message \"d\";\n[ Main;\n\
                #Iftrue 1\nx; print \"a\"; ];\n[ Main; #Iftrue 99999; ]; Message \"e\";\n[ Main; ];\n\
                Iftrue 1 #Iftrue = 1; ; Message \"f\";",
        )],
        "t.inf(1): Error: Syntax error at \";\"\na\nt.inf(2): Error: Syntax error at \"5\"\nb\nt.inf(3): Error: Syntax error at \";\"\nc\n\
            t.inf(4): Error: Syntax error at \"Iftrue\"\nd\nt.inf(7): Error: Syntax error at \"x\"\n\
            t.inf(8): Error: \"Main\" was declared at t.inf(5)\nt.inf(8): Error: Number out of range\ne\n\
            t.inf(9): Error: \"Main\" was declared at t.inf(5)\nt.inf(10): Error: Syntax error at \"=\"\nf\n\
            Errors: 9, warnings: 0 (no output)\n",
    ),
    // Among tokens that are passed over there is no message about a condition.
    (
        &[(
            "t.inf",
            b") #Iftrue 1; 5 #Ifnot; ; #Endif; ; Message \"a\";\n) #Iffalse X / 0; ; #Ifnot; #Endif; Message \"b\"; ; Message \"c\";\n\
                ) #Iftrue ; Message \"d\"; [ Main; ];",
        )],
        "t.inf(1): Error: Syntax error at \")\"\na\nt.inf(2): Error: Syntax error at \")\"\n\
            t.inf(2): Error: Conditional without its other end\nt.inf(2): Error: Conditional without its other end\n\
            t.inf(2): Error: Conditional without its other end\nb\nc\nt.inf(3): Error: Syntax error at \")\"\nd\n\
            Errors: 6, warnings: 0 (no output)\n",
    ),
    // Brackets of a condition are counted from 0.
    (
        &[(
            "t.inf",
            b"[ Main; { { { { { { { { { { { { { { { { { { { { #Iftrue (((((((((((((((((((((((((((((((((((((((((((((((((1)))))))))))))))))))\
                )))))))))))))))))))))))))))))); 5 #Endif; + 1; } } } } } } } } } } } } } } } } } } } } \n\
                #Iftrue ((((((((((((((((((((((((((((((((((((((((((((((((((((((((((((((((\n(",
        )],
        "t.inf(3): Fatal error: Nesting over 64\n",
    ),
    // A condition has at most 100 tokens.
    (
        &[(
            "t.inf",
            b"Iftrue\n- - - - - - - - - - - - - - - - - - - - - - - - - - - - - - - - - - - - - - - - - - - - - - - - - - - - - - - - - - \
                - - - - - - - - - - - - - - - - - - - - - - - - - - - - - - - - - - - - - - - - - 1; Message \"a\"; Endif;\nIftrue\n\
                1 +1 +1 +1 +1 +1 +1 +1 +1 +1 +1 +1 +1 +1 +1 +1 +1 +1 +1 +1 +1 +1 +1 +1 +1 +1 +1 +1 +1 +1 +1 +1 +1 +1 +1 +1 +1 +1 +1 +1 +1 \
                +1 +1 +1 +1 +1 +1 +1 +1 +1\n+\n1",
        )],
        "a\nt.inf(6): Fatal error: MAX_EXPRESSION_NODES is exceeded\n",
    ),
    // The names of the language are declared; what was used only is not.
    (
        &[(
            "t.inf",
            b"Ifdef true; Message \"a\"; Endif; [ Main; F(); ]; Ifdef f; Message \"b\"; Endif; [ F; ]; Ifdef F; Message \"c\"; Endif;",
        )],
        "a\nc\nErrors: 0, warnings: 0\n",
    ),
];
