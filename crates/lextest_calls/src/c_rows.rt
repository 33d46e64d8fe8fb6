//! The tokens that flex 2.6.4 finds, with their lines and columns: written by scripts/flex/lines.py. The time that a function takes to be
//! proved grows with the square of the values in its constants, so each has few.

/// The number of the default rule.
pub(crate) const DEFAULT: u32 = 4_294_967_295;

/// A rule, where the text begins, the condition, the text, and the line and the column of its first byte.
pub(crate) type Row = (u32, u64, u32, &'static str, u64, u64);

/// A text, an input, its tokens, and the status.
pub(crate) type Scan = (&'static [u8], &'static [u8], &'static [Row], u8);

/// Some of the scans.
pub(crate) fn first() -> &'static [Scan] {
    const SCANS: &[Scan] = &[
        (
            b"%%\nif printf(\"K\");\n[0-9]+ ;\n",
            b"if 1234 x5",
            &[
                (0, 0, 0, "if", 1, 1),
                (DEFAULT, 2, 0, " ", 1, 3),
                (1, 3, 0, "1234", 1, 4),
                (DEFAULT, 7, 0, " ", 1, 8),
                (DEFAULT, 8, 0, "x", 1, 9),
                (1, 9, 0, "5", 1, 10),
            ],
            0,
        ),
        (
            b"%%\na+ yymore();\nb ECHO;\n",
            b"aaab",
            &[(0, 0, 0, "aaa", 1, 1), (1, 0, 0, "aaab", 1, 1)],
            0,
        ),
    ];
    SCANS
}

/// Some of the scans.
pub(crate) fn second() -> &'static [Scan] {
    const SCANS: &[Scan] = &[
        (
            b"%%\nabc yyless(1);\n[a-z] ;\n",
            b"abc",
            &[
                (0, 0, 0, "a", 1, 1),
                (1, 1, 0, "b", 1, 2),
                (1, 2, 0, "c", 1, 3),
            ],
            0,
        ),
        (
            b"%%\nab/cd ;\n.|\\n ;\n",
            b"abcdab",
            &[
                (0, 0, 0, "ab", 1, 1),
                (1, 2, 0, "c", 1, 3),
                (1, 3, 0, "d", 1, 4),
                (1, 4, 0, "a", 1, 5),
                (1, 5, 0, "b", 1, 6),
            ],
            0,
        ),
    ];
    SCANS
}

/// Some of the scans.
pub(crate) fn third() -> &'static [Scan] {
    const SCANS: &[Scan] = &[
        (
            b"%x C\n%%\na BEGIN(C);\n<C>b BEGIN(INITIAL);\n<C><<EOF>> exit(3);\n",
            b"aba",
            &[
                (0, 0, 0, "a", 1, 1),
                (1, 1, 1, "b", 1, 2),
                (0, 2, 0, "a", 1, 3),
            ],
            3,
        ),
        (b"%%\nab exit(7);\n", b"abXY", &[(0, 0, 0, "ab", 1, 1)], 7),
    ];
    SCANS
}

/// Some of the scans.
pub(crate) fn fourth() -> &'static [Scan] {
    const SCANS: &[Scan] = &[
        (
            b"%%\n[a-z]+ ;\n\\n+ ;\n[ \\t]+ ;\n",
            b"ab\n\n  c d\n\tef\n\n",
            &[
                (0, 0, 0, "ab", 1, 1),
                (1, 2, 0, "\n\n", 1, 3),
                (2, 4, 0, "  ", 3, 1),
                (0, 6, 0, "c", 3, 3),
                (2, 7, 0, " ", 3, 4),
                (0, 8, 0, "d", 3, 5),
                (1, 9, 0, "\n", 3, 6),
                (2, 10, 0, "\t", 4, 1),
                (0, 11, 0, "ef", 4, 2),
                (1, 13, 0, "\n\n", 4, 4),
            ],
            0,
        ),
        (
            b"%%\n[a-z]+/\\n\\n ;\n[0-9]+$ ;\n[a-z] ;\n\\n ;\n",
            b"ab\n\ncd\n12\n3 4\ne",
            &[
                (0, 0, 0, "ab", 1, 1),
                (3, 2, 0, "\n", 1, 3),
                (3, 3, 0, "\n", 2, 1),
                (2, 4, 0, "c", 3, 1),
                (2, 5, 0, "d", 3, 2),
                (3, 6, 0, "\n", 3, 3),
                (1, 7, 0, "12", 4, 1),
                (3, 9, 0, "\n", 4, 3),
                (DEFAULT, 10, 0, "3", 5, 1),
                (DEFAULT, 11, 0, " ", 5, 2),
                (1, 12, 0, "4", 5, 3),
                (3, 13, 0, "\n", 5, 4),
                (2, 14, 0, "e", 6, 1),
            ],
            0,
        ),
    ];
    SCANS
}

/// Some of the scans.
pub(crate) fn fifth() -> &'static [Scan] {
    const SCANS: &[Scan] = &[
        (
            b"%%\na\\n+b yyless(2);\n[a-z] ;\n\\n ;\n",
            b"a\n\nb\na\nbc",
            &[
                (0, 0, 0, "a\n", 1, 1),
                (2, 2, 0, "\n", 2, 1),
                (1, 3, 0, "b", 3, 1),
                (2, 4, 0, "\n", 3, 2),
                (0, 5, 0, "a\n", 4, 1),
                (1, 7, 0, "b", 5, 1),
                (1, 8, 0, "c", 5, 2),
            ],
            0,
        ),
        (
            b"%%\n\\n yymore();\n[a-z]+ ;\n",
            b"\n\nab\ncd\n",
            &[
                (0, 0, 0, "\n", 1, 1),
                (0, 0, 0, "\n\n", 1, 1),
                (1, 0, 0, "\n\nab", 1, 1),
                (0, 4, 0, "\n", 3, 3),
                (1, 4, 0, "\ncd", 3, 3),
                (0, 7, 0, "\n", 4, 3),
            ],
            0,
        ),
    ];
    SCANS
}

/// Some of the scans.
pub(crate) fn sixth() -> &'static [Scan] {
    const SCANS: &[Scan] = &[
        (
            b"%%\n\"/*\"([^*]|\\*+[^*/])*\\*+\"/\" ;\n[a-z]+ ;\n[ \\n] ;\n",
            b"a /* x\n y */ b\n/*\n\n*/c\n d",
            &[
                (1, 0, 0, "a", 1, 1),
                (2, 1, 0, " ", 1, 2),
                (0, 2, 0, "/* x\n y */", 1, 3),
                (2, 12, 0, " ", 2, 6),
                (1, 13, 0, "b", 2, 7),
                (2, 14, 0, "\n", 2, 8),
                (0, 15, 0, "/*\n\n*/", 3, 1),
                (1, 21, 0, "c", 5, 3),
                (2, 22, 0, "\n", 5, 4),
                (2, 23, 0, " ", 6, 1),
                (1, 24, 0, "d", 6, 2),
            ],
            0,
        ),
        (
            b"%x C\n%%\na\\n yymore(); BEGIN(C);\n<C>b yyless(1); BEGIN(INITIAL);\n[a-z\\n] ;\n",
            b"a\nb\nca\nb",
            &[
                (0, 0, 0, "a\n", 1, 1),
                (1, 0, 1, "a", 1, 1),
                (2, 1, 0, "\n", 1, 2),
                (2, 2, 0, "b", 2, 1),
                (2, 3, 0, "\n", 2, 2),
                (2, 4, 0, "c", 3, 1),
                (0, 5, 0, "a\n", 3, 2),
                (1, 5, 1, "a", 3, 2),
                (2, 6, 0, "\n", 3, 3),
                (2, 7, 0, "b", 4, 1),
            ],
            0,
        ),
    ];
    SCANS
}

/// Some of the scans.
pub(crate) fn seventh() -> &'static [Scan] {
    const SCANS: &[Scan] = &[
        (b"%%\na ;\n", b"", &[], 0),
        (
            b"%%\na ;\n",
            b"\n\na\n",
            &[
                (DEFAULT, 0, 0, "\n", 1, 1),
                (DEFAULT, 1, 0, "\n", 2, 1),
                (0, 2, 0, "a", 3, 1),
                (DEFAULT, 3, 0, "\n", 3, 2),
            ],
            0,
        ),
    ];
    SCANS
}
