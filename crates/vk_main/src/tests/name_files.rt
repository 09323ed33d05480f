//! Files of vector names, and what `demangle` answers.

// The bytes of the file `f.c`, the words, the bytes of `out` and `err`, and the status.
pub(super) static NAME_FILES: [(&str, &str, &str, &str, u8); 10] = [
    (
        "_ZGVbN4vl4u_f",
        "demangle f.c",
        "f isa b unmasked lanes 4 vector linear(4) uniform\n",
        "",
        0,
    ),
    (
        "_ZGVbN4vl4u_f\r\n_ZGVdM8vls2ua32_g\n",
        "demangle f.c",
        "f isa b unmasked lanes 4 vector linear(4) uniform\ng isa d masked lanes 8 vector linear(arg 2) uniform:aligned(32)\n",
        "",
        0,
    ),
    ("", "demangle f.c", "", "", 0),
    (
        "_ZGVbN4vl4u_f\n_ZGVbN4l1_f\n",
        "demangle f.c",
        "",
        "vfabi: line 2: N6 at 8\n",
        1,
    ),
    (
        "_ZGVbN4v_f g\n_ZGVbN4v\n",
        "demangle f.c",
        "",
        "vfabi: line 1: N13 at 10\n",
        1,
    ),
    ("\n", "demangle f.c", "", "vfabi: line 1: N1 at 0\n", 1),
    ("", "demangle g.c", "", "vfabi: read fault: g.c\n", 4),
    ("", "demangle", "", "vfabi: words: P3\n", 2),
    ("", "demangle f.c f.c", "", "vfabi: words: P3\n", 2),
    ("", "Demangle f.c", "", "vfabi: words: P2\n", 2),
];
