//! Words that are no command, and options in other places.
use super::sources::PRODUCT;

// The unit in the file `f.c`, the words, the bytes of `out` and `err`, and the status.
pub(super) static WRONG_WORDS: [(&str, &str, &str, &str, u8); 12] = [
    // Words of another form.
    (PRODUCT, "", "", "vfabi: words: P1\n", 2),
    (PRODUCT, "lanes", "", "vfabi: words: P3\n", 2),
    (PRODUCT, "frob", "", "vfabi: words: P2\n", 2),
    (
        PRODUCT,
        "lanes --isa s f.c N 1",
        "",
        "vfabi: words: P4\n",
        2,
    ),
    (
        PRODUCT,
        "lanes --isa=b f.c N 1",
        "",
        "vfabi: call: A1 0 0\n",
        1,
    ),
    (PRODUCT, "lanes --isa b f.c", "", "vfabi: words: P3\n", 2),
    (PRODUCT, "lanes --isa b", "", "vfabi: words: P3\n", 2),
    (
        PRODUCT,
        "--isa b lanes f.c N 1",
        "",
        "vfabi: words: P2\n",
        2,
    ),
    (
        PRODUCT,
        "lanes f.c --isa b N 1",
        "",
        "vfabi: call: A1 0 0\n",
        1,
    ),
    (
        PRODUCT,
        "lanes --ISA b f.c _ZGVbN4vv_f 1 1",
        "",
        "vfabi: words: P3\n",
        2,
    ),
    (
        PRODUCT,
        "frob --isa b f.c _ZGVbN4vv_f 1 1",
        "",
        "vfabi: words: P2\n",
        2,
    ),
    (
        PRODUCT,
        "lanes --isa bb g.c N 1",
        "",
        "vfabi: words: P4\n",
        2,
    ),
];
