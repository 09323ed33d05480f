//! Words that are empty or hold blanks, and what a call with them answers.
use super::sources::{PRODUCT, SELF};

// The same, for words that stand one by one.
pub(super) static WORDS: [(&str, &[&str], &str, &str, u8); 8] = [
    (
        SELF,
        &["lanes", "--isa", "b", "f.c", "_ZGVbN4v_f", ""],
        "",
        "vfabi: call: A4 0 0\n",
        1,
    ),
    (
        PRODUCT,
        &["lanes", "--isa", "b", "f.c", "_ZGVbN4vv_f", "1", ""],
        "",
        "vfabi: call: A4 1 0\n",
        1,
    ),
    (
        SELF,
        &["lanes", "--isa", "b", "f.c", "_ZGVbN4v_f", " 1"],
        "",
        "vfabi: call: A4 0 0\n",
        1,
    ),
    (
        SELF,
        &["lanes", "--isa", "b", "f.c", "_ZGVbN4v_f", "1,2, 3,4"],
        "",
        "vfabi: call: A4 0 2\n",
        1,
    ),
    (
        SELF,
        &["lanes", "--isa", "b", "f.c", "", "1"],
        "",
        "vfabi: call: A1 0 0\n",
        1,
    ),
    (
        SELF,
        &["lanes", "--isa", "b", "", "_ZGVbN4v_f", "1"],
        "",
        "vfabi: read fault: \n",
        4,
    ),
    (
        SELF,
        &["lanes", "--isa", "", "b", "f.c", "_ZGVbN4v_f", "1"],
        "",
        "vfabi: words: P4\n",
        2,
    ),
    (
        SELF,
        &["lanes", "--isa b", "f.c", "_ZGVbN4v_f", "1"],
        "",
        "vfabi: words: P3\n",
        2,
    ),
];
