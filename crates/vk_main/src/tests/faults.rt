//! Each call of the store and of `out` failing in turn, over both commands.
use super::sources::SELF;

// The bytes of the file `f.c`, the words, the numbers of the failing calls of the store and of `out`, 0 for none, the bytes of
// `out` and `err`, and the status.
pub(super) static FAULTS: [(&str, &str, (u64, u64), &str, &str, u8); 13] = [
    (SELF, LANES, (1, 0), "", UNREAD, 4),
    (SELF, LANES, (2, 0), "", UNREAD, 4),
    (SELF, LANES, (3, 0), FOUR, "", 0),
    (SELF, LANES, (0, 1), "", UNWRITTEN, 5),
    (SELF, LANES, (0, 2), "lane 0: 1\n", UNWRITTEN, 5),
    (SELF, LANES, (0, 3), "lane 0: 1\nlane 1: 2\n", UNWRITTEN, 5),
    (
        SELF,
        LANES,
        (0, 4),
        "lane 0: 1\nlane 1: 2\nlane 2: 3\n",
        UNWRITTEN,
        5,
    ),
    (SELF, LANES, (0, 5), FOUR, "", 0),
    (NAMES, DEMANGLE, (1, 0), "", UNREAD, 4),
    (NAMES, DEMANGLE, (2, 0), "", UNREAD, 4),
    (NAMES, DEMANGLE, (0, 1), "", UNWRITTEN, 5),
    (
        NAMES,
        DEMANGLE,
        (0, 2),
        "f isa b unmasked lanes 4 vector\n",
        UNWRITTEN,
        5,
    ),
    (
        NAMES,
        DEMANGLE,
        (3, 3),
        "f isa b unmasked lanes 4 vector\ng isa d masked lanes 8 uniform\n",
        "",
        0,
    ),
];

const LANES: &str = "lanes --isa b f.c _ZGVbN4v_f 1,2,3,4";

const DEMANGLE: &str = "demangle f.c";

const FOUR: &str = "lane 0: 1\nlane 1: 2\nlane 2: 3\nlane 3: 4\n";

const NAMES: &str = "_ZGVbN4v_f\n_ZGVdM8u_g\n";

const UNREAD: &str = "vfabi: read fault: f.c\n";

const UNWRITTEN: &str = "vfabi: write fault\n";
