// Statements, scopes and loops.

use crate::reads::{Row, compare};
use std::test::Fail;

static STATEMENTS: [Row; 21] = [
    Row {
        units: &["int main(void) { print(1); print(-2); print(9223372036854775807); return 0; }\n"],
        turns: 1000000,
        want: "1 -2 9223372036854775807 done",
    },
    Row {
        units: &[
            "int main(void) { int x; print(x); x = 5; print(x); x += 3; x *= 2; x -= 1; print(x); x /= 4; x %= 3; print(x); return 0; }\n",
        ],
        turns: 1000000,
        want: "0 5 15 0 done",
    },
    Row {
        units: &[
            "int main(void) { int x = 3; { int x = 4; x++; print(x); { int x = x; print(x); } } print(x); return 0; }\n",
        ],
        turns: 1000000,
        want: "5 0 3 done",
    },
    Row {
        units: &[
            "int main(void) { int a = 1, b = a + 1, c = b * 3; print(a); print(b); print(c); return 0; }\n",
        ],
        turns: 1000000,
        want: "1 2 6 done",
    },
    Row {
        units: &[
            "int main(void) { if (1) print(1); else print(2); if (0) print(3); else print(4); if (2 > 3) print(5); return 0; }\n",
        ],
        turns: 1000000,
        want: "1 4 done",
    },
    Row {
        units: &[
            "int main(void) { int i = 0; while (i < 3) { print(i); i++; } print(i); return 0; }\n",
        ],
        turns: 1000000,
        want: "0 1 2 3 done",
    },
    Row {
        units: &[
            "int main(void) { int i = 5; do { print(i); i--; } while (i > 3); do print(7); while (0); return 0; }\n",
        ],
        turns: 1000000,
        want: "5 4 7 done",
    },
    Row {
        units: &[
            "int main(void) { for (int i = 0; i < 4; i++) { if (i == 1) continue; if (i == 3) break; print(i); } print(9); return 0; }\n",
        ],
        turns: 1000000,
        want: "0 2 9 done",
    },
    Row {
        units: &[
            "int main(void) { int i; for (i = 0; ; i += 2) { if (i > 5) break; print(i); } print(i); return 0; }\n",
        ],
        turns: 1000000,
        want: "0 2 4 6 done",
    },
    Row {
        units: &[
            "int main(void) { int i = 0; for (;;) { i++; if (i % 2) continue; print(i); if (i == 6) break; } return 0; }\n",
        ],
        turns: 1000000,
        want: "2 4 6 done",
    },
    Row {
        units: &[
            "int main(void) { for (int i = 0, j = 9; i < 3; i++) { j -= i; print(i * 100 + j); } return 0; }\n",
        ],
        turns: 1000000,
        want: "9 108 206 done",
    },
    Row {
        units: &[
            "int main(void) { for (int i = 0; i < 3; i++) { int k; print(k); k = i; print(k); } return 0; }\n",
        ],
        turns: 1000000,
        want: "0 0 0 1 0 2 done",
    },
    Row {
        units: &[
            "int main(void) { for (int i = 0; i < 2; i++) { int k = 7; k += i; print(k); }  return 0; }\n",
        ],
        turns: 1000000,
        want: "7 8 done",
    },
    Row {
        units: &[
            "int main(void) { for (int i = 0; i < 2; i++) for (int i = 5; i < 7; i++) print(i); return 0; }\n",
        ],
        turns: 1000000,
        want: "5 6 5 6 done",
    },
    Row {
        units: &[
            "int main(void) { int i = 0; while (1) { i++; if (i == 2) continue; if (i == 4) break; print(i); } print(100); return 0; }\n",
        ],
        turns: 1000000,
        want: "1 3 100 done",
    },
    Row {
        units: &[
            "int main(void) { int i = 0; do { i++; if (i == 2) continue; print(i); } while (i < 3); return 0; }\n",
        ],
        turns: 1000000,
        want: "1 3 done",
    },
    Row {
        units: &[
            "int main(void) { int s = 0; for (int i = 1; i <= 10; i++) { if (i % 3 == 0) continue; for (int j = 0; j < i; j++) { if (j == 4) break; s += j; } } print(s); return 0; }\n",
        ],
        turns: 1000000,
        want: "31 done",
    },
    Row {
        units: &["int main(void) { ;;; { } { ; } print(3); return 0; }\n"],
        turns: 1000000,
        want: "3 done",
    },
    Row {
        units: &[
            "int main(void) { int x = 1; x <<= 3; print(x); x |= 5; print(x); x ^= 6; print(x); x &= 9; print(x); x >>= 1; print(x); return 0; }\n",
        ],
        turns: 1000000,
        want: "8 13 11 9 4 done",
    },
    Row {
        units: &[
            "int main(void) { unsigned char c = 250; c += 10; print(c); signed char d = 127; d++; print(d); short s = -1; s *= 40000; print(s); return 0; }\n",
        ],
        turns: 1000000,
        want: "4 -128 25536 done",
    },
    Row {
        units: &[
            "int main(void) { int x = 10; if (x > 5) { int y = x * 2; x = y; } else { int z = 1; x = z; } print(x); return 0; }\n",
        ],
        turns: 1000000,
        want: "20 done",
    },
];

#[test]
fn statements(rt: HostRuntime) -> Result<(), Fail> {
    compare(&rt, rt.alloc(), &STATEMENTS)
}
