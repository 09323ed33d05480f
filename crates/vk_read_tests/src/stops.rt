// Stops, in all places.

use crate::reads::{Row, compare};
use std::test::Fail;

static STOPS: [Row; 26] = [
    Row {
        units: &["int main(void) { print(1); int z = 0; print(5 / z); print(2); return 0; }\n"],
        turns: 1000000,
        want: "1 divide",
    },
    Row {
        units: &["int main(void) { print(1); int z = 0; print(5 % z); return 0; }\n"],
        turns: 1000000,
        want: "1 divide",
    },
    Row {
        units: &["int main(void) { int z = 0; z /= z; print(1); return 0; }\n"],
        turns: 1000000,
        want: "divide",
    },
    Row {
        units: &["int main(void) { unsigned z = 0; int x = 3; if (x % z) print(1); return 0; }\n"],
        turns: 1000000,
        want: "divide",
    },
    Row {
        units: &[
            "int main(void) { int z = 0; int x = 1 || 1 / z; print(x); x = 0 && 1 / z; print(x); x = 1 ? 2 : 1 / z; print(x); return 0; }\n",
        ],
        turns: 1000000,
        want: "1 0 2 done",
    },
    Row {
        units: &[
            "int a[3]; int main(void) { a[2] = 1; print(a[2]); a[3] = 1; print(9); return 0; }\n",
        ],
        turns: 1000000,
        want: "1 bounds",
    },
    Row {
        units: &["int a[3]; int main(void) { int i = -1; print(a[i]); return 0; }\n"],
        turns: 1000000,
        want: "bounds",
    },
    Row {
        units: &[
            "int a[3], b; int main(void) { int i = 5; b = a[i - 3] + a[i]; print(1); return 0; }\n",
        ],
        turns: 1000000,
        want: "bounds",
    },
    Row {
        units: &[
            "int a[3]; int g(const int *p) { return p[-1]; } int main(void) { print(g(a + 3)); print(g(a + 5)); return 0; }\n",
        ],
        turns: 1000000,
        want: "0 bounds",
    },
    Row {
        units: &[
            "int a[3]; void g(const int *p) { print(5); } int main(void) { g(a + 2147483647); g(a + 2147483647 + 1); return 0; }\n",
        ],
        turns: 1000000,
        want: "5 bounds",
    },
    Row {
        units: &["int main(void) { for (int i = 0; i < 5; i++) print(i); return 0; }\n"],
        turns: 3,
        want: "0 1 2 turns",
    },
    Row {
        units: &["int main(void) { for (int i = 0; i < 3; i++) print(i); return 0; }\n"],
        turns: 3,
        want: "0 1 2 done",
    },
    Row {
        units: &["int main(void) { int i = 0; while (1) { i++; print(i); } return 0; }\n"],
        turns: 2,
        want: "1 2 turns",
    },
    Row {
        units: &["int main(void) { int i = 0; do { i++; print(i); } while (i < 9); return 0; }\n"],
        turns: 2,
        want: "1 2 turns",
    },
    Row {
        units: &["int main(void) { int i = 0; do { i++; print(i); } while (i < 2); return 0; }\n"],
        turns: 2,
        want: "1 2 done",
    },
    Row {
        units: &[
            "int main(void) { for (int i = 0; i < 2; i++) for (int j = 0; j < 2; j++) print(i * 10 + j); return 0; }\n",
        ],
        turns: 2,
        want: "0 1 10 11 done",
    },
    Row {
        units: &[
            "int main(void) { for (int i = 0; i < 9; i++) { if (i == 1) continue; if (i == 2) break; print(i); } print(7); return 0; }\n",
        ],
        turns: 3,
        want: "0 7 done",
    },
    Row {
        units: &["int main(void) { while (0) ; for (;0;) ; print(4); return 0; }\n"],
        turns: 1,
        want: "4 done",
    },
    Row {
        units: &[
            "int f(int a) { return 10 / a; } int main(void) { print(f(2)); print(f(0) + 1); print(f(1)); return 0; }\n",
        ],
        turns: 1000000,
        want: "5 divide",
    },
    Row {
        units: &[
            "int t[2]; int z; int f(int a) { print(a); return a; } int main(void) { t[f(5)] = f(1) / z; return 0; }\n",
        ],
        turns: 1000000,
        want: "5 1 divide",
    },
    Row {
        units: &[
            "int t[2]; int f(int a) { print(a); return a; } int main(void) { t[f(5)] += f(1); return 0; }\n",
        ],
        turns: 1000000,
        want: "5 bounds",
    },
    Row {
        units: &[
            "int t[2]; int f(int a) { print(a); return a; } int main(void) { t[f(5)] = f(1); return 0; }\n",
        ],
        turns: 1000000,
        want: "5 1 bounds",
    },
    Row {
        units: &["int main(void) { for (int i = 1 / 0; i < 3; i++) print(i); return 0; }\n"],
        turns: 1000000,
        want: "divide",
    },
    Row {
        units: &["int main(void) { for (int i = 0; i < 3 / i; i++) print(i); return 0; }\n"],
        turns: 1000000,
        want: "divide",
    },
    Row {
        units: &["int main(void) { for (int i = 0; i < 3; i += 1 / i) print(i); return 0; }\n"],
        turns: 1000000,
        want: "0 divide",
    },
    Row {
        units: &[
            "int f(void) { int i = 0; while (i < 2) { i++; if (i == 2) return i / (i - 2); print(i); } return 0; } int main(void) { print(f()); return 0; }\n",
        ],
        turns: 1000000,
        want: "1 divide",
    },
];

#[test]
fn stops(rt: HostRuntime) -> Result<(), Fail> {
    compare(&rt, rt.alloc(), &STOPS)
}
