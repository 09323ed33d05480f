// Arrays, objects and pointers.

use crate::reads::{Row, compare};
use std::test::Fail;

static MEMORY: [Row; 5] = [
    Row {
        units: &[
            "int a[5] = {1, 2, 3}, s = 7; const int k = 9; long w = -1;\nint main(void) { for (int i = 0; i < 5; i++) print(a[i]); print(s); print(k); print(w); s += k; print(s); a[4] = s; print(a[4] - a[0]); return 0; }\n",
        ],
        turns: 1000000,
        want: "1 2 3 0 0 7 9 -1 16 15 done",
    },
    Row {
        units: &[
            "unsigned char c[3] = {255, 256 + 2}; short h[] = {70000, -1};\nint main(void) { c[0]++; print(c[0]); print(c[1]); print(c[2]); print(h[0]); print(h[1]); h[1] -= 32768; print(h[1]); return 0; }\n",
        ],
        turns: 1000000,
        want: "0 2 0 4464 -1 32767 done",
    },
    Row {
        units: &[
            "int a[4] = {1, 2, 3, 4};\nint sum(const int *p, int n) { int s = 0; for (int i = 0; i < n; i++) s += p[i]; return s; }\nvoid add(int *p, int n) { *p += n; p[1] = p[0] * 2; }\nint main(void) { print(sum(a, 4)); add(&a[1], 10); add(a + 2, 5); print(sum(a, 4)); print(*(a + 3)); print(a[3]); return 0; }\n",
        ],
        turns: 1000000,
        want: "10 100 58 58 done",
    },
    Row {
        units: &[
            "int x = 4;\nvoid set(int *p, const int *q) { *p = *q + 1; *p = *q + 1; }\nint main(void) { set(&x, &x); print(x); return 0; }\n",
        ],
        turns: 1000000,
        want: "6 done",
    },
    Row {
        units: &[
            "int t[10]; int n;\nvoid push(int v) { t[n] = v; n++; }\nint main(void) { for (int i = 0; i < 10; i++) push(i * i); int s = 0; while (n > 0) { n--; s = s * 3 + t[n]; } print(s); return 0; }\n",
        ],
        turns: 1000000,
        want: "2155287 done",
    },
];

#[test]
fn memory(rt: HostRuntime) -> Result<(), Fail> {
    compare(&rt, rt.alloc(), &MEMORY)
}
