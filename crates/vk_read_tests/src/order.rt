// The order of evaluation.

use crate::reads::{Row, compare};
use std::test::Fail;

static ORDER: [Row; 8] = [
    Row {
        units: &[
            "int g;\nint f(int a) { g = g * 10 + a; print(g); return a; }\nint main(void) { print(f(1) + f(2) * f(3)); print(f(4) - f(5)); return 0; }\n",
        ],
        turns: 1000000,
        want: "1 12 123 7 1234 12345 -1 done",
    },
    Row {
        units: &[
            "int t[8];\nint f(int a) { print(a); return a; }\nint main(void) { t[f(1)] = f(2); print(t[1]); t[f(3)] += f(4); print(t[3]); t[f(2) - 1] *= f(5); print(t[1]); return 0; }\n",
        ],
        turns: 1000000,
        want: "1 2 2 3 4 4 2 5 10 done",
    },
    Row {
        units: &[
            "int g = 3;\nint up(void) { g = 10; return 1; }\nint main(void) { g += up(); print(g); return 0; }\n",
        ],
        turns: 1000000,
        want: "4 done",
    },
    Row {
        units: &[
            "int x = 3;\nint up(void) { x = 10; return 2; }\nint main(void) { print(x + up()); print(x); int y = 5; y -= up(); print(y); return 0; }\n",
        ],
        turns: 1000000,
        want: "5 10 3 done",
    },
    Row {
        units: &[
            "int f(int a) { print(a); return a; }\nint main(void) { print(f(0) && f(1)); print(f(2) && f(0)); print(f(3) || f(4)); print(f(0) || f(5)); print(f(1) ? f(6) : f(7)); print(f(0) ? f(8) : f(9)); return 0; }\n",
        ],
        turns: 1000000,
        want: "0 0 2 0 0 3 1 0 5 1 1 6 6 0 9 9 done",
    },
    Row {
        units: &[
            "int f(int a) { print(a); return a; }\nint g(int a, int b, int c) { return a * 100 + b * 10 + c; }\nint main(void) { print(g(f(1), f(2), f(3))); print(f(4) < f(5)); print(f(6) == f(6)); return 0; }\n",
        ],
        turns: 1000000,
        want: "1 2 3 123 4 5 1 6 6 1 done",
    },
    Row {
        units: &[
            "int t[4] = {1, 2, 3, 4};\nint f(int a) { print(a); return a; }\nint main(void) { print(t[f(0)] - t[f(1)] * t[f(2)]); return 0; }\n",
        ],
        turns: 1000000,
        want: "0 1 2 -5 done",
    },
    Row {
        units: &[
            "int f(int a) { print(a); return a; }\nint main(void) { for (int i = f(0); f(i) < f(2); i += f(1)) print(100 + i); return 0; }\n",
        ],
        turns: 1000000,
        want: "0 0 2 100 1 1 2 101 1 2 2 done",
    },
];

#[test]
fn order(rt: HostRuntime) -> Result<(), Fail> {
    compare(&rt, rt.alloc(), &ORDER)
}
