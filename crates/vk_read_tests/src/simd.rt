// Simd loops, which are read as plain ones.

use crate::reads::{Row, compare};
use std::test::Fail;

static SIMD: [Row; 4] = [
    Row {
        units: &[
            "int a[8];\nint main(void) {\n    #pragma omp simd\n    for (int i = 0; i < 8; i++) { a[i] = i * i; }\n    int s = 0; for (int i = 0; i < 8; i++) s += a[i];\n    print(s);\n    return 0;\n}\n",
        ],
        turns: 1000000,
        want: "140 done",
    },
    Row {
        units: &[
            "int a[4], b[4] = {4, 3, 2, 1};\nvoid f(int *p, const int *q, int n) {\n    #pragma omp simd simdlen(4)\n    for (int i = 0; i < n; i++) p[i] = q[i] * 2;\n}\nint main(void) { f(a, b, 4); f(b, b, 4); for (int i = 0; i < 4; i++) print(a[i] * 100 + b[i]); return 0; }\n",
        ],
        turns: 1000000,
        want: "808 606 404 202 done",
    },
    Row {
        units: &[
            "int a[4];\nint main(void) {\n    int z = 0;\n    #pragma omp simd\n    for (int i = 0; i < 4; i++) { a[i] = i; print(a[i]); a[i] = 6 / (i - 2 - z); }\n    return 0;\n}\n",
        ],
        turns: 1000000,
        want: "0 1 2 divide",
    },
    Row {
        units: &[
            "int a[4];\nint main(void) {\n    if (1) {\n        #pragma omp simd\n        for (int i = 0; i < 3; i++) a[i] = i + 1;\n    }\n    print(a[2]);\n    return 0;\n}\n",
        ],
        turns: 1000000,
        want: "3 done",
    },
];

#[test]
fn simd(rt: HostRuntime) -> Result<(), Fail> {
    compare(&rt, rt.alloc(), &SIMD)
}
