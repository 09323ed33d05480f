// Programs of several units.

use crate::reads::{Row, compare};
use std::test::Fail;

static UNITS: [Row; 4] = [
    Row {
        units: &[
            "extern int n; int next(void); int main(void) { print(next()); print(next()); print(n); return 0; }\n",
            "int n = 40; int next(void) { n++; return n; }\n",
        ],
        turns: 1000000,
        want: "41 42 42 done",
    },
    Row {
        units: &[
            "extern const int table[3]; int at(const int *p, int i); int main(void) { print(at(table, 2)); print(at(table + 1, 0)); return 0; }\n",
            "const int table[3] = {5, 6, 7}; int at(const int *p, int i) { return p[i]; }\n",
        ],
        turns: 1000000,
        want: "7 6 done",
    },
    Row {
        units: &[
            "int b(int x); int main(void) { print(b(3)); return 0; }\n",
            "int c(int x); int b(int x) { return c(x) * 2; }\n",
            "int c(int x) { return x + 1; }\n",
        ],
        turns: 1000000,
        want: "8 done",
    },
    Row {
        units: &[
            "int zz = 1, aa = 2; extern int mm; int main(void) { print(zz); print(aa); print(mm); return 0; }\n",
            "int mm = 3;\n",
        ],
        turns: 1000000,
        want: "1 2 3 done",
    },
];

#[test]
fn units(rt: HostRuntime) -> Result<(), Fail> {
    compare(&rt, rt.alloc(), &UNITS)
}
