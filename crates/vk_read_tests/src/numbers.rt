// Numbers and operators.

use crate::reads::{Row, compare};
use std::test::Fail;

static NUMBERS: [Row; 8] = [
    Row {
        units: &[
            "int main(void) { print(7 / 2); print(-7 / 2); print(7 % -3); print(-7 % 3); print(7u / 2 - 4); return 0; }\n",
        ],
        turns: 1000000,
        want: "3 -3 1 -1 4294967295 done",
    },
    Row {
        units: &[
            "int main(void) { print(2147483647 + 1); print(-2147483647 - 2); print(65536 * 65536); print(4294967295u + 1u); return 0; }\n",
        ],
        turns: 1000000,
        want: "-2147483648 2147483647 0 0 done",
    },
    Row {
        units: &[
            "int main(void) { print(1 << 31); print(1u << 31); print(-8 >> 1); print(0xffffffffffffffff); print(~0u); print(-1 < 1u); return 0; }\n",
        ],
        turns: 1000000,
        want: "-2147483648 2147483648 -4 -1 4294967295 0 done",
    },
    Row {
        units: &[
            "int main(void) { print((signed char)200); print((unsigned char)-1); print((short)70000); print((unsigned)-1); print((long)-1 + 1u);  return 0; }\n",
        ],
        turns: 1000000,
        want: "-56 255 4464 4294967295 0 done",
    },
    Row {
        units: &[
            "int main(void) { int x = 1; print(x << 33); print(x << -1); int y = -2147483647 - 1; print(y / -1); print(y % -1); return 0; }\n",
        ],
        turns: 1000000,
        want: "2 -2147483648 -2147483648 0 done",
    },
    Row {
        units: &[
            "int main(void) { long m = -9223372036854775807 - 1; print(m); print(m - 1); print(m / -1); print(!m); print(!!m); print(+m); return 0; }\n",
        ],
        turns: 1000000,
        want: "-9223372036854775808 9223372036854775807 -9223372036854775808 0 1 -9223372036854775808 done",
    },
    Row {
        units: &[
            "int main(void) { uint8_t a = 200, b = 100; print(a + b); uint8_t c = a + b; print(c); uint64_t u = 0; u--; print(u); print(u > 0); int64_t v = u; print(v); return 0; }\n",
        ],
        turns: 1000000,
        want: "300 44 -1 1 -1 done",
    },
    Row {
        units: &[
            "int main(void) { print(1 ? -1 : 1u); print(0 ? 2 : (signed char)-3); print(3 > 2 > 1); print(1 == 1 != 0); print(5 & 6 | 1 ^ 8); return 0; }\n",
        ],
        turns: 1000000,
        want: "4294967295 -3 0 1 13 done",
    },
];

#[test]
fn numbers(rt: HostRuntime) -> Result<(), Fail> {
    compare(&rt, rt.alloc(), &NUMBERS)
}
