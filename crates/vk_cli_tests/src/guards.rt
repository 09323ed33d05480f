// Divisions that an operand guards.

use crate::rows::{Row, other};
use std::test::Fail;

pub static GUARDS: [Row; 8] = [
    (
        "#pragma omp declare simd\nint f(int a, int b) { return b ? a / b : -1; }\n",
        "lanes --isa b f.c _ZGVbN4vv_f 9,8,7,6 0,1,2,0",
        "lane 0: -1\nlane 1: 8\nlane 2: 3\nlane 3: -1\n",
        "",
        0,
    ),
    (
        "#pragma omp declare simd\nint f(int a, int b) { return b ? a / b : -1; }\n",
        "lanes --isa d --mask 11110000 f.c _ZGVdM8vv_f 9 0,1,2,3,0,5,6,0",
        "lane 0: -1\nlane 1: 9\nlane 2: 4\nlane 3: 3\nlane 4: off\nlane 5: off\nlane 6: off\nlane 7: off\n",
        "",
        0,
    ),
    (
        "#pragma omp declare simd\nint f(int a, int b) { return b && a / b > 1; }\n",
        "lanes --isa b f.c _ZGVbN4vv_f 9 0,4,5,9",
        "lane 0: 0\nlane 1: 1\nlane 2: 0\nlane 3: 0\n",
        "",
        0,
    ),
    (
        "#pragma omp declare simd\nint f(int a, int b) { return b && a / b > 1; }\n",
        "lanes --isa n --mask 1001 f.c _ZGVnM4vv_f 9 0,4,5,0",
        "lane 0: 0\nlane 1: off\nlane 2: off\nlane 3: 0\n",
        "",
        0,
    ),
    (
        "#pragma omp declare simd\nint f(int a, int b) { return b == 0 || a % b; }\n",
        "lanes --isa b f.c _ZGVbN4vv_f 9 0,3,4,10",
        "lane 0: 1\nlane 1: 0\nlane 2: 1\nlane 3: 1\n",
        "",
        0,
    ),
    (
        "#pragma omp declare simd\nint f(int a, int b) { return a && b || a / b; }\n",
        "lanes --isa b --mask 1111 f.c _ZGVbM4vv_f 0,1,2,3 5,0,6,0",
        "lane 0: 0\nlane 1: stop divide\nlane 2: 1\nlane 3: stop divide\n",
        "",
        0,
    ),
    (
        "#pragma omp declare simd\nlong f(int a, unsigned char b) { return a ? b ? a % b : a / b : b; }\n",
        "lanes --isa b --mask 11 f.c _ZGVbM2vv_f 0,5 255,0",
        "lane 0: 255\nlane 1: stop divide\n",
        "",
        0,
    ),
    (
        "#pragma omp declare simd\nlong f(int a, unsigned char b) { return a ? b ? a % b : a / b : b; }\n",
        "lanes --isa e f.c _ZGVeN8vv_f 0,1,2,3,4,5,6,7 3,0,1,2,3,4,0,6",
        "lane 0: 3\nlane 1: stop divide\nlane 2: 0\nlane 3: 1\nlane 4: 1\nlane 5: 1\nlane 6: stop divide\nlane 7: 1\n",
        "",
        0,
    ),
];

#[test]
fn guards_are_as_stated(rt: HostRuntime) -> Result<(), Fail> {
    assert_eq!(rt; other(rt.alloc(), &GUARDS)?, "none");
    Ok(())
}
