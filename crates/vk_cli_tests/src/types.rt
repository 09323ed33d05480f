// Types at the ends of their ranges, and conversions.

use crate::rows::{Row, other};
use std::test::Fail;

pub static TYPES: [Row; 8] = [
    (
        "#pragma omp declare simd notinbranch\nunsigned char f(unsigned char a, int b) { return a + b; }\n",
        "lanes --isa b f.c _ZGVbN16vv_f 255 0,1,2,3,4,5,6,7,8,9,-1,-2,-3,2147483647,-2147483648,256",
        "lane 0: 255\nlane 1: 0\nlane 2: 1\nlane 3: 2\nlane 4: 3\nlane 5: 4\nlane 6: 5\nlane 7: 6\nlane 8: 7\nlane 9: 8\nlane 10: 254\nlane 11: 253\nlane 12: 252\nlane 13: 254\nlane 14: 255\nlane 15: 255\n",
        "",
        0,
    ),
    (
        "#pragma omp declare simd notinbranch\nunsigned long f(unsigned long a, long b) { return a > b ? a : b; }\n",
        "lanes --isa b f.c _ZGVbN2vv_f -- 18446744073709551615,1 -1,-1",
        "lane 0: 18446744073709551615\nlane 1: 18446744073709551615\n",
        "",
        0,
    ),
    (
        "#pragma omp declare simd notinbranch\nunsigned long f(unsigned long a, long b) { return a > b ? a : b; }\n",
        "lanes --isa n f.c _ZGVnN2vv_f -- 0,9223372036854775808 -9223372036854775808,5",
        "lane 0: 9223372036854775808\nlane 1: 9223372036854775808\n",
        "",
        0,
    ),
    (
        "#pragma omp declare simd notinbranch\nshort f(short a, short b) { return a << 3 ^ b >> 1; }\n",
        "lanes --isa b f.c _ZGVbN8vv_f -- 32767,-32768,1,-1,2,-2,3,-3 -1,1,-2,2,-3,3,32767,-32768",
        "lane 0: 7\nlane 1: 0\nlane 2: -9\nlane 3: -7\nlane 4: -18\nlane 5: -15\nlane 6: 16359\nlane 7: 16360\n",
        "",
        0,
    ),
    (
        "#pragma omp declare simd notinbranch\nshort f(short a, short b) { return a << 3 ^ b >> 1; }\n",
        "lanes --isa n f.c _ZGVnN4vv_f 32767,-32768,1,-1 5",
        "lane 0: -6\nlane 1: 2\nlane 2: 10\nlane 3: -6\n",
        "",
        0,
    ),
    (
        "#pragma omp declare simd notinbranch\nint f(unsigned a, int b) { return a < b; }\n",
        "lanes --isa b f.c _ZGVbN4vv_f -- 1,2,3,4294967295 -1,1,4,-1",
        "lane 0: 1\nlane 1: 0\nlane 2: 1\nlane 3: 0\n",
        "",
        0,
    ),
    (
        "#pragma omp declare simd notinbranch\nsigned char f(long a) { return ~a; }\n",
        "lanes --isa b f.c _ZGVbN16v_f 0,1,2,3,4,5,6,7,127,128,-1,-128,-129,255,256,9223372036854775807",
        "lane 0: -1\nlane 1: -2\nlane 2: -3\nlane 3: -4\nlane 4: -5\nlane 5: -6\nlane 6: -7\nlane 7: -8\nlane 8: -128\nlane 9: 127\nlane 10: 0\nlane 11: 127\nlane 12: -128\nlane 13: 0\nlane 14: -1\nlane 15: 0\n",
        "",
        0,
    ),
    (
        "#pragma omp declare simd notinbranch\nint f(int a) { return !a + -a; }\n",
        "lanes --isa b f.c _ZGVbN4v_f 0,1,-1,-2147483648",
        "lane 0: 1\nlane 1: -1\nlane 2: 1\nlane 3: -2147483648\n",
        "",
        0,
    ),
];

#[test]
fn types_are_as_stated(rt: HostRuntime) -> Result<(), Fail> {
    assert_eq!(rt; other(rt.alloc(), &TYPES)?, "none");
    Ok(())
}
