// One unit on each letter, and names of variants that the letter has not.

use crate::rows::{Row, other};
use std::test::Fail;

pub static LETTERS: [Row; 24] = [
    (
        "#pragma omp declare simd notinbranch\nint f(int a, int b) { return a * b + 1; }\n",
        "lanes --isa b f.c _ZGVbN4vv_f 1,2,3,2147483647 1,2,3,2",
        "lane 0: 2\nlane 1: 5\nlane 2: 10\nlane 3: -1\n",
        "",
        0,
    ),
    (
        "#pragma omp declare simd notinbranch\nint f(int a, int b) { return a * b + 1; }\n",
        "lanes --isa c f.c _ZGVcN4vv_f 1,2,3,2147483647 1,2,3,2",
        "lane 0: 2\nlane 1: 5\nlane 2: 10\nlane 3: -1\n",
        "",
        0,
    ),
    (
        "#pragma omp declare simd notinbranch\nint f(int a, int b) { return a * b + 1; }\n",
        "lanes --isa c f.c _ZGVbN4vv_f -- 5 -1,0,1,2",
        "lane 0: -4\nlane 1: 1\nlane 2: 6\nlane 3: 11\n",
        "",
        0,
    ),
    (
        "#pragma omp declare simd notinbranch\nint f(int a, int b) { return a * b + 1; }\n",
        "lanes --isa d f.c _ZGVdN8vv_f 1,2,3,4,5,6,7,2147483647 2",
        "lane 0: 3\nlane 1: 5\nlane 2: 7\nlane 3: 9\nlane 4: 11\nlane 5: 13\nlane 6: 15\nlane 7: -1\n",
        "",
        0,
    ),
    (
        "#pragma omp declare simd notinbranch\nint f(int a, int b) { return a * b + 1; }\n",
        "lanes --isa e f.c _ZGVeN16vv_f 3 0,1,2,3,4,5,6,7,8,9,10,11,12,13,14,15",
        "lane 0: 1\nlane 1: 4\nlane 2: 7\nlane 3: 10\nlane 4: 13\nlane 5: 16\nlane 6: 19\nlane 7: 22\nlane 8: 25\nlane 9: 28\nlane 10: 31\nlane 11: 34\nlane 12: 37\nlane 13: 40\nlane 14: 43\nlane 15: 46\n",
        "",
        0,
    ),
    (
        "#pragma omp declare simd notinbranch\nint f(int a, int b) { return a * b + 1; }\n",
        "lanes --isa e f.c _ZGVdN8vv_f -- -2147483648 -1,0,1,2,3,4,5,6",
        "lane 0: -2147483647\nlane 1: 1\nlane 2: -2147483647\nlane 3: 1\nlane 4: -2147483647\nlane 5: 1\nlane 6: -2147483647\nlane 7: 1\n",
        "",
        0,
    ),
    (
        "#pragma omp declare simd notinbranch\nint f(int a, int b) { return a * b + 1; }\n",
        "lanes --isa n f.c _ZGVnN2vv_f 7,8 9",
        "lane 0: 64\nlane 1: 73\n",
        "",
        0,
    ),
    (
        "#pragma omp declare simd notinbranch\nint f(int a, int b) { return a * b + 1; }\n",
        "lanes --isa n f.c _ZGVnN4vv_f -- 7,8,9,10 -9",
        "lane 0: -62\nlane 1: -71\nlane 2: -80\nlane 3: -89\n",
        "",
        0,
    ),
    (
        "#pragma omp declare simd notinbranch\nint f(int a, int b) { return a * b + 1; }\n",
        "lanes --isa b f.c f 6 7",
        "lane 0: 43\n",
        "",
        0,
    ),
    (
        "#pragma omp declare simd notinbranch\nint f(int a, int b) { return a * b + 1; }\n",
        "lanes --isa c f.c f 6 7",
        "lane 0: 43\n",
        "",
        0,
    ),
    (
        "#pragma omp declare simd notinbranch\nint f(int a, int b) { return a * b + 1; }\n",
        "lanes --isa d f.c f 6 7",
        "lane 0: 43\n",
        "",
        0,
    ),
    (
        "#pragma omp declare simd notinbranch\nint f(int a, int b) { return a * b + 1; }\n",
        "lanes --isa e f.c f 6 7",
        "lane 0: 43\n",
        "",
        0,
    ),
    (
        "#pragma omp declare simd notinbranch\nint f(int a, int b) { return a * b + 1; }\n",
        "lanes --isa n f.c f 6 7",
        "lane 0: 43\n",
        "",
        0,
    ),
    (
        "#pragma omp declare simd notinbranch\nint f(int a, int b) { return a * b + 1; }\n",
        "lanes --isa=d --turns 1 f.c _ZGVcN4vv_f 1 2",
        "lane 0: 3\nlane 1: 3\nlane 2: 3\nlane 3: 3\n",
        "",
        0,
    ),
    (
        "#pragma omp declare simd notinbranch\nint f(int a, int b) { return a * b + 1; }\n",
        "lanes --isa b f.c _ZGVcN4vv_f 1 1",
        "",
        "vfabi: call: A1 0 0\n",
        1,
    ),
    (
        "#pragma omp declare simd notinbranch\nint f(int a, int b) { return a * b + 1; }\n",
        "lanes --isa c f.c _ZGVdN8vv_f 1 1",
        "",
        "vfabi: call: A1 0 0\n",
        1,
    ),
    (
        "#pragma omp declare simd notinbranch\nint f(int a, int b) { return a * b + 1; }\n",
        "lanes --isa n f.c _ZGVbN4vv_f 1 1",
        "",
        "vfabi: call: A1 0 0\n",
        1,
    ),
    (
        "#pragma omp declare simd notinbranch\nint f(int a, int b) { return a * b + 1; }\n",
        "lanes --isa b f.c _ZGVnN4vv_f 1 1",
        "",
        "vfabi: call: A1 0 0\n",
        1,
    ),
    (
        "#pragma omp declare simd notinbranch\nint f(int a, int b) { return a * b + 1; }\n",
        "lanes --isa d f.c g 1 1",
        "",
        "vfabi: call: A1 0 0\n",
        1,
    ),
    (
        "#pragma omp declare simd notinbranch\nint f(int a, int b) { return a * b + 1; }\n",
        "lanes --isa d f.c _ZGVdN4vv_f 1 1",
        "",
        "vfabi: call: A1 0 0\n",
        1,
    ),
    (
        "#pragma omp declare simd notinbranch\nint f(int a, int b) { return a * b + 1; }\n",
        "lanes --isa d f.c _ZGVdM8vv_f 1 1",
        "",
        "vfabi: call: A1 0 0\n",
        1,
    ),
    (
        "#pragma omp declare simd notinbranch\nint f(int a, int b) { return a * b + 1; }\n",
        "lanes --isa d f.c _ZGVdN8vv_f. 1 1",
        "",
        "vfabi: call: A1 0 0\n",
        1,
    ),
    (
        "#pragma omp declare simd notinbranch\nint f(int a, int b) { return a * b + 1; }\n",
        "lanes --isa b f.c _ZGVbN8vv_f 1,2,3,2147483647 1,2,3,2",
        "",
        "vfabi: call: A1 0 0\n",
        1,
    ),
    (
        "#pragma omp declare simd notinbranch\nint f(int a, int b) { return a * b + 1; }\n",
        "lanes --isa b f.c _ZGVbN4vv_f 1,2,3 1,2,3,2",
        "",
        "vfabi: call: A4 0 3\n",
        1,
    ),
];

#[test]
fn letters_are_as_stated(rt: HostRuntime) -> Result<(), Fail> {
    assert_eq!(rt; other(rt.alloc(), &LETTERS)?, "none");
    Ok(())
}
