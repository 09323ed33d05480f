// Two directives, and units that are not run yet.

use crate::rows::{Row, other};
use std::test::Fail;

pub static OTHERS: [Row; 12] = [
    (
        "#pragma omp declare simd notinbranch\n#pragma omp declare simd inbranch uniform(b)\nint f(int a, int b) { return a - b; }\n",
        "lanes --isa b f.c _ZGVbN4vv_f 1,2,3,4 4,3,2,1",
        "lane 0: -3\nlane 1: -1\nlane 2: 1\nlane 3: 3\n",
        "",
        0,
    ),
    (
        "#pragma omp declare simd notinbranch\n#pragma omp declare simd inbranch uniform(b)\nint f(int a, int b) { return a - b; }\n",
        "lanes --isa b --mask 1010 f.c _ZGVbM4vu_f 1,2,3,4 4",
        "lane 0: -3\nlane 1: off\nlane 2: -1\nlane 3: off\n",
        "",
        0,
    ),
    (
        "#pragma omp declare simd notinbranch\n#pragma omp declare simd inbranch uniform(b)\nint f(int a, int b) { return a - b; }\n",
        "lanes --isa b f.c _ZGVbM4vv_f 1 1",
        "",
        "vfabi: call: A1 0 0\n",
        1,
    ),
    (
        "#pragma omp declare simd notinbranch\n#pragma omp declare simd inbranch uniform(b)\nint f(int a, int b) { return a - b; }\n",
        "lanes --isa b f.c _ZGVbN4vu_f 1 1",
        "",
        "vfabi: call: A1 0 0\n",
        1,
    ),
    (
        "#pragma omp declare simd notinbranch\n#pragma omp declare simd inbranch uniform(b)\nint f(int a, int b) { return a - b; }\n",
        "lanes --isa b --mask 1001 f.c _ZGVbM4vu_f 1 1,2,3,4",
        "",
        "vfabi: call: A2 1 3\n",
        1,
    ),
    (
        "#pragma omp declare simd notinbranch\nint f(int a) { int b = a; return b; }\n",
        "lanes --isa b f.c _ZGVbN4v_f 1",
        "",
        "vfabi: f.c: X1\n",
        1,
    ),
    (
        "#pragma omp declare simd notinbranch\nint f(int *a) { return *a; }\n",
        "lanes --isa b f.c _ZGVbN4v_f 1",
        "",
        "vfabi: f.c: X1\n",
        1,
    ),
    (
        "#pragma omp declare simd notinbranch\nint f(int a) { if (a) return 1; return 2; }\n",
        "lanes --isa b f.c _ZGVbN4v_f 1",
        "",
        "vfabi: f.c: X1\n",
        1,
    ),
    (
        "#pragma omp declare simd notinbranch\nvoid f(int a) { }\n",
        "lanes --isa b f.c _ZGVbN4v_f 1",
        "",
        "vfabi: f.c: X1\n",
        1,
    ),
    (
        "int x;\n#pragma omp declare simd notinbranch\nint f(int a) { return a; }\n",
        "lanes --isa b f.c _ZGVbN4v_f 1",
        "",
        "vfabi: f.c: X1\n",
        1,
    ),
    (
        "int f(int a) { return a; }\n",
        "lanes --isa b f.c _ZGVbN4v_f 1",
        "",
        "vfabi: f.c: X1\n",
        1,
    ),
    (
        "#pragma omp declare simd notinbranch\nint f(int a);\n",
        "lanes --isa b f.c _ZGVbN4v_f 1",
        "",
        "vfabi: f.c: X1\n",
        1,
    ),
];

#[test]
fn others_are_as_stated(rt: HostRuntime) -> Result<(), Fail> {
    assert_eq!(rt; other(rt.alloc(), &OTHERS)?, "none");
    Ok(())
}
