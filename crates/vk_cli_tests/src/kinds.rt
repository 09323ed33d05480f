// Uniform and linear arguments.

use crate::rows::{Row, other};
use std::test::Fail;

pub static KINDS: [Row; 21] = [
    (
        "#pragma omp declare simd uniform(b) linear(a) notinbranch\nlong g(int a, long b) { return a + b; }\n",
        "lanes --isa b f.c _ZGVbN2lu_g 4,5 7",
        "lane 0: 11\nlane 1: 12\n",
        "",
        0,
    ),
    (
        "#pragma omp declare simd uniform(b) linear(a) notinbranch\nlong g(int a, long b) { return a + b; }\n",
        "lanes --isa d f.c _ZGVdN4lu_g 4,5,6,7 7",
        "lane 0: 11\nlane 1: 12\nlane 2: 13\nlane 3: 14\n",
        "",
        0,
    ),
    (
        "#pragma omp declare simd uniform(b) linear(a) notinbranch\nlong g(int a, long b) { return a + b; }\n",
        "lanes --isa b f.c _ZGVbN2lu_g 4,6 7",
        "",
        "vfabi: call: A2 0 1\n",
        1,
    ),
    (
        "#pragma omp declare simd uniform(b) linear(a) notinbranch\nlong g(int a, long b) { return a + b; }\n",
        "lanes --isa b f.c _ZGVbN2lu_g 4 7",
        "",
        "vfabi: call: A2 0 1\n",
        1,
    ),
    (
        "#pragma omp declare simd uniform(b) linear(a) notinbranch\nlong g(int a, long b) { return a + b; }\n",
        "lanes --isa b f.c _ZGVbN2lu_g 4,5 7,8",
        "",
        "vfabi: call: A2 1 1\n",
        1,
    ),
    (
        "#pragma omp declare simd uniform(b) linear(a) notinbranch\nlong g(int a, long b) { return a + b; }\n",
        "lanes --isa d f.c _ZGVdN4lu_g 4,5,6,8 7,7,7,8",
        "",
        "vfabi: call: A2 0 3\n",
        1,
    ),
    (
        "#pragma omp declare simd uniform(b) linear(a) notinbranch\nlong g(int a, long b) { return a + b; }\n",
        "lanes --isa b f.c _ZGVbN2lu_g 4,6",
        "",
        "vfabi: call: A4 1 0\n",
        1,
    ),
    (
        "#pragma omp declare simd uniform(b) linear(a) notinbranch\nlong g(int a, long b) { return a + b; }\n",
        "lanes --isa b f.c g 4 7",
        "lane 0: 11\n",
        "",
        0,
    ),
    (
        "#pragma omp declare simd linear(a:3) uniform(b)\nint f(int a, int b) { return a - b; }\n",
        "lanes --isa b --mask 1111 f.c _ZGVbM4l3u_f 1,4,7,10 2",
        "lane 0: -1\nlane 1: 2\nlane 2: 5\nlane 3: 8\n",
        "",
        0,
    ),
    (
        "#pragma omp declare simd linear(a:3) uniform(b)\nint f(int a, int b) { return a - b; }\n",
        "lanes --isa b --mask 0101 f.c _ZGVbM4l3u_f 99,4,99,10 9,2,8,2",
        "lane 0: off\nlane 1: 2\nlane 2: off\nlane 3: 8\n",
        "",
        0,
    ),
    (
        "#pragma omp declare simd linear(a:3) uniform(b)\nint f(int a, int b) { return a - b; }\n",
        "lanes --isa b f.c _ZGVbN4l3u_f 2147483640,2147483643,2147483646,-2147483647 1",
        "lane 0: 2147483639\nlane 1: 2147483642\nlane 2: 2147483645\nlane 3: -2147483648\n",
        "",
        0,
    ),
    (
        "#pragma omp declare simd linear(a:3) uniform(b)\nint f(int a, int b) { return a - b; }\n",
        "lanes --isa b --mask 0101 f.c _ZGVbM4l3u_f 99,4,99,9 9,2,8,2",
        "",
        "vfabi: call: A2 0 3\n",
        1,
    ),
    (
        "#pragma omp declare simd linear(a:3) uniform(b)\nint f(int a, int b) { return a - b; }\n",
        "lanes --isa b --mask 0101 f.c _ZGVbM4l3u_f 99,4,99,10 9,2,8,3",
        "",
        "vfabi: call: A2 1 3\n",
        1,
    ),
    (
        "#pragma omp declare simd linear(a:3) uniform(b)\nint f(int a, int b) { return a - b; }\n",
        "lanes --isa b --mask 0111 f.c _ZGVbM4l3u_f 99,4,9,9 9,2,8,3",
        "",
        "vfabi: call: A2 0 2\n",
        1,
    ),
    (
        "#pragma omp declare simd linear(a:s) uniform(s) notinbranch\nint f(int a, int s) { return a * s; }\n",
        "lanes --isa b f.c _ZGVbN4ls1u_f 1,6,11,16 5",
        "lane 0: 5\nlane 1: 30\nlane 2: 55\nlane 3: 80\n",
        "",
        0,
    ),
    (
        "#pragma omp declare simd linear(a:s) uniform(s) notinbranch\nint f(int a, int s) { return a * s; }\n",
        "lanes --isa b f.c _ZGVbN4ls1u_f -- 1,-4,-9,-14 -5",
        "lane 0: -5\nlane 1: 20\nlane 2: 45\nlane 3: 70\n",
        "",
        0,
    ),
    (
        "#pragma omp declare simd linear(a:s) uniform(s) notinbranch\nint f(int a, int s) { return a * s; }\n",
        "lanes --isa b f.c _ZGVbN4ls1u_f 1,6,11,17 5",
        "",
        "vfabi: call: A2 0 3\n",
        1,
    ),
    (
        "#pragma omp declare simd linear(a:s) uniform(s) notinbranch\nint f(int a, int s) { return a * s; }\n",
        "lanes --isa b f.c _ZGVbN4ls1u_f 1,6,11,16 5,5,5,6",
        "",
        "vfabi: call: A2 1 3\n",
        1,
    ),
    (
        "#pragma omp declare simd simdlen(2) linear(a:-2) notinbranch\nunsigned char f(unsigned char a) { return a; }\n",
        "lanes --isa b f.c _ZGVbN2ln2_f 1,255",
        "lane 0: 1\nlane 1: 255\n",
        "",
        0,
    ),
    (
        "#pragma omp declare simd simdlen(2) linear(a:-2) notinbranch\nunsigned char f(unsigned char a) { return a; }\n",
        "lanes --isa b f.c _ZGVbN2ln2_f 1,0",
        "",
        "vfabi: call: A2 0 1\n",
        1,
    ),
    (
        "#pragma omp declare simd simdlen(2) linear(a:-2) notinbranch\nunsigned char f(unsigned char a) { return a; }\n",
        "lanes --isa b f.c _ZGVbN16ln2_f 1",
        "",
        "vfabi: call: A1 0 0\n",
        1,
    ),
];

#[test]
fn kinds_are_as_stated(rt: HostRuntime) -> Result<(), Fail> {
    assert_eq!(rt; other(rt.alloc(), &KINDS)?, "none");
    Ok(())
}
