// Directives that no function follows: D12.

use crate::verdict::compare;
use std::test::Fail;
use vk_kinds::Target;

// Directives at file scope, before objects and at the unit's end.
static LOST: [(&str, &str); 18] = [
    ("#pragma omp declare simd\nint x;", "1 1 D12"),
    ("#pragma omp declare simd\nextern int x;", "1 1 D12"),
    ("#pragma omp declare simd\nint a[2];", "1 1 D12"),
    ("#pragma omp declare simd", "1 1 D12"),
    ("\n\n#pragma omp declare simd\n", "3 1 D12"),
    (
        "#pragma omp declare simd\nint f(int a);\n#pragma omp declare simd\n",
        "3 2 D12",
    ),
    (
        "#pragma omp declare simd\n#pragma omp declare simd\nint x;",
        "1 1 D12",
    ),
    ("#pragma omp declare simd fast\nint x;", "1 1 D12"),
    (
        "#pragma omp declare simd simdlen(3) uniform(z)\n",
        "1 1 D12",
    ),
    ("#pragma omp declare simd\nint x = y;", "1 1 D12"),
    ("int x = y;\n#pragma omp declare simd\nint z;", "1 0 C8"),
    ("int x;\n#pragma omp declare simd\nint x;", "2 1 D12"),
    ("#pragma omp declare simd\nint f(int a);\nint x;", "ok"),
    (
        "#pragma omp declare simd\nint f(int a) {\n#pragma omp declare simd\nreturn a; }\n#pragma omp declare simd\n",
        "3 2 D12",
    ),
    (
        "#pragma omp declare simd fast\nint f(int a);\n#pragma omp declare simd\n",
        "1 1 D1",
    ),
    (
        "#pragma omp declare simd\nint f(int a, int a);\n#pragma omp declare simd\n",
        "2 0 C8",
    ),
    (
        "void g(int n) {\n#pragma omp simd\nfor (int i = 0; i < n; i++) ; }\n#pragma omp declare simd\nint x;",
        "4 2 D12",
    ),
    ("#pragma omp declare simd \\\n  inbranch\nint x;", "1 1 D12"),
];

#[test]
fn directives_without_a_function(rt: HostRuntime) -> Result<(), Fail> {
    compare(&rt, rt.alloc(), Target::X86, &LOST)
}
