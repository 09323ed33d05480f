// Of several faults the first is told, by place, then by letter and number.

use crate::verdict::{compare, compare_clauses};
use std::test::Fail;
use vk_kinds::Target;

// Faults of one directive.
static CLAUSES: [(&str, &str); 20] = [
    ("uniform(z) fast", "1 1 D2"),
    ("fast uniform(z)", "1 1 D1"),
    ("linear(n: 0) simdlen(3)", "1 1 D6"),
    ("simdlen(3) linear(n: 0)", "1 1 D9"),
    ("aligned(p: 3) aligned(x)", "1 1 D10"),
    ("aligned(x) aligned(p: 3)", "1 1 D8"),
    ("uniform(x, x) inbranch inbranch", "1 1 D3"),
    ("inbranch uniform(q) inbranch", "1 1 D14"),
    ("linear(z: 0)", "1 1 D6"),
    ("linear(z: ref)", "1 1 D11"),
    ("aligned(z: 3)", "1 1 D10"),
    ("uniform(x, z, x)", "1 1 D2"),
    ("uniform(x, x, z)", "1 1 D3"),
    ("linear(ref(n)) fast", "1 1 D11"),
    ("linear(foo(n)) linear(ref(n))", "1 1 D7"),
    ("simdlen(4), simdlen(4), fast", "1 1 D4"),
    ("simdlen(1), aligned(p, p)", "1 1 D9"),
    ("aligned(p, p), simdlen(1)", "1 1 D13"),
    ("linear(n, n: ref)", "1 1 D11"),
    ("linear(q, q: 0), uniform(q)", "1 1 D6"),
];

#[test]
fn faults_of_one_directive(rt: HostRuntime) -> Result<(), Fail> {
    compare_clauses(&rt, rt.alloc(), &CLAUSES)
}

// Faults of several items.
static ITEMS: [(&str, &str); 26] = [
    (
        "int x = y;\n#pragma omp declare simd fast\nint f(int a);",
        "1 0 C8",
    ),
    (
        "#pragma omp declare simd fast\nint f(int a);\nint x = y;",
        "1 1 D1",
    ),
    (
        "#pragma omp declare simd\nint f(int a) { return b; }\n#pragma omp declare simd fast\nint g(int a);",
        "2 0 C8",
    ),
    (
        "#pragma omp declare simd fast\nint f(int a) { return b; }\nint x;\nint x;",
        "1 1 D1",
    ),
    (
        "#pragma omp declare simd\nint f(int a, int a);\nint f;",
        "2 0 C8",
    ),
    (
        "int x;\n#pragma omp declare simd simdlen(3)\nint x(int a);",
        "2 1 D9",
    ),
    (
        "int x;\n#pragma omp declare simd\nint x(int a, int a);",
        "3 0 C13",
    ),
    ("int a[0];\n#pragma omp declare simd\nint x;", "1 0 C12"),
    ("#pragma omp declare simd\nint x;\nint a[0];", "1 1 D12"),
    (
        "#pragma omp declare simd \\\nuniform(a) \\\nuniform(z)\nint f(int a);",
        "1 1 D2",
    ),
    (
        "int g(int a);\n\n#pragma omp declare simd \\\nfast\nint f(int a);",
        "3 1 D1",
    ),
    (
        "#pragma omp declare simd uniform(a)\n#pragma omp declare simd uniform(z)\nint f(int a);",
        "2 2 D2",
    ),
    (
        "#pragma omp declare simd fast\n#pragma omp declare simd uniform(z)\nint f(int a);",
        "1 1 D1",
    ),
    (
        "int x;\n#pragma omp declare simd\nint f(int a) { return x; }\nint y = x;",
        "3 1 D15",
    ),
    (
        "int x;\n#pragma omp declare simd\nint f(int a) { return a; }\nint y = x;",
        "4 0 C11",
    ),
    (
        "#pragma omp declare simd\nint f(int *p) { return p[1]; }\n#pragma omp declare simd uniform(p)\nint g(int *p);",
        "2 1 D16",
    ),
    (
        "#pragma omp declare simd uniform(p)\nint g(int *p);\n#pragma omp declare simd\nint f(int *p) { return p[1]; }",
        "1 1 D14",
    ),
    (
        "int f(void) { break; }\nint f(void) { return 1; }",
        "1 0 C14",
    ),
    (
        "int f(void) { return 1; }\nint f(void) { break; }",
        "2 0 C13",
    ),
    ("int f(void) { return; }\nint a[2] = {1, 2, 3};", "1 0 C15"),
    ("int a[2] = {1, 2, 3}; int f(void) { return; }", "1 0 C11"),
    (
        "const int x = 1; void f(void) { x = 2; }\nint x;",
        "1 0 C10",
    ),
    ("int f(int *p) { return p; }\nint a[];", "1 0 C9"),
    (
        "#pragma omp declare simd simdlen(3)\nint main(int a);",
        "1 1 D9",
    ),
    (
        "#pragma omp declare simd\nint main(int a);\nint x = y;",
        "2 0 C8",
    ),
    (
        "void f(int n) {\n#pragma omp simd\nfor (int i = 0; i < n; i++) ; }\n#pragma omp declare simd fast\nint g(int a);",
        "4 2 D1",
    ),
];

#[test]
fn faults_of_several_items(rt: HostRuntime) -> Result<(), Fail> {
    compare(&rt, rt.alloc(), Target::X86, &ITEMS)
}

// Units that break no rule.
static RIGHT: [(&str, &str); 7] = [
    ("", "ok"),
    ("int x;", "ok"),
    ("#pragma omp declare simd\nint f(int a);", "ok"),
    (
        "#pragma omp declare simd uniform(p) linear(i)\nint get(const int *p, int i) { return p[i]; }\n#pragma omp declare simd linear(p) aligned(p: 4)\nvoid add(int *p, int n) { *p += n; }\nint main(void) { print(1); return 0; }",
        "ok",
    ),
    (
        "#pragma omp declare simd inbranch simdlen(4)\n#pragma omp declare simd notinbranch simdlen(8)\nunsigned char f(unsigned char a, int b) { return a + b; }",
        "ok",
    ),
    (
        "#include <stdint.h>\nconst int32_t gain[] = {1, 2, 3};\n#pragma omp declare simd\nint32_t scale(int32_t v, int32_t k) { return v * gain[k & 1]; }",
        "ok",
    ),
    (
        "#pragma omp declare simd uniform(s) linear(a: s)\nlong f(long a, long s);\n#pragma omp declare simd linear(val(b): t), uniform(t)\nlong f(long b, long t) { return b * t; }",
        "ok",
    ),
];

#[test]
fn right_units(rt: HostRuntime) -> Result<(), Fail> {
    compare(&rt, rt.alloc(), Target::X86, &RIGHT)
}
