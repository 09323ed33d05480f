// Directives of later declarations: D17.

use crate::verdict::compare;
use std::test::Fail;
use vk_kinds::Target;

// Directives are compared by what they say.
static VALUES: [(&str, &str); 28] = [
    (
        "#pragma omp declare simd \nint f(int a, int b);\n#pragma omp declare simd \nint f(int a, int b);",
        "ok",
    ),
    (
        "#pragma omp declare simd \nint f(int a, int b);\nint f(int a, int b);",
        "ok",
    ),
    (
        "int f(int a, int b);\n#pragma omp declare simd \nint f(int a, int b);",
        "2 1 D17",
    ),
    (
        "#pragma omp declare simd \nint f(int a, int b);\n#pragma omp declare simd inbranch\nint f(int a, int b);",
        "3 2 D17",
    ),
    (
        "#pragma omp declare simd inbranch\nint f(int a, int b);\n#pragma omp declare simd notinbranch\nint f(int a, int b);",
        "3 2 D17",
    ),
    (
        "#pragma omp declare simd uniform(a) linear(b)\nint f(int a, int b);\n#pragma omp declare simd linear(b) uniform(a)\nint f(int a, int b);",
        "ok",
    ),
    (
        "#pragma omp declare simd uniform(a, b)\nint f(int a, int b);\n#pragma omp declare simd uniform(b), uniform(a)\nint f(int a, int b);",
        "ok",
    ),
    (
        "#pragma omp declare simd inbranch simdlen(4)\nint f(int a, int b);\n#pragma omp declare simd simdlen(4) inbranch\nint f(int a, int b);",
        "ok",
    ),
    (
        "#pragma omp declare simd simdlen(4)\nint f(int a, int b);\n#pragma omp declare simd simdlen(2 + 2)\nint f(int a, int b);",
        "ok",
    ),
    (
        "#pragma omp declare simd simdlen(4)\nint f(int a, int b);\n#pragma omp declare simd simdlen(8)\nint f(int a, int b);",
        "3 2 D17",
    ),
    (
        "#pragma omp declare simd \nint f(int a, int b);\n#pragma omp declare simd simdlen(4)\nint f(int a, int b);",
        "3 2 D17",
    ),
    (
        "#pragma omp declare simd simdlen(4)\nint f(int a, int b);\n#pragma omp declare simd \nint f(int a, int b);",
        "3 2 D17",
    ),
    (
        "#pragma omp declare simd linear(b)\nint f(int a, int b);\n#pragma omp declare simd linear(b: 1)\nint f(int a, int b);",
        "ok",
    ),
    (
        "#pragma omp declare simd linear(b: 2)\nint f(int a, int b);\n#pragma omp declare simd linear(val(b): step)\nint f(int a, int b);",
        "3 2 D6",
    ),
    (
        "#pragma omp declare simd linear(b: 2)\nint f(int a, int b);\n#pragma omp declare simd linear(val(b): 1 + 1)\nint f(int a, int b);",
        "ok",
    ),
    (
        "#pragma omp declare simd linear(b: 2)\nint f(int a, int b);\n#pragma omp declare simd linear(b: step(2), val)\nint f(int a, int b);",
        "ok",
    ),
    (
        "#pragma omp declare simd linear(b: 2)\nint f(int a, int b);\n#pragma omp declare simd linear(b: 3)\nint f(int a, int b);",
        "3 2 D17",
    ),
    (
        "#pragma omp declare simd linear(b: 2)\nint f(int a, int b);\n#pragma omp declare simd linear(b: -2)\nint f(int a, int b);",
        "3 2 D17",
    ),
    (
        "#pragma omp declare simd linear(b)\nint f(int a, int b);\n#pragma omp declare simd uniform(b)\nint f(int a, int b);",
        "3 2 D17",
    ),
    (
        "#pragma omp declare simd linear(b)\nint f(int a, int b);\n#pragma omp declare simd \nint f(int a, int b);",
        "3 2 D17",
    ),
    (
        "#pragma omp declare simd uniform(a)\nint f(int a, int b);\n#pragma omp declare simd uniform(b)\nint f(int a, int b);",
        "3 2 D17",
    ),
    (
        "#pragma omp declare simd linear(b: a) uniform(a)\nint f(int a, int b);\n#pragma omp declare simd uniform(a) linear(b: a)\nint f(int a, int b);",
        "ok",
    ),
    (
        "#pragma omp declare simd linear(b: a) uniform(a)\nint f(int a, int b);\n#pragma omp declare simd uniform(a) linear(b)\nint f(int a, int b);",
        "3 2 D17",
    ),
    (
        "#pragma omp declare simd aligned(p)\nint f(const int *p);\n#pragma omp declare simd aligned(p: 16)\nint f(const int *p);",
        "ok",
    ),
    (
        "#pragma omp declare simd aligned(p)\nint f(const int *p);\n#pragma omp declare simd aligned(p: 8)\nint f(const int *p);",
        "3 2 D17",
    ),
    (
        "#pragma omp declare simd aligned(p)\nint f(const int *p);\n#pragma omp declare simd \nint f(const int *p);",
        "3 2 D17",
    ),
    (
        "#pragma omp declare simd linear(p: 4)\nint f(const int *p);\n#pragma omp declare simd linear(p: 2 * 2)\nint f(const int *p);",
        "ok",
    ),
    (
        "#pragma omp declare simd aligned(p, q: 8)\nint f(const int *p, int *q);\n#pragma omp declare simd aligned(q: 8) aligned(p: 8)\nint f(const int *p, int *q);",
        "ok",
    ),
];

#[test]
fn directives_by_value(rt: HostRuntime) -> Result<(), Fail> {
    compare(&rt, rt.alloc(), Target::X86, &VALUES)
}

// Lists of directives, in order.
static NUMBERS: [(&str, &str); 9] = [
    (
        "#pragma omp declare simd inbranch\n#pragma omp declare simd notinbranch\nint f(int a, int b);\n#pragma omp declare simd inbranch\n#pragma omp declare simd notinbranch\nint f(int a, int b);",
        "ok",
    ),
    (
        "#pragma omp declare simd inbranch\n#pragma omp declare simd notinbranch\nint f(int a, int b);\n#pragma omp declare simd notinbranch\n#pragma omp declare simd inbranch\nint f(int a, int b);",
        "4 3 D17",
    ),
    (
        "#pragma omp declare simd inbranch\n#pragma omp declare simd notinbranch\nint f(int a, int b);\n#pragma omp declare simd \nint f(int a, int b);",
        "4 3 D17",
    ),
    (
        "#pragma omp declare simd \nint f(int a, int b);\n#pragma omp declare simd inbranch\n#pragma omp declare simd notinbranch\nint f(int a, int b);",
        "3 2 D17",
    ),
    (
        "#pragma omp declare simd inbranch\nint f(int a, int b);\n#pragma omp declare simd inbranch\n#pragma omp declare simd notinbranch\nint f(int a, int b);",
        "3 2 D17",
    ),
    (
        "#pragma omp declare simd inbranch\n#pragma omp declare simd notinbranch\nint f(int a, int b);\n#pragma omp declare simd inbranch\nint f(int a, int b);",
        "4 3 D17",
    ),
    (
        "#pragma omp declare simd inbranch\n#pragma omp declare simd notinbranch\nint f(int a, int b);\nint f(int a, int b);",
        "ok",
    ),
    (
        "#pragma omp declare simd uniform(a)\n#pragma omp declare simd linear(a)\nint f(int a, int b);\n#pragma omp declare simd uniform(a)\n#pragma omp declare simd linear(b)\nint f(int a, int b);",
        "4 3 D17",
    ),
    (
        "#pragma omp declare simd uniform(a)\n#pragma omp declare simd linear(a)\nint f(int a, int b);\n#pragma omp declare simd uniform(b)\n#pragma omp declare simd linear(a)\nint f(int a, int b);",
        "4 3 D17",
    ),
];

#[test]
fn lists_of_directives(rt: HostRuntime) -> Result<(), Fail> {
    compare(&rt, rt.alloc(), Target::X86, &NUMBERS)
}

// Which declarations are compared, and what is told.
static PLACES: [(&str, &str); 24] = [
    (
        "#pragma omp declare simd uniform(a)\nint f(int a);\n#pragma omp declare simd uniform(b)\nint f(int b);",
        "ok",
    ),
    (
        "#pragma omp declare simd uniform(a)\nint f(int a, int b);\n#pragma omp declare simd uniform(a)\nint f(int b, int a);",
        "3 2 D17",
    ),
    (
        "#pragma omp declare simd uniform(a)\nint f(int a, int b);\n#pragma omp declare simd uniform(b)\nint f(int b, int a);",
        "ok",
    ),
    (
        "#pragma omp declare simd\nint f(int a);\n#pragma omp declare simd\nint f(int a) { return a; }",
        "ok",
    ),
    (
        "#pragma omp declare simd\nint f(int a);\nint f(int a) { return a; }",
        "ok",
    ),
    (
        "#pragma omp declare simd\nint f(int a);\n#pragma omp declare simd inbranch\nint f(int a) { return a; }",
        "3 2 D17",
    ),
    (
        "int f(int a);\n#pragma omp declare simd\nint f(int a) { return a; }",
        "2 1 D17",
    ),
    (
        "int f(int a) { return a; }\n#pragma omp declare simd\nint f(int a);",
        "2 1 D17",
    ),
    (
        "#pragma omp declare simd\nint f(int a);\nint f(int a);\n#pragma omp declare simd\nint f(int a);",
        "ok",
    ),
    (
        "int f(int a);\nint f(int a);\n#pragma omp declare simd\nint f(int a);",
        "3 1 D17",
    ),
    (
        "#pragma omp declare simd\nint g(int a);\nint g(int a);\n#pragma omp declare simd\nint f(int a) { return g(a); }",
        "ok",
    ),
    (
        "#pragma omp declare simd\nint f(int a);\n\n#pragma omp declare simd inbranch\n#pragma omp declare simd notinbranch\n\nint f(int a);",
        "4 2 D17",
    ),
    (
        "#pragma omp declare simd\nint f(int a);\n#pragma omp declare simd inbranch\nint f(int a);\n#pragma omp declare simd uniform(a)\nint f(int a);",
        "3 2 D17",
    ),
    (
        "#pragma omp declare simd\nint f(int a);\n#pragma omp declare simd inbranch\nint g(int a);",
        "ok",
    ),
    (
        "#pragma omp declare simd\nint f(int a);\n#pragma omp declare simd inbranch\nint g(int a);\n#pragma omp declare simd\nint g(int a);",
        "5 3 D17",
    ),
    (
        "#pragma omp declare simd\nint f(int a);\n#pragma omp declare simd inbranch\nint f(int b, int c);",
        "4 0 C13",
    ),
    (
        "#pragma omp declare simd\nint f(int a);\n#pragma omp declare simd inbranch simdlen(3)\nint f(int a);",
        "3 2 D9",
    ),
    (
        "#pragma omp declare simd\nint f(int a);\n#pragma omp declare simd inbranch\nint f(int b, int b);",
        "4 0 C13",
    ),
    (
        "#pragma omp declare simd\nint f(int a, int b);\n#pragma omp declare simd inbranch\nint f(int b, int b);",
        "3 2 D17",
    ),
    (
        "#pragma omp declare simd\nint f(int a);\n#pragma omp declare simd inbranch\nint f(int a) { return b; }",
        "3 2 D17",
    ),
    (
        "#pragma omp declare simd\nint f(int a) { return b; }\n#pragma omp declare simd inbranch\nint f(int a);",
        "2 0 C8",
    ),
    ("int f;\n#pragma omp declare simd\nint f(int a);", "3 0 C13"),
    (
        "#pragma omp declare simd\nint f(int a);\nint f;\n#pragma omp declare simd inbranch\nint f(int a);",
        "3 0 C13",
    ),
    (
        "void g(int n) {\n#pragma omp simd\nfor (int i = 0; i < n; i++) ; }\n#pragma omp declare simd\nint f(int a);\n#pragma omp declare simd inbranch\nint f(int a);",
        "6 3 D17",
    ),
];

#[test]
fn declarations_compared(rt: HostRuntime) -> Result<(), Fail> {
    compare(&rt, rt.alloc(), Target::X86, &PLACES)
}
