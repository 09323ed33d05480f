// Widths of SVE and names that two directives give: D18, D19.

use crate::verdict::compare;
use std::test::Fail;
use vk_kinds::Target;

// A `simdlen` whose lanes of the widest size have 128 to 2048 bits, by that size.
static WIDTHS: [(&str, &str); 17] = [
    (
        "#pragma omp declare simd simdlen(8)\nsigned char f(unsigned char a);",
        "1 1 D18",
    ),
    (
        "#pragma omp declare simd simdlen(16)\nsigned char f(unsigned char a);",
        "ok",
    ),
    (
        "#pragma omp declare simd simdlen(2)\nsigned char f(unsigned char a);",
        "1 1 D18",
    ),
    (
        "#pragma omp declare simd simdlen(256)\nsigned char f(unsigned char a);",
        "ok",
    ),
    (
        "#pragma omp declare simd simdlen(4)\nshort f(short a);",
        "1 1 D18",
    ),
    (
        "#pragma omp declare simd simdlen(8)\nshort f(short a);",
        "ok",
    ),
    (
        "#pragma omp declare simd simdlen(128)\nshort f(short a);",
        "ok",
    ),
    (
        "#pragma omp declare simd simdlen(256)\nshort f(short a);",
        "1 1 D18",
    ),
    (
        "#pragma omp declare simd simdlen(2)\nint f(int a);",
        "1 1 D18",
    ),
    ("#pragma omp declare simd simdlen(4)\nint f(int a);", "ok"),
    ("#pragma omp declare simd simdlen(64)\nint f(int a);", "ok"),
    (
        "#pragma omp declare simd simdlen(128)\nint f(int a);",
        "1 1 D18",
    ),
    ("#pragma omp declare simd simdlen(2)\nlong f(long a);", "ok"),
    (
        "#pragma omp declare simd simdlen(32)\nlong f(long a);",
        "ok",
    ),
    (
        "#pragma omp declare simd simdlen(64)\nlong f(long a);",
        "1 1 D18",
    ),
    (
        "#pragma omp declare simd simdlen(256)\nlong f(long a);",
        "1 1 D18",
    ),
    ("#pragma omp declare simd \nlong f(long a);", "ok"),
];

#[test]
fn widths(rt: HostRuntime) -> Result<(), Fail> {
    compare(&rt, rt.alloc(), Target::Arm, &WIDTHS)
}

// Which size is the widest.
static WIDEST: [(&str, &str); 23] = [
    (
        "#pragma omp declare simd simdlen(2)\nvoid f(void);",
        "1 1 D18",
    ),
    ("#pragma omp declare simd simdlen(4)\nvoid f(void);", "ok"),
    ("#pragma omp declare simd simdlen(64)\nvoid f(void);", "ok"),
    (
        "#pragma omp declare simd simdlen(128)\nvoid f(void);",
        "1 1 D18",
    ),
    (
        "#pragma omp declare simd simdlen(8)\nvoid f(signed char a);",
        "1 1 D18",
    ),
    (
        "#pragma omp declare simd simdlen(16)\nvoid f(signed char a);",
        "ok",
    ),
    (
        "#pragma omp declare simd simdlen(2)\nsigned char f(long a);",
        "ok",
    ),
    (
        "#pragma omp declare simd simdlen(64)\nsigned char f(long a);",
        "1 1 D18",
    ),
    (
        "#pragma omp declare simd simdlen(64)\nlong f(signed char a);",
        "1 1 D18",
    ),
    (
        "#pragma omp declare simd simdlen(4) uniform(n)\nsigned char f(signed char a, int n);",
        "ok",
    ),
    (
        "#pragma omp declare simd simdlen(4) linear(n)\nsigned char f(signed char a, short n);",
        "1 1 D18",
    ),
    (
        "#pragma omp declare simd simdlen(2)\nvoid f(const signed char *p);",
        "ok",
    ),
    (
        "#pragma omp declare simd simdlen(64)\nvoid f(const signed char *p);",
        "1 1 D18",
    ),
    (
        "#pragma omp declare simd simdlen(8) uniform(p)\nvoid f(const signed char *p);",
        "1 1 D18",
    ),
    (
        "#pragma omp declare simd simdlen(16) uniform(p)\nvoid f(const signed char *p);",
        "ok",
    ),
    (
        "#pragma omp declare simd simdlen(256) uniform(p)\nvoid f(const signed char *p);",
        "ok",
    ),
    (
        "#pragma omp declare simd simdlen(8) linear(p)\nvoid f(signed char *p);",
        "1 1 D18",
    ),
    (
        "#pragma omp declare simd simdlen(256) linear(p)\nvoid f(signed char *p);",
        "ok",
    ),
    (
        "#pragma omp declare simd simdlen(4) linear(p: 8)\nvoid f(short *p);",
        "1 1 D18",
    ),
    (
        "#pragma omp declare simd simdlen(2) aligned(p)\nvoid f(signed char *p);",
        "ok",
    ),
    (
        "#pragma omp declare simd simdlen(2) linear(p)\nvoid f(long *p);",
        "ok",
    ),
    (
        "#pragma omp declare simd inbranch simdlen(2)\nint f(int a);",
        "1 1 D18",
    ),
    (
        "#pragma omp declare simd simdlen(2) notinbranch\nint f(int a);",
        "1 1 D18",
    ),
];

#[test]
fn widest_sizes(rt: HostRuntime) -> Result<(), Fail> {
    compare(&rt, rt.alloc(), Target::Arm, &WIDEST)
}

// Widths beside other rules and directives.
static BESIDE: [(&str, &str); 16] = [
    (
        "#pragma omp declare simd simdlen(2) fast\nint f(int a);",
        "1 1 D1",
    ),
    (
        "#pragma omp declare simd simdlen(2) uniform(z)\nint f(int a);",
        "1 1 D2",
    ),
    (
        "#pragma omp declare simd simdlen(2) simdlen(2)\nint f(int a);",
        "1 1 D4",
    ),
    (
        "#pragma omp declare simd simdlen(1)\nint f(int a);",
        "1 1 D9",
    ),
    (
        "#pragma omp declare simd simdlen(257)\nint f(int a);",
        "1 1 D9",
    ),
    (
        "int g(int a);\n#pragma omp declare simd\n#pragma omp declare simd simdlen(2)\nint f(int a);",
        "3 2 D18",
    ),
    (
        "#pragma omp declare simd simdlen(2)\n#pragma omp declare simd fast\nint f(int a);",
        "1 1 D18",
    ),
    (
        "#pragma omp declare simd fast\n#pragma omp declare simd simdlen(2)\nint f(int a);",
        "1 1 D1",
    ),
    (
        "#pragma omp declare simd simdlen(2)\nint f(int a, int a);",
        "1 1 D18",
    ),
    (
        "int f(int a) { return b; }\n#pragma omp declare simd simdlen(2)\nint g(int a);",
        "1 0 C8",
    ),
    (
        "#pragma omp declare simd simdlen(2)\n#pragma omp declare simd simdlen(2)\nint f(int a);",
        "1 1 D18",
    ),
    (
        "#pragma omp declare simd simdlen(4)\nint f(int a);\n#pragma omp declare simd simdlen(2)\nint f(int a);",
        "3 2 D18",
    ),
    (
        "int f(int a);\n#pragma omp declare simd simdlen(2)\nint f(int a);",
        "2 1 D18",
    ),
    ("#pragma omp declare simd simdlen(2)\nint x;", "1 1 D12"),
    (
        "#pragma omp declare simd simdlen(2)\nint f(int a) { return b; }",
        "1 1 D18",
    ),
    (
        "#pragma omp declare simd inbranch simdlen(4)\n#pragma omp declare simd notinbranch simdlen(2)\nint f(int a);",
        "2 2 D18",
    ),
];

#[test]
fn widths_beside_other_rules(rt: HostRuntime) -> Result<(), Fail> {
    compare(&rt, rt.alloc(), Target::Arm, &BESIDE)
}

// No width is asked for on x86-64.
static FREE: [(&str, &str); 8] = [
    (
        "#pragma omp declare simd simdlen(2)\nsigned char f(signed char a);",
        "ok",
    ),
    (
        "#pragma omp declare simd simdlen(256)\nsigned char f(signed char a);",
        "ok",
    ),
    ("#pragma omp declare simd simdlen(2)\nint f(int a);", "ok"),
    ("#pragma omp declare simd simdlen(256)\nint f(int a);", "ok"),
    ("#pragma omp declare simd simdlen(2)\nlong f(long a);", "ok"),
    (
        "#pragma omp declare simd simdlen(256)\nlong f(long a);",
        "ok",
    ),
    ("#pragma omp declare simd simdlen(2)\nvoid f(void);", "ok"),
    ("#pragma omp declare simd simdlen(256)\nvoid f(void);", "ok"),
];

#[test]
fn widths_on_x86(rt: HostRuntime) -> Result<(), Fail> {
    compare(&rt, rt.alloc(), Target::X86, &FREE)
}

// Names that two directives give, on x86-64.
static NAMES: [(&str, &str); 27] = [
    (
        "#pragma omp declare simd \n#pragma omp declare simd \nint f(int a, int b);",
        "2 2 D19",
    ),
    (
        "#pragma omp declare simd inbranch\n#pragma omp declare simd notinbranch\nint f(int a, int b);",
        "ok",
    ),
    (
        "#pragma omp declare simd notinbranch\n#pragma omp declare simd inbranch\nint f(int a, int b);",
        "ok",
    ),
    (
        "#pragma omp declare simd inbranch\n#pragma omp declare simd inbranch\nint f(int a, int b);",
        "2 2 D19",
    ),
    (
        "#pragma omp declare simd \n#pragma omp declare simd inbranch\nint f(int a, int b);",
        "2 2 D19",
    ),
    (
        "#pragma omp declare simd notinbranch\n#pragma omp declare simd \nint f(int a, int b);",
        "2 2 D19",
    ),
    (
        "#pragma omp declare simd \n#pragma omp declare simd uniform(a)\nint f(int a, int b);",
        "ok",
    ),
    (
        "#pragma omp declare simd uniform(a)\n#pragma omp declare simd uniform(b)\nint f(int a, int b);",
        "ok",
    ),
    (
        "#pragma omp declare simd uniform(a)\n#pragma omp declare simd linear(a)\nint f(int a, int b);",
        "ok",
    ),
    (
        "#pragma omp declare simd uniform(a, b)\n#pragma omp declare simd uniform(b) uniform(a)\nint f(int a, int b);",
        "2 2 D19",
    ),
    (
        "#pragma omp declare simd uniform(a) linear(b)\n#pragma omp declare simd linear(b) uniform(a)\nint f(int a, int b);",
        "2 2 D19",
    ),
    (
        "#pragma omp declare simd linear(a)\n#pragma omp declare simd linear(a: 1)\nint f(int a, int b);",
        "2 2 D19",
    ),
    (
        "#pragma omp declare simd linear(a)\n#pragma omp declare simd linear(a: 2)\nint f(int a, int b);",
        "ok",
    ),
    (
        "#pragma omp declare simd linear(a: 2)\n#pragma omp declare simd linear(val(a): 1 + 1)\nint f(int a, int b);",
        "2 2 D19",
    ),
    (
        "#pragma omp declare simd linear(a: 2)\n#pragma omp declare simd linear(a: -2)\nint f(int a, int b);",
        "ok",
    ),
    (
        "#pragma omp declare simd linear(a: b) uniform(b)\n#pragma omp declare simd linear(a) uniform(b)\nint f(int a, int b);",
        "ok",
    ),
    (
        "#pragma omp declare simd linear(a: b) uniform(b)\n#pragma omp declare simd uniform(b) linear(a: step(b))\nint f(int a, int b);",
        "2 2 D19",
    ),
    (
        "#pragma omp declare simd \n#pragma omp declare simd simdlen(2)\nint f(int a, int b);",
        "ok",
    ),
    (
        "#pragma omp declare simd \n#pragma omp declare simd simdlen(4)\nint f(int a, int b);",
        "2 2 D19",
    ),
    (
        "#pragma omp declare simd \n#pragma omp declare simd simdlen(8)\nint f(int a, int b);",
        "2 2 D19",
    ),
    (
        "#pragma omp declare simd \n#pragma omp declare simd simdlen(16)\nint f(int a, int b);",
        "2 2 D19",
    ),
    (
        "#pragma omp declare simd \n#pragma omp declare simd simdlen(32)\nint f(int a, int b);",
        "ok",
    ),
    (
        "#pragma omp declare simd simdlen(4)\n#pragma omp declare simd simdlen(8)\nint f(int a, int b);",
        "ok",
    ),
    (
        "#pragma omp declare simd simdlen(4)\n#pragma omp declare simd simdlen(2 + 2)\nint f(int a, int b);",
        "2 2 D19",
    ),
    (
        "#pragma omp declare simd simdlen(4) inbranch\n#pragma omp declare simd notinbranch simdlen(4)\nint f(int a, int b);",
        "ok",
    ),
    (
        "#pragma omp declare simd simdlen(4) inbranch\n#pragma omp declare simd simdlen(4)\nint f(int a, int b);",
        "2 2 D19",
    ),
    (
        "#pragma omp declare simd simdlen(16)\n#pragma omp declare simd \nint f(int a, int b);",
        "2 2 D19",
    ),
];

#[test]
fn names_given_twice(rt: HostRuntime) -> Result<(), Fail> {
    compare(&rt, rt.alloc(), Target::X86, &NAMES)
}

// Lengths by the types, alignments, third directives, several declarations.
static FURTHER: [(&str, &str); 24] = [
    (
        "#pragma omp declare simd \n#pragma omp declare simd simdlen(2)\nlong f(long a);",
        "2 2 D19",
    ),
    (
        "#pragma omp declare simd \n#pragma omp declare simd simdlen(16)\nlong f(long a);",
        "ok",
    ),
    (
        "#pragma omp declare simd \n#pragma omp declare simd simdlen(64)\nunsigned char f(int a);",
        "2 2 D19",
    ),
    (
        "#pragma omp declare simd \n#pragma omp declare simd simdlen(4)\nvoid f(short a, long b);",
        "ok",
    ),
    (
        "#pragma omp declare simd uniform(b)\n#pragma omp declare simd simdlen(4) uniform(b)\nvoid f(long b, short a);",
        "ok",
    ),
    (
        "#pragma omp declare simd uniform(b)\n#pragma omp declare simd simdlen(8) uniform(b)\nvoid f(long b, short a);",
        "2 2 D19",
    ),
    (
        "#pragma omp declare simd uniform(a)\n#pragma omp declare simd uniform(a) simdlen(2)\nvoid f(int a, long b);",
        "2 2 D19",
    ),
    (
        "#pragma omp declare simd \n#pragma omp declare simd simdlen(4)\nvoid f(void);",
        "2 2 D19",
    ),
    (
        "#pragma omp declare simd \n#pragma omp declare simd aligned(p)\nint f(const int *p);",
        "ok",
    ),
    (
        "#pragma omp declare simd aligned(p)\n#pragma omp declare simd aligned(p: 16)\nint f(const int *p);",
        "2 2 D19",
    ),
    (
        "#pragma omp declare simd aligned(p: 8)\n#pragma omp declare simd aligned(p: 16)\nint f(const int *p);",
        "ok",
    ),
    (
        "#pragma omp declare simd linear(p)\n#pragma omp declare simd linear(p: 4)\nint f(const int *p);",
        "ok",
    ),
    (
        "#pragma omp declare simd linear(p: 2)\n#pragma omp declare simd linear(p: step(2))\nint f(const int *p);",
        "2 2 D19",
    ),
    (
        "#pragma omp declare simd uniform(a)\n#pragma omp declare simd linear(a)\nint f(int a, int b);\n#pragma omp declare simd uniform(a)\n#pragma omp declare simd linear(a)\nint f(int a, int b);",
        "ok",
    ),
    (
        "#pragma omp declare simd\nint f(int a);\n#pragma omp declare simd\nint f(int a);",
        "ok",
    ),
    (
        "#pragma omp declare simd\nint f(int a);\n#pragma omp declare simd\nint g(int a);",
        "ok",
    ),
    (
        "#pragma omp declare simd inbranch\n#pragma omp declare simd uniform(a)\n\n#pragma omp declare simd\nint f(int a);",
        "4 3 D19",
    ),
    (
        "#pragma omp declare simd inbranch\n#pragma omp declare simd notinbranch\n#pragma omp declare simd inbranch\nint f(int a);",
        "3 3 D19",
    ),
    (
        "#pragma omp declare simd\n#pragma omp declare simd fast\n#pragma omp declare simd\nint f(int a);",
        "2 2 D1",
    ),
    (
        "#pragma omp declare simd\n#pragma omp declare simd\n#pragma omp declare simd fast\nint f(int a);",
        "2 2 D19",
    ),
    (
        "#pragma omp declare simd simdlen(3)\n#pragma omp declare simd simdlen(3)\nint f(int a);",
        "1 1 D9",
    ),
    (
        "#pragma omp declare simd\n#pragma omp declare simd simdlen(4) fast\nint f(int a);",
        "2 2 D1",
    ),
    (
        "int f(int a);\n#pragma omp declare simd\n#pragma omp declare simd\nint f(int a);",
        "3 2 D19",
    ),
    (
        "#pragma omp declare simd\nint f(int a);\n#pragma omp declare simd\n#pragma omp declare simd\nint f(int a);",
        "4 3 D19",
    ),
];

#[test]
fn names_by_types(rt: HostRuntime) -> Result<(), Fail> {
    compare(&rt, rt.alloc(), Target::X86, &FURTHER)
}

// Names that two directives give, on AArch64, where SVE's are all masked.
static SCALABLE: [(&str, &str); 20] = [
    (
        "#pragma omp declare simd \n#pragma omp declare simd \nint f(int a, int b);",
        "2 2 D19",
    ),
    (
        "#pragma omp declare simd inbranch\n#pragma omp declare simd notinbranch\nint f(int a, int b);",
        "2 2 D19",
    ),
    (
        "#pragma omp declare simd inbranch simdlen(4)\n#pragma omp declare simd notinbranch simdlen(4)\nint f(int a, int b);",
        "2 2 D19",
    ),
    (
        "#pragma omp declare simd inbranch simdlen(4)\n#pragma omp declare simd notinbranch simdlen(8)\nint f(int a, int b);",
        "ok",
    ),
    (
        "#pragma omp declare simd inbranch\n#pragma omp declare simd notinbranch simdlen(4)\nint f(int a, int b);",
        "ok",
    ),
    (
        "#pragma omp declare simd notinbranch\n#pragma omp declare simd notinbranch simdlen(4)\nint f(int a, int b);",
        "2 2 D19",
    ),
    (
        "#pragma omp declare simd \n#pragma omp declare simd simdlen(4)\nint f(int a, int b);",
        "2 2 D19",
    ),
    (
        "#pragma omp declare simd \n#pragma omp declare simd simdlen(8)\nint f(int a, int b);",
        "ok",
    ),
    (
        "#pragma omp declare simd simdlen(8)\n#pragma omp declare simd simdlen(16)\nint f(int a, int b);",
        "ok",
    ),
    (
        "#pragma omp declare simd inbranch\n#pragma omp declare simd notinbranch uniform(a)\nint f(int a, int b);",
        "ok",
    ),
    (
        "#pragma omp declare simd \n#pragma omp declare simd simdlen(2)\nlong f(long a);",
        "2 2 D19",
    ),
    (
        "#pragma omp declare simd \n#pragma omp declare simd simdlen(4)\nlong f(long a);",
        "ok",
    ),
    (
        "#pragma omp declare simd \n#pragma omp declare simd simdlen(4)\nshort f(long a);",
        "2 2 D19",
    ),
    (
        "#pragma omp declare simd \n#pragma omp declare simd simdlen(2)\nshort f(long a);",
        "ok",
    ),
    (
        "#pragma omp declare simd \n#pragma omp declare simd simdlen(16)\nvoid f(signed char a);",
        "2 2 D19",
    ),
    (
        "#pragma omp declare simd \n#pragma omp declare simd simdlen(8)\nvoid f(signed char a, int b);",
        "2 2 D19",
    ),
    (
        "#pragma omp declare simd \n#pragma omp declare simd simdlen(32)\nvoid f(signed char a);",
        "ok",
    ),
    (
        "#pragma omp declare simd uniform(p)\n#pragma omp declare simd uniform(p) simdlen(16)\nvoid f(const signed char *p);",
        "2 2 D19",
    ),
    (
        "#pragma omp declare simd linear(p)\n#pragma omp declare simd linear(p) simdlen(16)\nvoid f(const long *p);",
        "ok",
    ),
    (
        "#pragma omp declare simd \n#pragma omp declare simd simdlen(2)\nvoid f(const signed char *p);",
        "2 2 D19",
    ),
];

#[test]
fn names_given_twice_on_arm(rt: HostRuntime) -> Result<(), Fail> {
    compare(&rt, rt.alloc(), Target::Arm, &SCALABLE)
}
