// Functions with directives: D12, D15 and D16.

use crate::verdict::compare;
use std::test::Fail;

// Directives that stand in functions.
static LOST: [(&str, &str); 9] = [
    (
        "int f(int a) {\n#pragma omp declare simd\nreturn a; }",
        "2 1 D12",
    ),
    (
        "#pragma omp declare simd\nint f(int a) {\n#pragma omp declare simd\nreturn a; }",
        "3 2 D12",
    ),
    (
        "void f(int a) { while (a) {\n#pragma omp declare simd\n} }",
        "2 1 D12",
    ),
    (
        "void f(int a) { if (a)\n#pragma omp declare simd\n}",
        "2 1 D12",
    ),
    (
        "void f(int a) { b = 1;\n#pragma omp declare simd\n}",
        "1 0 C8",
    ),
    (
        "void f(int n) {\n#pragma omp simd\nfor (int i = 0; i < n; i++) ;\n#pragma omp declare simd\n}",
        "4 2 D12",
    ),
    (
        "void f(int n) {\n#pragma omp simd\nfor (int i = 0; i < n; i++) ; }",
        "ok",
    ),
    (
        "void f(int n) {\n#pragma omp simd\nfor (int i = 0; i < n; i++) { int j = i; j = 1; } }",
        "ok",
    ),
    (
        "void f(int n) {\n#pragma omp simd\nfor (int i = 0; i < n; i++) ;\ni = 1; }",
        "4 0 C8",
    ),
];

#[test]
fn directives_in_functions(rt: HostRuntime) -> Result<(), Fail> {
    compare(&rt, rt.alloc(), &LOST)
}

// D15: what may not stand in a function with directives.
static PLAIN: [(&str, &str); 24] = [
    ("#pragma omp declare simd\nint f(int a) { return a; }", "ok"),
    (
        "#pragma omp declare simd\nvoid f(int a) {\nprint(a); }",
        "3 1 D15",
    ),
    (
        "#pragma omp declare simd\nvoid f(int a) { if (a) { while (a)\nprint(a); } }",
        "3 1 D15",
    ),
    ("void f(int a) { print(a); }", "ok"),
    (
        "int g(int a);\n#pragma omp declare simd\nint f(int a) { return g(a); }",
        "3 1 D15",
    ),
    (
        "#pragma omp declare simd\nint g(int a);\n#pragma omp declare simd\nint f(int a) { return g(a); }",
        "ok",
    ),
    (
        "#pragma omp declare simd\nint f(int a) { return f(a); }",
        "ok",
    ),
    (
        "int x;\n#pragma omp declare simd\nint f(int a) { return x; }",
        "3 1 D15",
    ),
    (
        "int x;\n#pragma omp declare simd\nvoid f(int a) {\nx = a; }",
        "4 1 D15",
    ),
    (
        "const int x = 1;\n#pragma omp declare simd\nint f(int a) { return x; }",
        "ok",
    ),
    (
        "const int t[2] = {1};\n#pragma omp declare simd\nint f(int a) { return t[a]; }",
        "ok",
    ),
    (
        "int t[2];\n#pragma omp declare simd\nint f(int a) { return t[a]; }",
        "3 1 D15",
    ),
    (
        "int x;\n#pragma omp declare simd\nint f(int x) { return x; }",
        "ok",
    ),
    (
        "int x;\n#pragma omp declare simd\nint f(int a) { int x = a; return x; }",
        "ok",
    ),
    (
        "int x;\n#pragma omp declare simd\nint f(int a) { { int x = a; a = x; }\nreturn x; }",
        "4 1 D15",
    ),
    (
        "#pragma omp declare simd\nvoid f(int a) {\n#pragma omp simd\nfor (int i = 0; i < a; i++) ; }",
        "3 1 D15",
    ),
    (
        "#pragma omp declare simd\nint f(int a);\nint x;\nint f(int a) { return x; }",
        "4 1 D15",
    ),
    (
        "int x;\nvoid h(int n) {\n#pragma omp simd\nfor (int i = 0; i < n; i++) ; }\n#pragma omp declare simd\nint f(int a) { return x; }",
        "6 2 D15",
    ),
    (
        "int x;\n#pragma omp declare simd inbranch\n#pragma omp declare simd notinbranch\nint f(int a) {\nreturn x; }",
        "5 1 D15",
    ),
    (
        "int x(int a);\n#pragma omp declare simd\nint f(int a) { return x; }",
        "3 0 C9",
    ),
    (
        "int g(int a);\n#pragma omp declare simd\nint f(int a) { return g(); }",
        "3 0 C9",
    ),
    (
        "int g(int a);\n#pragma omp declare simd\nint f(int a) { return g(\nb); }",
        "3 1 D15",
    ),
    (
        "int x;\n#pragma omp declare simd\nint f(int a) { return a; }\nint g(int a) { return x; }",
        "ok",
    ),
    (
        "int g(const int *p);\nint x;\n#pragma omp declare simd\nint h(const int *p);\n#pragma omp declare simd\nint f(int a) { return h(&x); }",
        "6 2 D15",
    ),
];

#[test]
fn plain_parts_of_vector_functions(rt: HostRuntime) -> Result<(), Fail> {
    compare(&rt, rt.alloc(), &PLAIN)
}

// D16: written pointers in a function with directives.
static WRITTEN: [(&str, &str); 23] = [
    (
        "#pragma omp declare simd\nvoid f(int *p) { *p = 1; p[0] += 2; (*p)++; }",
        "ok",
    ),
    (
        "#pragma omp declare simd\nint f(int *p) { return p[0] + p[0L] + *p; }",
        "ok",
    ),
    (
        "#pragma omp declare simd\nint f(int *p) { return p[1]; }",
        "2 1 D16",
    ),
    (
        "#pragma omp declare simd\nint f(int *p, int n) { return p[n - n]; }",
        "2 1 D16",
    ),
    (
        "#pragma omp declare simd\nint f(int *p) { return *(p + 1); }",
        "2 1 D16",
    ),
    (
        "#pragma omp declare simd\nint f(int *p) { return *(1 +\np); }",
        "3 1 D16",
    ),
    (
        "#pragma omp declare simd\nint f(int *p) { return (p - 1)[0]; }",
        "2 1 D16",
    ),
    (
        "#pragma omp declare simd\nint f(const int *p) { return *(p + 1) + p[2]; }",
        "ok",
    ),
    (
        "#pragma omp declare simd\nint g(int *p);\n#pragma omp declare simd\nint f(int *p) { return g(p); }",
        "ok",
    ),
    (
        "#pragma omp declare simd\nint g(const int *p);\n#pragma omp declare simd\nint f(int *p) { return g(p); }",
        "4 2 D16",
    ),
    (
        "#pragma omp declare simd\nint g(int *p);\n#pragma omp declare simd\nint f(int *p) { return g(&*p); }",
        "4 2 D16",
    ),
    (
        "#pragma omp declare simd\nint g(int *p);\n#pragma omp declare simd\nint f(int *p) { return g(&p[0]); }",
        "4 2 D16",
    ),
    (
        "#pragma omp declare simd\nint g(int *p);\n#pragma omp declare simd\nint f(int *p) { return g(p + 0); }",
        "4 2 D16",
    ),
    (
        "#pragma omp declare simd\nint f(int *p) { return *&*p; }",
        "2 1 D16",
    ),
    (
        "#pragma omp declare simd\nint f(int *p) { return *&p[0]; }",
        "2 1 D16",
    ),
    (
        "#pragma omp declare simd\nint f(int *p) { { int p = 1; return p; } }",
        "ok",
    ),
    (
        "#pragma omp declare simd\nint f(int *p) { return p; }",
        "2 0 C9",
    ),
    (
        "#pragma omp declare simd\nvoid f(int *p) { p = 1; }",
        "2 0 C10",
    ),
    (
        "#pragma omp declare simd\nint f(int *p) { return p[p[0]]; }",
        "2 1 D16",
    ),
    (
        "#pragma omp declare simd\nint f(int *p, int n) {\nif (n) return p[0];\nreturn p[n]; }",
        "4 1 D16",
    ),
    ("int f(int *p) { return p[1]; }", "ok"),
    (
        "void h(int n) {\n#pragma omp simd\nfor (int i = 0; i < n; i++) ; }\n#pragma omp declare simd\nint f(int *p) { return p[1]; }",
        "5 2 D16",
    ),
    (
        "#pragma omp declare simd\nint f(int *p);\nint f(int *q) { return q[1]; }",
        "3 1 D16",
    ),
];

#[test]
fn written_pointers_of_vector_functions(rt: HostRuntime) -> Result<(), Fail> {
    compare(&rt, rt.alloc(), &WRITTEN)
}
