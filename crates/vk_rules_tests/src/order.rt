// Of several faults one is told.

use crate::verdict::compare;
use std::test::Fail;

// Of several faults the first by place, then by letter and number.
static SEVERAL: [(&str, &str); 25] = [
    (
        "int f(void) { return x; }\nint g(void) { return; }",
        "1 0 C8",
    ),
    (
        "int f(void) { return; }\nint g(void) { return x; }",
        "1 0 C15",
    ),
    ("int f(int a, int a) {\nreturn x; }", "1 0 C8"),
    (
        "void f(void) {\nreturn 1; }\nvoid g(void) { break; }",
        "2 0 C15",
    ),
    (
        "int g(int a, int b);\nint f(void) {\nreturn g(x,\ny); }",
        "3 0 C8",
    ),
    (
        "int g(int a, int b);\nint f(int *p) {\nreturn g(1,\np) + y; }",
        "4 0 C9",
    ),
    ("void f(void) { do {\nx = 1; }\nwhile (y); }", "2 0 C8"),
    ("void f(int n) { for (; n;\nx = 1)\ny = 2; }", "2 0 C8"),
    ("void f(int n) { for (; n; n = 1)\ny = 2; }", "2 0 C8"),
    ("void f(int n) { for (;\nx; )\ny = 2; }", "2 0 C8"),
    ("int f(void) { return x\n+ y; }", "1 0 C8"),
    ("int f(void) { return 1\n+ y\n* z; }", "2 0 C8"),
    ("void f(int n) { if (\nx)\ny = 1; else z = 1; }", "2 0 C8"),
    ("void f(int n) { if (n)\nn = 1; else\nz = 1; }", "3 0 C8"),
    ("int x[2]; void f(int *p) {\nx[\np] =\ny; }", "3 0 C9"),
    ("int x(void); void f(void) { y =\nx; }", "1 0 C8"),
    ("void f(int a) {\nint b = c;\nint a; }", "2 0 C8"),
    ("void f(int a) {\nint a = c; }", "2 0 C8"),
    (
        "void f(int a) {\n{ a = 1; }\n{ break; }\n{ b = 1; } }",
        "3 0 C14",
    ),
    (
        "#pragma omp declare simd\nint f(int *p) {\nreturn p[1]\n+ x; }",
        "3 1 D16",
    ),
    (
        "#pragma omp declare simd\nint f(int *p) {\nreturn x\n+ p[1]; }",
        "3 0 C8",
    ),
    (
        "int x;\n#pragma omp declare simd\nint f(int *p) {\nreturn x\n+ p[1]; }",
        "4 1 D15",
    ),
    (
        "#pragma omp declare simd\nvoid f(int *p) {\nprint(\np[1]); }",
        "3 1 D15",
    ),
    (
        "#pragma omp declare simd\nvoid f(int *p) {\nprint(p); }",
        "3 1 D15",
    ),
    ("int f(int a,\nint print,\nint a) { return b; }", "2 0 C8"),
];

#[test]
fn several_faults(rt: HostRuntime) -> Result<(), Fail> {
    compare(&rt, rt.alloc(), &SEVERAL)
}

// What is right.
static RIGHT: [(&str, &str); 8] = [
    ("", "ok"),
    ("int x;", "ok"),
    (
        "int f(int n) { int s = 0; for (int i = 0; i < n; i++) s += i; return s; }",
        "ok",
    ),
    (
        "const int t[4] = {1, 2, 3, 4};\nint f(const int *p, int n) { int s = 0; while (n) { n -= 1; s += p[n] * t[n & 3]; } return s; }",
        "ok",
    ),
    (
        "int a[8], b[8];\nvoid copy(int *to, const int *from, int n) { for (int i = 0; i < n; i++) to[i] = from[i]; }\nint main(void) { copy(a, b + 4, 4); copy(&a[4], b, 4); print(a[0]); return 0; }",
        "ok",
    ),
    (
        "#pragma omp declare simd\nunsigned char f(unsigned char a, int b) { return a + b; }",
        "ok",
    ),
    (
        "#pragma omp declare simd\nvoid add(int *p, int n) { *p += n; }\n#pragma omp declare simd\nint twice(int *p, int n) { add(p, n); add(p, n); return *p; }",
        "ok",
    ),
    (
        "int g(int n);\nint f(int n) { return n ? g(n - 1) : 0; }\nint g(int n) { return n ? f(n - 1) : 1; }",
        "ok",
    ),
];

#[test]
fn right_units(rt: HostRuntime) -> Result<(), Fail> {
    compare(&rt, rt.alloc(), &RIGHT)
}
