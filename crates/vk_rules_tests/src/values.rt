// Types of expressions: C9.

use crate::verdict::compare;
use std::test::Fail;

// Numbers, and pointers where numbers are wanted.
static NUMBERS: [(&str, &str); 26] = [
    ("int f(int *p) { return p; }", "1 0 C9"),
    ("int f(int *p) { return !p; }", "1 0 C9"),
    ("int f(int *p) { return -p; }", "1 0 C9"),
    ("int f(int *p) { return (int)p; }", "1 0 C9"),
    ("int f(int *p) { if (p) return 1; return 0; }", "1 0 C9"),
    ("int f(int *p) { while (p) ; return 0; }", "1 0 C9"),
    ("int f(int *p) { do ; while (p); return 0; }", "1 0 C9"),
    ("int f(int *p) { for (; p; ) ; return 0; }", "1 0 C9"),
    ("int f(int *p) { return p ? 1 : 0; }", "1 0 C9"),
    ("int f(int n, int *p) { return *(n ? 1 :\np); }", "2 0 C9"),
    ("int f(int *p, int *q) { return\np == q; }", "2 0 C9"),
    ("int f(int *p, int *q) { return 1 ==\nq; }", "2 0 C9"),
    ("int f(int *p) { return p < 0; }", "1 0 C9"),
    ("int f(int *p) { return 1 && p; }", "1 0 C9"),
    ("int f(int *p) { return 2 * p; }", "1 0 C9"),
    ("int f(int *p) { int a = p; return a; }", "1 0 C9"),
    ("int x; void f(int *p) { x = p; }", "1 0 C9"),
    ("int x; void f(int *p) { x += p; }", "1 0 C9"),
    ("void f(int *p) { p; }", "1 0 C9"),
    ("void f(int n) { n; 1; n + 1; }", "ok"),
    ("int a[2]; int f(void) { return a; }", "1 0 C9"),
    ("int a[2]; int f(void) { return a[0] + a[1]; }", "ok"),
    ("int f(void) { return f; }", "1 0 C9"),
    ("int x; int f(void) { return &x; }", "1 0 C9"),
    ("int x; void f(void) { &x; }", "1 0 C9"),
    ("int f(int n) { return n ? 1 : n << 2; }", "ok"),
];

#[test]
fn pointers_are_no_numbers(rt: HostRuntime) -> Result<(), Fail> {
    compare(&rt, rt.alloc(), &NUMBERS)
}

// Pointers in sums, behind `*` and before a subscript.
static SUMS: [(&str, &str); 24] = [
    ("int f(int *p) { return *p; }", "ok"),
    ("int f(int *p) { return p[1]; }", "ok"),
    ("int f(int *p) { return *(p + 1); }", "ok"),
    ("int f(int *p) { return *(1 + p); }", "ok"),
    ("int f(int *p) { return *(p - 1); }", "ok"),
    ("int f(int *p) { return *(1 -\np); }", "2 0 C9"),
    ("int f(int *p) { return (p + 1)[2]; }", "ok"),
    ("int f(int *p) { return *(p + p[1]); }", "ok"),
    ("int f(int *p, int *q) { return *(p +\nq); }", "2 0 C9"),
    ("int f(int *p, int *q) { return *(p -\nq); }", "2 0 C9"),
    ("int f(int *p) { return *(2 + p + 1); }", "ok"),
    ("int f(int *p) { return *(p * 2); }", "1 0 C9"),
    ("int f(int *p) { return 1[p]; }", "1 0 C9"),
    ("int f(int *p) { return p[\np]; }", "2 0 C9"),
    ("int f(int *p) { return **p; }", "1 0 C9"),
    ("int f(int *p) { return p[0][0]; }", "1 0 C9"),
    ("int a[2]; int f(void) { return *a + *(a + 1); }", "ok"),
    ("int x; int f(void) { return *x; }", "1 0 C9"),
    ("int x; int f(void) { return *&x + (&x)[0]; }", "ok"),
    ("int f(void) { return *f(); }", "1 0 C9"),
    ("int f(void) { return *1; }", "1 0 C9"),
    ("int a[2]; int f(void) { return *&a[1]; }", "ok"),
    ("int f(int *p) { return *&*p + *&p[2]; }", "ok"),
    ("int f(int *p) { return *(&p[1] + 1); }", "ok"),
];

#[test]
fn sums_of_pointers(rt: HostRuntime) -> Result<(), Fail> {
    compare(&rt, rt.alloc(), &SUMS)
}

// Calls and their arguments.
static CALLS: [(&str, &str); 22] = [
    ("void g(void); int f(void) { return g(); }", "1 0 C9"),
    ("void g(void); void f(void) { g(); }", "ok"),
    ("void g(void); void f(int n) { g() + 1; }", "1 0 C9"),
    (
        "void g(void); int f(int n) { return n ? g() : 1; }",
        "1 0 C9",
    ),
    (
        "void g(void); int f(int n) { while (g()) ; return 1; }",
        "1 0 C9",
    ),
    ("int g(int a); int f(void) { return g(); }", "1 0 C9"),
    ("int g(int a); int f(void) { return g(1); }", "ok"),
    ("int g(int a); int f(void) { return g(1, 2); }", "1 0 C9"),
    ("int g(int a); int f(long b) { return g(b); }", "ok"),
    ("int g(int *p); int f(void) { return g(\n1); }", "2 0 C9"),
    ("int g(int a); int f(int *p) { return g(\np); }", "2 0 C9"),
    (
        "void g(void); int h(int a); int f(void) { return h(\ng()); }",
        "2 0 C9",
    ),
    ("int x; int f(void) { return x(1); }", "1 0 C9"),
    ("int f(int n) { return n(1); }", "1 0 C9"),
    ("void f(void) { print(1); print(1u); }", "ok"),
    ("int f(void) { return print(1); }", "1 0 C9"),
    ("void f(void) { print(); }", "1 0 C9"),
    ("void f(void) { print(1, 2); }", "1 0 C9"),
    ("void f(int *p) { print(p); }", "1 0 C9"),
    ("void f(int *p) { print(*p); }", "ok"),
    ("int g(); int f(void) { return g(); }", "ok"),
    ("int g(); int f(void) { return g(1); }", "1 0 C9"),
];

#[test]
fn calls(rt: HostRuntime) -> Result<(), Fail> {
    compare(&rt, rt.alloc(), &CALLS)
}

// Arguments for pointers.
static ARGUMENTS: [(&str, &str); 17] = [
    ("int g(int *p); int f(int *p) { return g(p); }", "ok"),
    ("int g(const int *p); int f(int *p) { return g(p); }", "ok"),
    (
        "int g(const int *p); int f(const int *p) { return g(p); }",
        "ok",
    ),
    (
        "int g(int *p); int f(const int *p) { return g(p); }",
        "1 0 C9",
    ),
    ("int g(long *p); int f(int *p) { return g(p); }", "1 0 C9"),
    (
        "int g(unsigned *p); int f(int *p) { return g(p); }",
        "1 0 C9",
    ),
    (
        "int g(const long *p); int f(int *p) { return g(p); }",
        "1 0 C9",
    ),
    (
        "int a[3]; int g(int *p); int f(void) { return g(a); }",
        "ok",
    ),
    (
        "const int a[3] = {1}; int g(int *p); int f(void) { return g(a); }",
        "1 0 C9",
    ),
    (
        "const int a[3] = {1}; int g(const int *p); int f(void) { return g(a + 1); }",
        "ok",
    ),
    ("int x; int g(int *p); int f(void) { return g(&x); }", "ok"),
    (
        "const int x = 1; int g(int *p); int f(void) { return g(&x); }",
        "1 0 C9",
    ),
    (
        "int a[3]; int g(int *p); int f(void) { return g(&a[1]); }",
        "ok",
    ),
    (
        "int g(int *p); int f(int *p) { return g(&*p) + g(&p[1]) + g(p - 1); }",
        "ok",
    ),
    (
        "int g(int *p); int f(const int *p) { return g(&p[1]); }",
        "1 0 C9",
    ),
    (
        "int g(int *p, int n); int f(int *p) { return g(p,\np); }",
        "2 0 C9",
    ),
    (
        "int g(int *p, int n); int f(int *p) { return g(\np); }",
        "1 0 C9",
    ),
];

#[test]
fn arguments_for_pointers(rt: HostRuntime) -> Result<(), Fail> {
    compare(&rt, rt.alloc(), &ARGUMENTS)
}

// Nothing is judged of what holds a broken part.
static BROKEN: [(&str, &str); 12] = [
    ("int f(int *p) { return\np +\nx; }", "3 0 C8"),
    ("int f(int *p) {\nreturn *(\nx); }", "3 0 C8"),
    ("int g(int a); int f(void) { return g(\nx,\n2); }", "2 0 C8"),
    (
        "int g(int *a, int b); int f(int *q) { return g(\nx,\nq); }",
        "2 0 C8",
    ),
    (
        "int g(int a, int b); int f(int *q) { return g(\nq,\nx); }",
        "2 0 C9",
    ),
    ("int f(int *p) { return\n(x ? 1 : 2)\n+ p; }", "2 0 C8"),
    ("int f(int *p) { return\np == *(\nx + 1); }", "2 0 C9"),
    ("void f(void) { *1 = 2; }", "1 0 C9"),
    ("void f(void) { x[1] = 2; }", "1 0 C8"),
    ("int g(int *p); int f(void) { return g(&\nx); }", "2 0 C8"),
    ("void f(int *p) { p[\nx] =\np; }", "2 0 C8"),
    ("int f(int *p) { return p\n+ p\n+ x; }", "2 0 C9"),
];

#[test]
fn broken_parts(rt: HostRuntime) -> Result<(), Fail> {
    compare(&rt, rt.alloc(), &BROKEN)
}
