// Places: C10.

use crate::verdict::compare;
use std::test::Fail;

// What may be assigned.
static ASSIGNED: [(&str, &str); 32] = [
    ("void f(int a) { a = 1; }", "ok"),
    ("void f(const int a) { a = 1; }", "1 0 C10"),
    ("int x; void f(void) { x = 2; }", "ok"),
    ("const int x = 1; void f(void) { x = 2; }", "1 0 C10"),
    ("int a[2]; void f(void) { a = 1; }", "1 0 C10"),
    (
        "int a[2]; void f(void) { a[0] = 1; *a = 2; *(a + 1) = 3; }",
        "ok",
    ),
    (
        "const int a[2] = {1}; void f(void) { a[0] = 1; }",
        "1 0 C10",
    ),
    ("void f(int *p) { p = 1; }", "1 0 C10"),
    ("void f(int *p) { p++; }", "1 0 C10"),
    ("void f(int *p) { p += 1; }", "1 0 C10"),
    ("void f(const int *p) { *p = 1; }", "1 0 C10"),
    ("void f(const int *p) { p[0] = 1; }", "1 0 C10"),
    ("void f(const int *p) { *(p + 1) += 1; }", "1 0 C10"),
    (
        "void f(int *p) { *p = 1; p[2] += 3; (*p)++; ++p[1]; }",
        "ok",
    ),
    ("void f(int *const p) { *p = 1; }", "ok"),
    ("void f(void) { const int a = 1; a = 2; }", "1 0 C10"),
    ("void f(void) { const int a = 1; { int a; a = 2; } }", "ok"),
    (
        "void f(void) { int a; { const int a = 2; a++; } }",
        "1 0 C10",
    ),
    (
        "void f(void) { for (const int i = 0; i < 3; i++) ; }",
        "1 0 C10",
    ),
    ("void f(int n) { (n + 1) = 2; }", "1 0 C10"),
    ("void f(int n) { 1 = n; }", "1 0 C10"),
    ("void f(int n) { -n = 1; }", "1 0 C10"),
    ("void f(int n) { (int)n = 1; }", "1 0 C10"),
    ("void f(int n) { (n ? n : n) = 1; }", "1 0 C10"),
    ("void f(int n) { (n) = 1; }", "ok"),
    ("int f(int n) { f(1) = 2; return 1; }", "1 0 C10"),
    ("int f(void) { f = 1; return 0; }", "1 0 C10"),
    ("int x; void f(int *p) { *&x = 1; *&p[1] = 2; }", "ok"),
    ("void f(int *p) { &*p = 1; }", "1 0 C10"),
    ("const int x = 1; void f(void) { *&x = 1; }", "1 0 C10"),
    ("void f(const int *p) {\n*p =\np; }", "2 0 C10"),
    ("void f(const int n) { int a = (n + 1); a = n; }", "ok"),
];

#[test]
fn assigned_places(rt: HostRuntime) -> Result<(), Fail> {
    compare(&rt, rt.alloc(), &ASSIGNED)
}

// What has an address.
static ADDRESSES: [(&str, &str); 12] = [
    ("int g(int *p); int f(int n) { return g(&n); }", "1 0 C10"),
    (
        "int g(int *p); int f(void) { int a; return g(&a); }",
        "1 0 C10",
    ),
    ("int g(int *p); int f(int *p) { return g(&p); }", "1 0 C10"),
    (
        "int a[2]; int g(int *p); int f(void) { return g(&a); }",
        "1 0 C10",
    ),
    ("int g(int *p); int f(void) { return g(&1); }", "1 0 C10"),
    (
        "int g(int *p); int f(int n) { return g(&(n + 1)); }",
        "1 0 C10",
    ),
    ("int f(int n) { return *&n; }", "1 0 C10"),
    ("int f(int n) { return &f; }", "1 0 C10"),
    ("int g(int *p); int x; int f(void) { return g(&x); }", "ok"),
    (
        "int g(int *p); int x; int f(int x) { return g(&x); }",
        "1 0 C10",
    ),
    (
        "int g(int *p); int f(int *p, int n) { return g(&p[\n&n]); }",
        "2 0 C10",
    ),
    ("int f(int n) { return &n +\nx; }", "1 0 C10"),
];

#[test]
fn addresses(rt: HostRuntime) -> Result<(), Fail> {
    compare(&rt, rt.alloc(), &ADDRESSES)
}
