// Names and scopes: C8.

use crate::verdict::compare;
use std::test::Fail;

// Names at file scope.
static FILE: [(&str, &str); 20] = [
    ("int f(void) { return x; }", "1 0 C8"),
    ("int x; int f(void) { return x; }", "ok"),
    ("extern int x; int f(void) { return x; }", "ok"),
    ("int f(void) { return x; }\nint x;", "1 0 C8"),
    ("int f(void) {\nreturn x; }\nint x;", "2 0 C8"),
    ("int f(void) { return f(); }", "ok"),
    ("int f(void) { return g(); }\nint g(void);", "1 0 C8"),
    ("int g(void);\nint f(void) { return g(); }", "ok"),
    (
        "int f(void) { return 1; }\nint g(void) { return f() + x; }\nint x;",
        "2 0 C8",
    ),
    (
        "extern int x; int x; int f(void) { return x; }\nint g(void) { return y; }",
        "2 0 C8",
    ),
    ("int a[3];\nvoid f(void) {\na[b] = 1; }", "3 0 C8"),
    ("void f(void) { x = 1; }", "1 0 C8"),
    ("void f(void) { x(1); }", "1 0 C8"),
    ("void f(void) { print(1); }", "ok"),
    ("int f(int f) { return f; }", "ok"),
    ("int f(int f) { return f(1); }", "1 0 C9"),
    ("void f(void) { int f = 1; f = 2; }", "ok"),
    ("int x; void f(void) { int x = x; x = 2; }", "ok"),
    ("int x[2]; int f(int x) { return x; }", "ok"),
    ("int x[2]; int f(int x) { return x[0]; }", "1 0 C9"),
];

#[test]
fn names_at_file_scope(rt: HostRuntime) -> Result<(), Fail> {
    compare(&rt, rt.alloc(), &FILE)
}

// Parameters.
static PARAMETERS: [(&str, &str); 14] = [
    ("int f(int x) { return x; }", "ok"),
    ("int f(int a, int b) { return a + b; }", "ok"),
    ("int f(int a, int a) { return a; }", "1 0 C8"),
    ("int f(int a,\nint b,\nlong a);", "3 0 C8"),
    ("int f(int, int);", "ok"),
    ("int f(int a, int, int a);", "1 0 C8"),
    ("int f(int a) { int a; return a; }", "1 0 C8"),
    ("int f(int a) { { int a; a = 1; } return a; }", "ok"),
    ("int f(int *a) { { int a = 1; a = 2; } return *a; }", "ok"),
    ("void f(int print) { }", "1 0 C8"),
    ("void f(int print);", "1 0 C8"),
    ("void f(int main);", "1 0 C8"),
    ("void f(int a);\nvoid g(void) { a = 1; }", "2 0 C8"),
    ("void f(int a) { }\nvoid g(void) { a = 1; }", "2 0 C8"),
];

#[test]
fn parameters(rt: HostRuntime) -> Result<(), Fail> {
    compare(&rt, rt.alloc(), &PARAMETERS)
}

// Blocks and the variables in them.
static BLOCKS: [(&str, &str); 15] = [
    ("void f(void) { int a; int b; a = 1; b = a; }", "ok"),
    ("void f(void) { int a; int b; int a; }", "1 0 C8"),
    ("void f(void) {\nint a,\nb,\na; }", "4 0 C8"),
    ("int f(int a) {\n{ int a;\nint a; }\nreturn a; }", "3 0 C8"),
    ("void f(void) { { int a; } { int a; } int a; }", "ok"),
    ("void f(void) {\n{ int a; }\na = 1; }", "3 0 C8"),
    ("void f(void) {\na = 1;\nint a; }", "2 0 C8"),
    ("void f(void) { int a = a; }", "ok"),
    ("void f(void) {\nint a = b, b = 1; }", "2 0 C8"),
    ("void f(void) { int a = 1, b = a; }", "ok"),
    ("void f(void) { int print; }", "1 0 C8"),
    ("void f(void) { { int main; } }", "1 0 C8"),
    ("void f(void) { { { int a; } { a = 1; } } }", "1 0 C8"),
    ("void f(int n) { { int a; { int n = a; a = n; } } }", "ok"),
    (
        "void f(void) { int a; { long a; { signed char a; a = 1; } a = 2; } a = 3; }",
        "ok",
    ),
];

#[test]
fn blocks(rt: HostRuntime) -> Result<(), Fail> {
    compare(&rt, rt.alloc(), &BLOCKS)
}

// Branches and loops, which are scopes of their own.
static LOOPS: [(&str, &str); 23] = [
    ("void f(int n) { if (n) int a = 1; else int a = 2; }", "ok"),
    (
        "void f(int n) {\nif (n) int a = 1;\nelse a = 2; }",
        "3 0 C8",
    ),
    ("void f(int n) {\nif (n) int a = 1;\na = 2; }", "3 0 C8"),
    ("void f(int n) { int a; if (n) int a = n; a = 1; }", "ok"),
    ("void f(int n) { if (n) { int n = n; } }", "ok"),
    ("void f(int n) { do int a = 1;\nwhile (a); }", "2 0 C8"),
    ("void f(int n) { do {\nint a = 1; }\nwhile (a); }", "3 0 C8"),
    ("void f(int n) { do { int n = 0; } while (n); }", "ok"),
    ("void f(int n) { while (a) { int a; } }", "1 0 C8"),
    ("void f(int n) { while (n) int a = n; int a; }", "ok"),
    ("void f(void) { for (int i = 0; i < 3; i++) ; }", "ok"),
    (
        "void f(void) {\nfor (int i = 0; i < 3; i++) ;\ni = 1; }",
        "3 0 C8",
    ),
    (
        "void f(int i) { for (int i = 0; i < 3; i++) ; i = 2; }",
        "ok",
    ),
    (
        "void f(void) { for (int i = 0; i < 3; i++) int i = 1; }",
        "ok",
    ),
    (
        "void f(void) { for (int i = 0; i < 3; i++) { int i; i = 1; } }",
        "ok",
    ),
    (
        "void f(void) { for (int i = 0, i = 1; i < 3; i++) ; }",
        "1 0 C8",
    ),
    (
        "void f(void) { for (int i = 0, j = i; j < 3; j++) ; }",
        "ok",
    ),
    (
        "void f(void) { for (int i = j, j = 0; j < 3; j++) ; }",
        "1 0 C8",
    ),
    (
        "void f(void) { for (int i = 0, j = 9; i < j; i++) { j = j - 1; } }",
        "ok",
    ),
    (
        "void f(void) { for (int i = 0, j = 9; i < j; i++) ; for (int j = 0; j < 3; j++) ; }",
        "ok",
    ),
    (
        "void f(void) {\nfor (int i = 0, j = 9; i < j; i++) ;\nj = 1; }",
        "3 0 C8",
    ),
    (
        "void f(void) { int i; for (i = 0; i < 3; i++) int i = 1; i = 4; }",
        "ok",
    ),
    ("void f(int n) { for (; n;\nk = 1)\nint k = 2; }", "2 0 C8"),
];

#[test]
fn branches_and_loops(rt: HostRuntime) -> Result<(), Fail> {
    compare(&rt, rt.alloc(), &LOOPS)
}
