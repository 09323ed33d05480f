// Jumps: C14 and C15.

use crate::verdict::compare;
use std::test::Fail;

// `break`, `continue` and `return`.
static JUMPS: [(&str, &str); 25] = [
    ("void f(void) { break; }", "1 0 C14"),
    ("void f(void) { continue; }", "1 0 C14"),
    ("void f(void) { { break; } }", "1 0 C14"),
    ("void f(int n) { if (n) break; }", "1 0 C14"),
    ("void f(int n) { if (n) ; else continue; }", "1 0 C14"),
    (
        "void f(int n) { while (n) { if (n) break; else continue; } }",
        "ok",
    ),
    ("void f(int n) { while (n) break; }", "ok"),
    ("void f(int n) { do continue; while (n); }", "ok"),
    ("void f(int n) { for (;;) { { continue; } } }", "ok"),
    (
        "void f(int n) { do { break; } while (n);\nbreak; }",
        "2 0 C14",
    ),
    ("void f(int n) { while (n) ;\nbreak; }", "2 0 C14"),
    ("void f(int n) { for (;;) break;\ncontinue; }", "2 0 C14"),
    (
        "void f(int n) { for (int i = 0; i < n; i++) { int j; for (;;) { continue; } break; } }",
        "ok",
    ),
    (
        "void f(int n) { while (n) ; }\nvoid g(int n) { break; }",
        "2 0 C14",
    ),
    ("void f(void) { return 1; }", "1 0 C15"),
    ("int f(void) { return; }", "1 0 C15"),
    ("void f(void) { return; }", "ok"),
    ("int f(void) { }", "ok"),
    (
        "int f(int n) { while (n) { { return; } } return 1; }",
        "1 0 C15",
    ),
    ("int f(int n) { if (n) return 1; else\nreturn; }", "2 0 C15"),
    ("void f(void) {\nreturn x; }", "2 0 C15"),
    ("void f(int *p) {\nreturn p; }", "2 0 C15"),
    ("void g(void); void f(void) { return g(); }", "1 0 C15"),
    ("unsigned char f(long a) { return a; }", "ok"),
    ("void f(int n) { for (;;\nx = 1)\nbreak; break; }", "2 0 C8"),
];

#[test]
fn jumps(rt: HostRuntime) -> Result<(), Fail> {
    compare(&rt, rt.alloc(), &JUMPS)
}
