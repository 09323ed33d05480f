// Counts and lengths: C16.

use crate::verdict::compare;
use std::alloc::Global;
use std::test::Fail;

// A text between others, so many times.
fn repeated(
    alloc: Global,
    before: &str,
    part: &str,
    times: u32,
    behind: &str,
) -> Result<String, Fail> {
    let mut text = String::new(alloc);
    text.push_str(before)?;
    for _ in 0..times {
        text.push_str(part)?;
    }
    text.push_str(behind)?;
    Ok(text)
}

static ROWS: [(&str, &str, u32, &str, &str); 18] = [
    ("void f(", "int, ", 63, "int);", "ok"),
    ("void f(", "int, ", 64, "int);", "1 0 C16"),
    ("void f(", "int, ", 64, "\nint);", "2 0 C16"),
    ("void f(", "int, ", 64, "\nint a, int a);", "2 0 C16"),
    ("void f(int a, int a, ", "int, ", 64, "\nint);", "1 0 C8"),
    ("int f(int ", "a", 1024, ") { return 1; }", "ok"),
    ("int f(int ", "a", 1025, ") { return 1; }", "1 0 C16"),
    ("int f(int ", "a", 1025, ");", "1 0 C16"),
    ("void f(void) { int ", "a", 1024, "; }", "ok"),
    ("void f(void) { int ", "a", 1025, "; }", "1 0 C16"),
    ("void f(void) { { int ", "a", 1025, "; } }", "1 0 C16"),
    ("void f(void) {\n", "a", 1024, " = 1; }", "2 0 C8"),
    ("void f(void) {\n", "a", 1025, " = 1; }", "2 0 C8"),
    ("void f(void) {\n", "a", 1025, "(); }", "2 0 C8"),
    (
        "void f(void) { for (int ",
        "a",
        1025,
        " = 0; ; ) ; }",
        "1 0 C16",
    ),
    ("void f(void) { b = 1; int ", "a", 1025, "; }", "1 0 C8"),
    ("void f(int b) {\nint b; int ", "a", 1025, "; }", "2 0 C8"),
    ("void f(void) { int b\n= ", "+ ", 60, "c; }", "2 0 C8"),
];

#[test]
fn counts_and_lengths(rt: HostRuntime) -> Result<(), Fail> {
    let alloc = rt.alloc();
    for (before, part, times, behind, want) in &ROWS {
        let text = repeated(alloc, before, part, *times, behind)?;
        compare(&rt, alloc, &[(text.as_str(), *want)])?;
    }
    Ok(())
}
