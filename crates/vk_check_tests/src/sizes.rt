// Counts, lengths and sizes: C16, C17, C18.

use crate::verdict::compare_unit;
use std::alloc::Global;
use std::process::Abort;
use std::test::Fail;
use vk_kinds::Target;

fn push_times(text: &mut String, part: &str, times: u32) -> Result<(), Fail> {
    for _ in 0..times {
        text.push_str(part)?;
    }
    Ok(())
}

// A part that stands so many times between others.
fn compare_repeated(
    rt: &impl Abort,
    alloc: Global,
    rows: &[(&str, &str, u32, &str, &str)],
) -> Result<(), Fail> {
    for (before, part, times, behind, want) in rows {
        let mut text = String::new(alloc);
        text.push_str(before)?;
        push_times(&mut text, part, *times)?;
        text.push_str(behind)?;
        let row = format!(in alloc; "{before}{part} {times} times {behind}")?;
        compare_unit(rt, alloc, Target::X86, row.as_str(), text.as_str(), want)?;
    }
    Ok(())
}

// Nine directives that give different names.
const NINE: &str = "#pragma omp declare simd inbranch
#pragma omp declare simd notinbranch simdlen(2)
#pragma omp declare simd notinbranch simdlen(4)
#pragma omp declare simd notinbranch simdlen(8)
#pragma omp declare simd notinbranch simdlen(16)
#pragma omp declare simd notinbranch simdlen(32)
#pragma omp declare simd notinbranch simdlen(64)
#pragma omp declare simd notinbranch simdlen(128)
#pragma omp declare simd notinbranch simdlen(256)
";

// A function with nine directives, of so many empty statements.
fn push_function(text: &mut String, head: &str, empties: u32) -> Result<(), Fail> {
    text.push_str(NINE)?;
    text.push_str(head)?;
    push_times(text, ";", empties)?;
    text.push_str("}\n")?;
    Ok(())
}

// Texts before the function `f`, between it and the function `g`, and behind.
fn compare_sums(
    rt: &impl Abort,
    alloc: Global,
    rows: &[(&str, u32, &str, &str, &str)],
) -> Result<(), Fail> {
    for (before, empties, between, behind, want) in rows {
        let mut text = String::new(alloc);
        text.push_str(before)?;
        push_function(&mut text, "void f(void) {", *empties)?;
        text.push_str(between)?;
        push_function(&mut text, "void g(void) {", 1983)?;
        text.push_str(behind)?;
        let row = format!(in alloc; "{before}f of {empties}\n{between}g\n{behind}")?;
        compare_unit(rt, alloc, Target::X86, row.as_str(), text.as_str(), want)?;
    }
    Ok(())
}

// Identifiers of at most 1024 bytes, outside clauses of no form.
static IDENTIFIERS: [(&str, &str, u32, &str, &str); 31] = [
    ("int ", "a", 63, ";", "ok"),
    ("int ", "a", 64, ";", "ok"),
    ("int ", "a", 1024, ";", "ok"),
    ("int ", "a", 1025, ";", "1 0 C16"),
    ("extern int ", "a", 1025, ";", "1 0 C16"),
    ("int x,\n", "a", 1025, "[2];", "2 0 C16"),
    ("int ", "a", 1025, "[0];", "1 0 C12"),
    ("int ", "a", 1025, " =\nx;", "1 0 C16"),
    ("int ", "a", 1024, "(int x);", "ok"),
    ("int ", "a", 1025, "(int x);", "1 0 C16"),
    ("int ", "a", 1025, "(void) { return x; }", "1 0 C16"),
    ("int f(int x,\nint ", "a", 1025, ");", "2 0 C16"),
    ("int x = ", "a", 1025, ";", "1 0 C8"),
    ("int x[", "a", 1025, "];", "1 0 C12"),
    ("int f(int x[", "a", 1025, "]);", "ok"),
    (
        "#pragma omp declare simd uniform(",
        "a",
        1024,
        ")\nint f(int x);",
        "1 1 D2",
    ),
    (
        "#pragma omp declare simd uniform(",
        "a",
        1025,
        ")\nint f(int x);",
        "1 0 C16",
    ),
    (
        "#pragma omp declare simd \\\nuniform(x, ",
        "a",
        1025,
        ")\nint f(int x);",
        "2 0 C16",
    ),
    (
        "#pragma omp declare simd \\\nuniform(x, ",
        "a",
        1024,
        ")\nint f(int x);",
        "1 1 D2",
    ),
    (
        "#pragma omp declare simd uniform(x, x, ",
        "a",
        1025,
        ")\nint f(int x);",
        "1 1 D3",
    ),
    (
        "#pragma omp declare simd uniform(x,, ",
        "a",
        1025,
        ")\nint f(int x);",
        "1 1 D1",
    ),
    (
        "#pragma omp declare simd ",
        "a",
        1025,
        "\nint f(int x);",
        "1 1 D1",
    ),
    (
        "#pragma omp declare simd ",
        "a",
        1025,
        "(x)\nint f(int x);",
        "1 1 D1",
    ),
    (
        "#pragma omp declare simd if(",
        "a",
        1025,
        ")\nint f(int x);",
        "1 1 D1",
    ),
    (
        "#pragma omp declare simd linear(",
        "a",
        1025,
        "(x))\nint f(int x);",
        "1 1 D7",
    ),
    (
        "#pragma omp declare simd linear(x: ",
        "a",
        1025,
        ")\nint f(int x);",
        "1 1 D6",
    ),
    (
        "#pragma omp declare simd simdlen(",
        "a",
        1025,
        ")\nint f(int x);",
        "1 1 D9",
    ),
    (
        "#pragma omp declare simd aligned(",
        "a",
        1025,
        ")\nint f(int *x);",
        "1 0 C16",
    ),
    (
        "#pragma omp declare simd uniform(",
        "a",
        1025,
        ")\nint x;",
        "1 1 D12",
    ),
    (
        "#pragma omp declare simd\n#pragma omp declare simd uniform(",
        "a",
        1025,
        ")\nint f(int x);",
        "2 0 C16",
    ),
    (
        "#pragma omp declare simd uniform(",
        "a",
        1025,
        ") fast\nint f(int x);",
        "1 0 C16",
    ),
];

#[test]
fn identifiers(rt: HostRuntime) -> Result<(), Fail> {
    compare_repeated(&rt, rt.alloc(), &IDENTIFIERS)
}

// At most 64 parameters.
static PARAMETERS: [(&str, &str, u32, &str, &str); 8] = [
    (
        "#pragma omp declare simd\nvoid f(",
        "int, ",
        63,
        "int);",
        "ok",
    ),
    (
        "#pragma omp declare simd\nvoid f(",
        "int, ",
        64,
        "\nint);",
        "3 0 C16",
    ),
    (
        "#pragma omp declare simd simdlen(3)\nvoid f(",
        "int, ",
        64,
        "int);",
        "1 1 D9",
    ),
    (
        "#pragma omp declare simd uniform(z)\nvoid f(",
        "int, ",
        64,
        "int);",
        "1 1 D2",
    ),
    (
        "#pragma omp declare simd uniform(z)\nvoid f(",
        "int, ",
        64,
        "int z);",
        "2 0 C16",
    ),
    (
        "#pragma omp declare simd\n#pragma omp declare simd\nvoid f(",
        "int, ",
        63,
        "int);",
        "2 2 D19",
    ),
    ("int f;\nvoid f(", "int, ", 64, "int);", "2 0 C13"),
    ("void f(int);\nvoid f(", "int, ", 64, "int);", "2 0 C13"),
];

#[test]
fn parameters_counted(rt: HostRuntime) -> Result<(), Fail> {
    compare_repeated(&rt, rt.alloc(), &PARAMETERS)
}

// At most 512 parameters and local variables in a definition.
static VARIABLES: [(&str, &str, u32, &str, &str); 18] = [
    ("void f(void) {", "{int a;}", 512, "}", "ok"),
    ("void\nf(void) {", "{int a;}", 513, "}", "2 0 C18"),
    ("void f(int a, int b) {", "{int a;}", 510, "}", "ok"),
    ("void f(int a, int b) {", "{int a;}", 511, "}", "1 0 C18"),
    ("void f(void) {", "{int a, b;}", 256, "}", "ok"),
    ("void f(void) {", "{int a, b;}", 256, "int a; }", "1 0 C18"),
    (
        "void f(int a) { for (int i; ; ) ; ",
        "{int a, b;}",
        255,
        "}",
        "ok",
    ),
    (
        "void f(int a) { for (int i; ; ) int a; ",
        "{int a, b;}",
        255,
        "}",
        "1 0 C18",
    ),
    (
        "void f(int a) { for (int i, j; ; ) ; ",
        "{int a, b;}",
        255,
        "}",
        "1 0 C18",
    ),
    (
        "void f(int a) { while (a) if (a) int a; else int a; ",
        "{int a, b;}",
        255,
        "}",
        "1 0 C18",
    ),
    (
        "void f(int a) { if (a) int a; ",
        "{int a, b;}",
        255,
        "}",
        "ok",
    ),
    (
        "void f(void);\nvoid f(void) {",
        "{int a;}",
        513,
        "}",
        "2 0 C18",
    ),
    ("void f(void) { x = 1; ", "{int a;}", 513, "}", "1 0 C18"),
    ("void f(int a,\nint a) {", "{int a;}", 513, "}", "1 0 C18"),
    ("int f;\nvoid f(void) {", "{int a;}", 513, "}", "2 0 C13"),
    ("int x = y;\nvoid f(void) {", "{int a;}", 513, "}", "1 0 C8"),
    (
        "#pragma omp declare simd fast\nvoid f(void) {",
        "{int a;}",
        513,
        "}",
        "1 1 D1",
    ),
    (
        "#pragma omp declare simd\nvoid f(void) {",
        "{int a;}",
        513,
        "}",
        "2 0 C18",
    ),
];

#[test]
fn variables_counted(rt: HostRuntime) -> Result<(), Fail> {
    compare_repeated(&rt, rt.alloc(), &VARIABLES)
}

// At most 2000 nodes in a definition.
static NODES: [(&str, &str, u32, &str, &str); 20] = [
    ("void f(void) {", ";", 1999, "}", "ok"),
    ("void f(void) {", ";", 2000, "}", "1 0 C18"),
    ("void f(int a) {", ";", 1998, "}", "ok"),
    ("void f(int a) {", ";", 1999, "}", "1 0 C18"),
    ("void f(const int *p, int a) {", ";", 1997, "}", "ok"),
    ("void f(const int *p, int a) {", ";", 1998, "}", "1 0 C18"),
    ("void f(void) {", "1;", 999, ";}", "ok"),
    ("void f(void) {", "1;", 1000, "}", "1 0 C18"),
    ("void f(void) {", "(1);", 999, ";}", "ok"),
    ("void f(void) { int a; ", "a++;", 665, ";}", "ok"),
    ("void f(void) { int a; ", "a++;", 665, ";;}", "ok"),
    ("void f(void) { int a; ", "a++;", 666, "}", "1 0 C18"),
    ("void f(void) {", "for (; ; ) ;", 499, ";;;}", "ok"),
    ("void f(void) {", "for (; ; ) ;", 499, ";;;;}", "1 0 C18"),
    ("int a[2];\nvoid f(void) {", "a[1];", 499, ";;;}", "ok"),
    (
        "int a[2];\nvoid f(void) {",
        "a[1];",
        499,
        ";;;;}",
        "2 0 C18",
    ),
    ("void f(int a) {", "if (a) ; else ;", 499, ";;}", "ok"),
    ("void f(int a) {", "if (a) ; else ;", 499, ";;;}", "1 0 C18"),
    ("void f(void) { int a; ", "print(a + 1);", 399, ";;}", "ok"),
    (
        "void f(void) { int a; ",
        "print(a + 1);",
        399,
        ";;;}",
        "1 0 C18",
    ),
];

#[test]
fn nodes_counted(rt: HostRuntime) -> Result<(), Fail> {
    compare_repeated(&rt, rt.alloc(), &NODES)
}

// The sum over the functions is at most 40000. Here `g` adds 20000, and `f` ten times 17 and the number of its empty statements.
static SUMS: [(&str, u32, &str, &str, &str); 23] = [
    ("", 1983, "", "", "ok"),
    ("", 1984, "", "", "20 0 C17"),
    ("", 1983, "", "void h(void);", "ok"),
    ("", 1983, "", "void h(int);", "21 0 C17"),
    (
        "",
        1983,
        "",
        "void h(void);\nvoid k(int a,\nint b);",
        "22 0 C17",
    ),
    ("", 1983, "", "void f(void);\nvoid g(void);", "ok"),
    ("", 1983, "", "int x[16777216];\nextern int y;", "ok"),
    ("", 1983, "", "void print(long);", "ok"),
    ("", 1983, "", "void h(void) { }", "21 0 C17"),
    ("void h(int);\n", 1983, "", "", "21 0 C17"),
    ("void h(void);\n", 1983, "", "", "ok"),
    ("void h(void);\n", 1983, "", "void h(void) { }", "21 0 C17"),
    ("void print(long);\n", 1983, "", "", "ok"),
    ("int x[2] = {1, 2};\n", 1983, "", "", "ok"),
    ("", 1983, "void h(int);\n", "", "21 0 C17"),
    ("", 1983, "void h(void);\n", "void h(void) { }", "21 0 C17"),
    ("void g(void);\n", 1983, "", "", "12 10 D17"),
    (
        "",
        1982,
        "",
        "void h(int, int, int, int, int, int, int, int, int, int);",
        "ok",
    ),
    (
        "",
        1982,
        "",
        "void h(int, int, int, int, int, int, int, int, int, int, int);",
        "21 0 C17",
    ),
    (
        "",
        1982,
        "",
        "#pragma omp declare simd\nvoid h(int, int, int, int, int);",
        "ok",
    ),
    (
        "",
        1982,
        "",
        "#pragma omp declare simd\nvoid h(int, int, int, int, int, int);",
        "22 0 C17",
    ),
    (
        "",
        1982,
        "",
        "#pragma omp declare simd inbranch\n#pragma omp declare simd notinbranch\nvoid h(int, int, int);",
        "ok",
    ),
    (
        "",
        1982,
        "",
        "#pragma omp declare simd inbranch\n#pragma omp declare simd notinbranch\nvoid h(int, int, int, int);",
        "23 0 C17",
    ),
];

#[test]
fn sums(rt: HostRuntime) -> Result<(), Fail> {
    compare_sums(&rt, rt.alloc(), &SUMS)
}

// The sum goes by first declarations, each with the nodes of the definition; other rules beside it.
static FIRSTS: [(&str, u32, &str, &str, &str); 21] = [
    ("", 1982, "", "void h(int);\nvoid h(int a);", "ok"),
    (
        "",
        1982,
        "",
        "void h(int);\n\nvoid h(int a) { }",
        "21 0 C17",
    ),
    ("", 1981, "", "void h(int);\nvoid h(int a) { ;; }", "ok"),
    (
        "",
        1981,
        "",
        "void h(int);\nvoid h(int a) { ;;; }",
        "21 0 C17",
    ),
    (
        "",
        1981,
        "",
        "void k(void);\nvoid h(void) { }\nvoid k(void) { }",
        "22 0 C17",
    ),
    (
        "",
        1981,
        "",
        "#pragma omp declare simd\nvoid h(int);\nvoid h(int a) { }",
        "22 0 C17",
    ),
    (
        "",
        1979,
        "",
        "#pragma omp declare simd\nvoid h(int);\nvoid h(int a) { ; }",
        "ok",
    ),
    (
        "",
        1979,
        "",
        "#pragma omp declare simd\nvoid h(int);\nvoid h(int a) { ;; }",
        "ok",
    ),
    (
        "",
        1979,
        "",
        "#pragma omp declare simd\nvoid h(int);\nvoid h(int a) { ;;; }",
        "22 0 C17",
    ),
    ("", 1983, "", "void h(int a);\nint x = y;", "21 0 C17"),
    ("int x = y;\n", 1983, "", "void h(int a);", "1 0 C8"),
    ("", 1983, "", "int f;", "21 0 C13"),
    ("", 1983, "", "int g;\nvoid h(int a);", "21 0 C13"),
    ("", 1983, "", "void main(int a);", "21 0 C8"),
    (
        "",
        1983,
        "",
        "#pragma omp declare simd fast\nvoid h(int a);",
        "21 19 D1",
    ),
    ("", 1983, "", "void h(int a,\nint a);", "21 0 C17"),
    ("", 1983, "", "void h(int a) { return 1; }", "21 0 C17"),
    ("", 2000, "", "", "10 0 C18"),
    ("", 1999, "", "", "20 0 C17"),
    ("", 4000, "", "", "10 0 C17"),
    ("int g(int a);\n", 1983, "", "", "21 0 C13"),
];

#[test]
fn sums_by_first_declarations(rt: HostRuntime) -> Result<(), Fail> {
    compare_sums(&rt, rt.alloc(), &FIRSTS)
}
