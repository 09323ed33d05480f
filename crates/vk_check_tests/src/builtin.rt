// The names `print` and `main`: C8.

use crate::verdict::compare;
use std::test::Fail;
use vk_kinds::Target;

// Declarations of `print`.
static PRINT: [(&str, &str); 30] = [
    ("void print(long);", "ok"),
    ("void print(long x);", "ok"),
    ("void print(const long x);", "ok"),
    ("extern void print(long);", "ok"),
    ("void print(long int);", "ok"),
    ("void print(long long);", "ok"),
    ("void print(int64_t);", "ok"),
    ("void print(long);\nvoid print(long x);", "ok"),
    ("void print(int);", "1 0 C8"),
    ("void print(unsigned long);", "1 0 C8"),
    ("void print(const long *p);", "1 0 C8"),
    ("void print(long p[2]);", "1 0 C8"),
    ("void print(void);", "1 0 C8"),
    ("void print();", "1 0 C8"),
    ("void print(long, long);", "1 0 C8"),
    ("int print(long);", "1 0 C8"),
    ("long print(long);", "1 0 C8"),
    ("void print(long x) { }", "1 0 C8"),
    ("int print;", "1 0 C8"),
    ("extern int print;", "1 0 C8"),
    ("long print[2];", "1 0 C8"),
    ("int x,\nprint;", "2 0 C8"),
    ("#pragma omp declare simd\nvoid print(long);", "2 0 C8"),
    (
        "void print(long);\n#pragma omp declare simd\nvoid print(long);",
        "3 0 C8",
    ),
    ("void print(long);\nint print(long);", "2 0 C8"),
    ("#pragma omp declare simd fast\nvoid print(long);", "1 1 D1"),
    ("int print[0];", "1 0 C8"),
    ("int print =\ny;", "1 0 C8"),
    ("int prints(int a);", "ok"),
    ("int Print;", "ok"),
];

#[test]
fn declarations_of_print(rt: HostRuntime) -> Result<(), Fail> {
    compare(&rt, rt.alloc(), Target::X86, &PRINT)
}

// Declarations of `main`.
static MAIN: [(&str, &str); 23] = [
    ("int main(void);", "ok"),
    ("int main();", "ok"),
    ("int main(void) { return 0; }", "ok"),
    ("int main() { return 0; }", "ok"),
    ("extern int main(void);", "ok"),
    ("signed main(void);", "ok"),
    ("int32_t main(void);", "ok"),
    ("int main(void);\nint main() { return 0; }", "ok"),
    ("int main(int argc);", "1 0 C8"),
    ("int main(int);", "1 0 C8"),
    ("void main(void);", "1 0 C8"),
    ("long main(void);", "1 0 C8"),
    ("unsigned main(void);", "1 0 C8"),
    ("short main();", "1 0 C8"),
    ("int main;", "1 0 C8"),
    ("extern int main;", "1 0 C8"),
    ("int main[2] = {1};", "1 0 C8"),
    ("#pragma omp declare simd\nint main(void);", "2 0 C8"),
    (
        "#pragma omp declare simd\nint main(void) { return 0; }",
        "2 0 C8",
    ),
    (
        "int main(void) { return 0; }\nint main(void) { return 0; }",
        "2 0 C13",
    ),
    ("int main(void);\nint main(int a);", "2 0 C8"),
    ("int main(void) { return x; }", "1 0 C8"),
    ("int main1(int a);", "ok"),
];

#[test]
fn declarations_of_main(rt: HostRuntime) -> Result<(), Fail> {
    compare(&rt, rt.alloc(), Target::X86, &MAIN)
}
