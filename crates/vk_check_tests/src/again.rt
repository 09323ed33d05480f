// Redeclarations: C13.

use crate::verdict::compare;
use std::test::Fail;
use vk_kinds::Target;

// Functions that are declared again.
static FUNCTIONS: [(&str, &str); 36] = [
    ("int f(int a);\nint f(int b);", "ok"),
    ("int f(int a);\nint f(int);", "ok"),
    ("int f(void);\nint f();", "ok"),
    ("int f(const int a);\nint f(int a);", "ok"),
    ("int f(int *p);\nint f(int p[3]);", "ok"),
    ("int f(int *p);\nint f(int *const restrict p);", "ok"),
    ("int f(int32_t a);\nint f(signed a);", "ok"),
    ("long f(void);\nlong long f(void);", "ok"),
    ("extern int f(void);\nint f(void) { return 1; }", "ok"),
    ("int f(void) { return 1; }\nextern int f(void);", "ok"),
    ("extern int f(void) { return 1; }", "ok"),
    (
        "int f(void);\nint f(void);\nint f(void) { return 1; }\nint f(void);",
        "ok",
    ),
    ("int f(const int *p);\nint f(const int *q);", "ok"),
    ("int f(int a);\nlong f(int a);", "2 0 C13"),
    ("int f(int a);\nunsigned f(int a);", "2 0 C13"),
    ("void f(void);\nint f(void);", "2 0 C13"),
    ("int f(int a);\nint f(long a);", "2 0 C13"),
    ("int f(int a);\nint f(void);", "2 0 C13"),
    ("int f();\nint f(int a);", "2 0 C13"),
    ("int f(int);\nint f(int, int);", "2 0 C13"),
    ("int f(int, long);\nint f(long, int);", "2 0 C13"),
    ("int f(const int *p);\nint f(int *p);", "2 0 C13"),
    ("int f(int *p);\nint f(unsigned *p);", "2 0 C13"),
    ("int f(int *p);\nint f(int a);", "2 0 C13"),
    ("int f(const int *p);\nint f(const int p[]);", "ok"),
    ("int f(int *p);\nint f(const int p[]);", "2 0 C13"),
    ("int f(int a);\nint f;", "2 0 C13"),
    ("int f(int a);\nextern int f;", "2 0 C13"),
    ("int f;\nint f(int a);", "2 0 C13"),
    ("int f[2];\nint f(void);", "2 0 C13"),
    (
        "int f(void) { return 1; }\nint f(void) { return 2; }",
        "2 0 C13",
    ),
    (
        "int f(void) { return 1; }\nint f(void);\nint f(void) { return 2; }",
        "3 0 C13",
    ),
    (
        "int f(void);\nint f(void) { return 1; }\nint f(void) { return 1; }",
        "3 0 C13",
    ),
    ("int f(void);\nlong f(void);\nint f(void);", "2 0 C13"),
    (
        "int f(void) { return 1; }\nint f(int a, int a) { return 1; }",
        "2 0 C13",
    ),
    ("int f(int a, int a);\nlong f(int a);", "1 0 C8"),
];

#[test]
fn functions_declared_again(rt: HostRuntime) -> Result<(), Fail> {
    compare(&rt, rt.alloc(), Target::X86, &FUNCTIONS)
}

// Objects that are declared again.
static OBJECTS: [(&str, &str); 36] = [
    ("extern int x;\nint x;", "ok"),
    ("int x;\nextern int x;", "ok"),
    ("extern int x, x;", "ok"),
    ("extern const int x;\nconst int x = 1;", "ok"),
    ("extern int x;\nint x = 1;\nextern int x;", "ok"),
    ("extern int a[3];\nint a[3];", "ok"),
    ("extern int a[3];\nint a[] = {1, 2, 3};", "ok"),
    ("extern int a[2 + 1];\nint a[3] = {1};", "ok"),
    ("extern long x;\nlong long x;", "ok"),
    ("extern int64_t x;\nlong x;", "ok"),
    ("int x;\nint x;", "2 0 C13"),
    ("int x,\nx;", "2 0 C13"),
    ("int x = 1;\nint x = 1;", "2 0 C13"),
    ("int x = 1;\nint x;", "2 0 C13"),
    ("extern int x;\nint x;\nint x;", "3 0 C13"),
    ("int x;\nextern int x;\nint x;", "3 0 C13"),
    ("int a[2];\nint a[2];", "2 0 C13"),
    ("extern int x;\nextern long x;", "2 0 C13"),
    ("extern int x;\nunsigned x;", "2 0 C13"),
    ("extern int x;\nextern const int x;", "2 0 C13"),
    ("extern const int x;\nint x = 1;", "2 0 C13"),
    ("extern int a[3];\nint a[4];", "2 0 C13"),
    ("extern int a[3];\nint a[] = {1, 2};", "2 0 C13"),
    ("int a[] = {1, 2};\nextern int a[3];", "2 0 C13"),
    ("extern int a[1];\nextern int a;", "2 0 C13"),
    ("extern int a;\nextern int a[1];", "2 0 C13"),
    ("extern long a[3];\nint a[3];", "2 0 C13"),
    ("extern const int a[3];\nint a[3];", "2 0 C13"),
    ("int x(void);\nextern int x;", "2 0 C13"),
    ("extern int a[3];\nint a[0];", "2 0 C12"),
    ("extern int a;\nint a[0];", "2 0 C12"),
    ("extern int a[3];\nint a[] =\n1;", "3 0 C11"),
    ("extern int a[3];\nint a[4] = {1, 2, 3, 4,\n5};", "2 0 C13"),
    ("int x;\nint x = y;", "2 0 C13"),
    ("int x = y;\nint x;", "1 0 C8"),
    ("extern int x;\nextern long x;\nextern int x;", "2 0 C13"),
];

#[test]
fn objects_declared_again(rt: HostRuntime) -> Result<(), Fail> {
    compare(&rt, rt.alloc(), Target::X86, &OBJECTS)
}
