// Objects at file scope, their lengths and initialisers: C11, C12.

use crate::verdict::compare;
use std::test::Fail;
use vk_kinds::Target;

// Initialisers of scalars.
static SCALARS: [(&str, &str); 35] = [
    ("int x = 1;", "ok"),
    ("const int x = 1;", "ok"),
    ("int x;", "ok"),
    ("extern int x;", "ok"),
    ("unsigned char c = 300;", "ok"),
    ("int x = (2 + 3) * ~4 - (0 ? 1 / 0 : 7);", "ok"),
    ("int x = 2147483648;", "ok"),
    ("int x = y;", "1 0 C8"),
    ("int y; int x =\ny;", "2 0 C11"),
    ("int x =\nx;", "2 0 C11"),
    ("const int n = 1; int x =\nn;", "2 0 C11"),
    ("int f(void); int x =\nf();", "2 0 C11"),
    ("int x =\n1 / 0;", "2 0 C11"),
    ("int x = 1 % (2 - 2);", "1 0 C11"),
    ("int x =\n{1};", "2 0 C11"),
    ("int x = {\n1};", "1 0 C11"),
    ("int x = {};", "1 0 C11"),
    ("extern int x =\n1;", "2 0 C11"),
    ("extern int x = y;", "1 0 C8"),
    ("extern const int x = 1;", "1 0 C11"),
    ("extern int x =\n{1};", "2 0 C11"),
    ("int y; int x =\n1 +\ny;", "2 0 C11"),
    ("int x = 1 +\ny;", "1 0 C11"),
    ("int x =\ny + 1;", "2 0 C8"),
    ("int x = 0 &&\ny;", "1 0 C11"),
    ("int x =\n(\n1 ? 2 : y);", "3 0 C11"),
    ("int y; int x =\n(\n1) + y;", "2 0 C11"),
    ("int y; int x = &y;", "1 0 C9"),
    ("int f(void); int x = f;", "1 0 C9"),
    ("void g(void); int x = g();", "1 0 C9"),
    ("int a[2]; int x = a;", "1 0 C9"),
    ("int y; int x = *&y;", "1 0 C11"),
    ("int x = &\n1;", "1 0 C11"),
    ("int x = 1, y =\nx;", "2 0 C11"),
    ("int x = print;", "1 0 C9"),
];

#[test]
fn initialisers_of_scalars(rt: HostRuntime) -> Result<(), Fail> {
    compare(&rt, rt.alloc(), Target::X86, &SCALARS)
}

// Initialisers of arrays.
static ARRAYS: [(&str, &str); 25] = [
    ("int a[2] = {1, 2};", "ok"),
    ("int a[2] = {1, 2,};", "ok"),
    ("int a[2] = {1};", "ok"),
    ("int a[2] = {};", "ok"),
    ("int a[] = {1};", "ok"),
    ("const int a[] = {1, 2, 3};", "ok"),
    ("int a[1 + 1] = {~0, !0};", "ok"),
    ("int a[2] = {1, 2,\n3};", "2 0 C11"),
    ("int a[2] = {1,\n2,\n3,\n4};", "3 0 C11"),
    ("int a[1] = {1,\n1 / 0};", "2 0 C11"),
    ("int a[2] =\n1;", "2 0 C11"),
    ("int a[] =\n1;", "2 0 C11"),
    ("int a[] =\na;", "2 0 C9"),
    ("int y; int a[2] = {1,\ny};", "2 0 C11"),
    ("int a[2] = {1,\ny};", "2 0 C8"),
    ("int y; int a[2] = {y,\nz};", "1 0 C11"),
    ("int a[2] = {1 / 0,\n2, 3};", "1 0 C11"),
    ("int y; int a[1] = {1,\ny};", "2 0 C11"),
    ("extern int a[2] =\n{1};", "2 0 C11"),
    ("extern int a[2] = {\ny};", "1 0 C11"),
    ("int a[2] = {a[0]};", "1 0 C11"),
    ("int a[2] = {1, &a[0]};", "1 0 C9"),
    ("int a[2] = {&x};", "1 0 C11"),
    ("int a[2] = {b,\n1,\n2};", "1 0 C8"),
    ("int x, a[1] = {\nx};", "2 0 C11"),
];

#[test]
fn initialisers_of_arrays(rt: HostRuntime) -> Result<(), Fail> {
    compare(&rt, rt.alloc(), Target::X86, &ARRAYS)
}

// Lengths of arrays.
static LENGTHS: [(&str, &str); 31] = [
    ("int a[1];", "ok"),
    ("int a[16777216];", "ok"),
    ("long a[16777216];", "ok"),
    ("int a[4096 * 4096];", "ok"),
    ("int a[2u];", "ok"),
    ("int a[0 ? 1 / 0 : 2];", "ok"),
    ("int a[(int)4294967297];", "ok"),
    ("extern int a[3];", "ok"),
    ("int a[0];", "1 0 C12"),
    ("int a[-1];", "1 0 C12"),
    ("int a[16777217];", "1 0 C12"),
    ("extern int a[16777217];", "1 0 C12"),
    ("int a[4294967297];", "1 0 C12"),
    ("int a[18446744073709551615u];", "1 0 C12"),
    ("int a[1 / 0];", "1 0 C12"),
    ("int a[1 - 1];", "1 0 C12"),
    ("int a[-2147483648];", "1 0 C12"),
    ("int a[];", "1 0 C12"),
    ("extern int a[];", "1 0 C12"),
    ("int a[] = {};", "1 0 C12"),
    ("int\na[\nn];", "2 0 C12"),
    ("int n; int a[n];", "1 0 C12"),
    ("const int n = 2; int a[n];", "1 0 C12"),
    ("int a[\n0];", "1 0 C12"),
    ("int a[3], b[2],\nc[0];", "2 0 C12"),
    ("int a[0] = {1};", "1 0 C12"),
    ("int a[0] =\n1;", "1 0 C12"),
    ("int a[n] = {\nm};", "1 0 C12"),
    ("int f(int a[0]);", "ok"),
    ("int f(int a[n]);", "ok"),
    ("int f(int a[16777217]) { return a[0]; }", "ok"),
];

#[test]
fn lengths_of_arrays(rt: HostRuntime) -> Result<(), Fail> {
    compare(&rt, rt.alloc(), Target::X86, &LENGTHS)
}
