// Calls of functions.

use crate::reads::{Row, compare};
use std::test::Fail;

static FUNCTIONS: [Row; 8] = [
    Row {
        units: &[
            "int f(int n) { if (n > 2) return n; print(n); }\nvoid g(void) { return; }\nint main(void) { print(f(5)); print(f(1)); g(); }\n",
        ],
        turns: 1000000,
        want: "5 1 0 done",
    },
    Row {
        units: &[
            "int f(signed char c, unsigned short s) { return c * 1000 + s; }\nsigned char h(int x) { return x; }\nint main(void) { print(f(300, -1)); print(h(200)); return 7; }\n",
        ],
        turns: 1000000,
        want: "109535 -56 done",
    },
    Row {
        units: &[
            "int two(int a) { return a + a; }\nint four(int a) { return two(two(a)); }\nint many(int a) { int s = 0; for (int i = 0; i < a; i++) { if (i == 5) return s; s += four(i); } return -1; }\nint main(void) { print(many(3)); print(many(10)); return 0; }\n",
        ],
        turns: 1000000,
        want: "-1 40 done",
    },
    Row {
        units: &[
            "long fib(int n) { long a = 0, b = 1; while (n > 0) { long c = a + b; a = b; b = c; n--; } return a; }\nint main(void) { for (int i = 0; i <= 90; i += 15) print(fib(i)); return 0; }\n",
        ],
        turns: 1000000,
        want: "0 610 832040 1134903170 1548008755920 2111485077978050 2880067194370816120 done",
    },
    Row {
        units: &[
            "int even(unsigned n) { return n % 2 == 0; }\nint collatz(unsigned n) { int k = 0; while (n != 1) { if (even(n)) n /= 2; else n = 3 * n + 1; k++; } return k; }\nint main(void) { print(collatz(27)); print(collatz(97)); return 0; }\n",
        ],
        turns: 1000000,
        want: "111 118 done",
    },
    Row {
        units: &[
            "int f(int a) { { int a = a + 1; print(a); } a = a * 2; return a; }\nint main(void) { print(f(3)); return 0; }\n",
        ],
        turns: 1000000,
        want: "1 6 done",
    },
    Row {
        units: &[
            "void f(int a, int b) { a += b; print(a); b = a; print(b); } int main(void) { int a = 1; f(a, 2); print(a); return 0; }\n",
        ],
        turns: 1000000,
        want: "3 3 1 done",
    },
    Row {
        units: &[
            "int f30(int a) { return a; }\nint f29(int a) { return f30(a) + 1; }\nint f28(int a) { return f29(a) + 1; }\nint f27(int a) { return f28(a) + 1; }\nint f26(int a) { return f27(a) + 1; }\nint f25(int a) { return f26(a) + 1; }\nint f24(int a) { return f25(a) + 1; }\nint f23(int a) { return f24(a) + 1; }\nint f22(int a) { return f23(a) + 1; }\nint f21(int a) { return f22(a) + 1; }\nint f20(int a) { return f21(a) + 1; }\nint f19(int a) { return f20(a) + 1; }\nint f18(int a) { return f19(a) + 1; }\nint f17(int a) { return f18(a) + 1; }\nint f16(int a) { return f17(a) + 1; }\nint f15(int a) { return f16(a) + 1; }\nint f14(int a) { return f15(a) + 1; }\nint f13(int a) { return f14(a) + 1; }\nint f12(int a) { return f13(a) + 1; }\nint f11(int a) { return f12(a) + 1; }\nint f10(int a) { return f11(a) + 1; }\nint f9(int a) { return f10(a) + 1; }\nint f8(int a) { return f9(a) + 1; }\nint f7(int a) { return f8(a) + 1; }\nint f6(int a) { return f7(a) + 1; }\nint f5(int a) { return f6(a) + 1; }\nint f4(int a) { return f5(a) + 1; }\nint f3(int a) { return f4(a) + 1; }\nint f2(int a) { return f3(a) + 1; }\nint f1(int a) { return f2(a) + 1; }\nint f0(int a) { return f1(a) + 1; }\nint main(void) { print(f0(5)); return 0; }\n",
        ],
        turns: 1000000,
        want: "35 done",
    },
];

#[test]
fn functions(rt: HostRuntime) -> Result<(), Fail> {
    compare(&rt, rt.alloc(), &FUNCTIONS)
}
