//! Units of the form.

pub(super) const PRODUCT: &str =
    "#pragma omp declare simd notinbranch\nint f(int a, int b) { return a * b + 1; }\n";

pub(super) const DIFFERENCE: &str =
    "#pragma omp declare simd notinbranch\nint f(int a, int b) { return a - b - 3 * a; }\n";

pub(super) const SELF: &str = "#pragma omp declare simd notinbranch\nint f(int a) { return a; }\n";

pub(super) const EIGHT: &str =
    "#pragma omp declare simd notinbranch\nint i(int a, int b, int c, int d, int e, int f, int g, int h) { return a - b + c - d + e - f + g - h; }\n";

pub(super) const SEVEN: &str = "#pragma omp declare simd notinbranch\nint f(int a) { return 7; }\n";

pub(super) const NEXT: &str =
    "#pragma omp declare simd notinbranch\nint f(int a) { return a + 1; }\n";

pub(super) const PREVIOUS: &str =
    "#pragma omp declare simd notinbranch\nint f(int a) { return a - 1; }\n";

pub(super) const NEGATED: &str =
    "#pragma omp declare simd notinbranch\nint f(int a) { return 0 - a; }\n";

pub(super) const SQUARE: &str =
    "#pragma omp declare simd notinbranch\nint f(int a) { return a * a; }\n";

pub(super) const TOP: &str =
    "#pragma omp declare simd notinbranch\nint f(int a) { return 2147483647 + 1; }\n";

pub(super) const POWER: &str =
    "#pragma omp declare simd notinbranch\nint f(int a) { return 65536 * 65536; }\n";
