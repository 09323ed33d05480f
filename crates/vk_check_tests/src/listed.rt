// Names that clauses list: D2, D3, D8, D13, D14.

use crate::verdict::compare_clauses;
use std::test::Fail;

// Names that are no parameters, or pointers where these may not stand.
static PARAMETERS: [(&str, &str); 26] = [
    ("uniform(x, n, p, r, s)", "ok"),
    ("linear(x, n, p, q)", "ok"),
    ("aligned(p, q, r, s)", "ok"),
    ("uniform(z)", "1 1 D2"),
    ("linear(z)", "1 1 D2"),
    ("aligned(z)", "1 1 D2"),
    ("uniform(x, z)", "1 1 D2"),
    ("uniform(f)", "1 1 D2"),
    ("uniform(simdlen)", "1 1 D2"),
    ("linear(n) linear(z)", "1 1 D2"),
    ("linear(val(z))", "1 1 D2"),
    ("linear(z: 536870912)", "1 1 D2"),
    ("aligned(x)", "1 1 D8"),
    ("aligned(n)", "1 1 D8"),
    ("aligned(p, x)", "1 1 D8"),
    ("aligned(x, x)", "1 1 D8"),
    ("uniform(x) aligned(x)", "1 1 D8"),
    ("uniform(q)", "1 1 D14"),
    ("uniform(x, q)", "1 1 D14"),
    ("uniform(q, q)", "1 1 D14"),
    ("linear(q: 2)", "ok"),
    ("uniform(p)", "ok"),
    ("uniform(q) aligned(q)", "1 1 D14"),
    ("aligned(q) uniform(q)", "1 1 D14"),
    ("aligned(z, x)", "1 1 D2"),
    ("aligned(x, z)", "1 1 D8"),
];

#[test]
fn parameters_listed(rt: HostRuntime) -> Result<(), Fail> {
    compare_clauses(&rt, rt.alloc(), &PARAMETERS)
}

// Names that are listed twice.
static TWICE: [(&str, &str); 26] = [
    ("uniform(x, x)", "1 1 D3"),
    ("uniform(x) uniform(x)", "1 1 D3"),
    ("uniform(x) linear(x)", "1 1 D3"),
    ("linear(x) uniform(x)", "1 1 D3"),
    ("linear(n, n)", "1 1 D3"),
    ("linear(n) linear(n)", "1 1 D3"),
    ("linear(n: 1) linear(n: 2)", "1 1 D3"),
    ("linear(val(n)) linear(n)", "1 1 D3"),
    ("uniform(x, n, x)", "1 1 D3"),
    ("uniform(x) simdlen(4) linear(n) linear(x)", "1 1 D3"),
    ("linear(q) uniform(q)", "1 1 D3"),
    ("uniform(z, z)", "1 1 D2"),
    ("uniform(x) linear(n) aligned(p)", "ok"),
    ("uniform(p) aligned(p)", "ok"),
    ("aligned(p) uniform(p)", "ok"),
    ("linear(p) aligned(p)", "ok"),
    ("linear(p: 4) aligned(p: 4)", "ok"),
    ("aligned(p) uniform(p) linear(p)", "1 1 D3"),
    ("aligned(p, p)", "1 1 D13"),
    ("aligned(p) aligned(p)", "1 1 D13"),
    ("aligned(p: 16) aligned(p: 32)", "1 1 D13"),
    ("aligned(p) aligned(q)", "ok"),
    ("aligned(p, q, p)", "1 1 D13"),
    ("aligned(p) uniform(p) aligned(p)", "1 1 D13"),
    ("aligned(p) aligned(p: 3)", "1 1 D10"),
    ("aligned(z, z)", "1 1 D2"),
];

#[test]
fn names_listed_twice(rt: HostRuntime) -> Result<(), Fail> {
    compare_clauses(&rt, rt.alloc(), &TWICE)
}
