// Numbers in clauses, and clauses that stand twice: D4, D5, D6, D9, D10.

use crate::verdict::compare_clauses;
use std::test::Fail;

// The number of `simdlen`.
static SIMDLENS: [(&str, &str); 35] = [
    ("simdlen(0)", "1 1 D9"),
    ("simdlen(1)", "1 1 D9"),
    ("simdlen(2)", "ok"),
    ("simdlen(3)", "1 1 D9"),
    ("simdlen(4)", "ok"),
    ("simdlen(6)", "1 1 D9"),
    ("simdlen(8)", "ok"),
    ("simdlen(16)", "ok"),
    ("simdlen(32)", "ok"),
    ("simdlen(64)", "ok"),
    ("simdlen(128)", "ok"),
    ("simdlen(255)", "1 1 D9"),
    ("simdlen(256)", "ok"),
    ("simdlen(257)", "1 1 D9"),
    ("simdlen(512)", "1 1 D9"),
    ("simdlen(65536)", "1 1 D9"),
    ("simdlen(-2)", "1 1 D9"),
    ("simdlen(-4)", "1 1 D9"),
    ("simdlen(x)", "1 1 D9"),
    ("simdlen(1 + 1)", "ok"),
    ("simdlen(1 << 8)", "ok"),
    ("simdlen(1 << 9)", "1 1 D9"),
    ("simdlen(4u)", "ok"),
    ("simdlen(0x10)", "ok"),
    ("simdlen(8 / 2)", "ok"),
    ("simdlen(8 / 0)", "1 1 D9"),
    ("simdlen(4294967300)", "1 1 D9"),
    ("simdlen((int)4294967300)", "ok"),
    ("simdlen((unsigned char)260)", "ok"),
    ("simdlen(0 ? 1 / 0 : 4)", "ok"),
    ("simdlen(1 ? 4 : x)", "1 1 D9"),
    ("simdlen(2 > 1 ? 8 : 3)", "ok"),
    ("simdlen(!0 + 1)", "ok"),
    ("simdlen(*p)", "1 1 D9"),
    ("simdlen(f(1))", "1 1 D9"),
];

#[test]
fn numbers_of_simdlen(rt: HostRuntime) -> Result<(), Fail> {
    compare_clauses(&rt, rt.alloc(), &SIMDLENS)
}

// A second `simdlen`, a second branch clause.
static AGAIN: [(&str, &str); 19] = [
    ("simdlen(4) simdlen(4)", "1 1 D4"),
    ("simdlen(4) simdlen(8)", "1 1 D4"),
    ("simdlen(4) simdlen(3)", "1 1 D4"),
    ("simdlen(3) simdlen(4)", "1 1 D9"),
    ("simdlen(3) simdlen(3)", "1 1 D9"),
    ("simdlen(4) inbranch simdlen(8)", "1 1 D4"),
    ("uniform(x) simdlen(x) simdlen(4)", "1 1 D9"),
    ("simdlen() simdlen(4)", "1 1 D1"),
    ("simdlen(4) simdlen()", "1 1 D1"),
    ("inbranch simdlen(4)", "ok"),
    ("inbranch inbranch", "1 1 D5"),
    ("inbranch notinbranch", "1 1 D5"),
    ("notinbranch inbranch", "1 1 D5"),
    ("notinbranch notinbranch", "1 1 D5"),
    ("inbranch, uniform(x), notinbranch", "1 1 D5"),
    ("inbranch(1) notinbranch", "1 1 D1"),
    ("inbranch notinbranch(1)", "1 1 D1"),
    ("simdlen(4) inbranch simdlen(4) inbranch", "1 1 D4"),
    ("simdlen(4) inbranch inbranch simdlen(4)", "1 1 D5"),
];

#[test]
fn clauses_that_stand_twice(rt: HostRuntime) -> Result<(), Fail> {
    compare_clauses(&rt, rt.alloc(), &AGAIN)
}

// The number of `aligned`.
static ALIGNMENTS: [(&str, &str); 28] = [
    ("aligned(p: 0)", "1 1 D10"),
    ("aligned(p: 1)", "ok"),
    ("aligned(p: 2)", "ok"),
    ("aligned(p: 3)", "1 1 D10"),
    ("aligned(p: 4)", "ok"),
    ("aligned(p: 15)", "1 1 D10"),
    ("aligned(p: 16)", "ok"),
    ("aligned(p: 24)", "1 1 D10"),
    ("aligned(p: 4096)", "ok"),
    ("aligned(p: 32768)", "ok"),
    ("aligned(p: 65535)", "1 1 D10"),
    ("aligned(p: 65536)", "ok"),
    ("aligned(p: 65537)", "1 1 D10"),
    ("aligned(p: 131072)", "1 1 D10"),
    ("aligned(p: -16)", "1 1 D10"),
    ("aligned(p: x)", "1 1 D10"),
    ("aligned(p: n)", "1 1 D10"),
    ("aligned(p: 8 * 2)", "ok"),
    ("aligned(p: 1 / 0)", "1 1 D10"),
    ("aligned(p: 4294967312)", "1 1 D10"),
    ("aligned(p: (int)4294967312)", "ok"),
    ("aligned(p: 1 << 16)", "ok"),
    ("aligned(p: 1 << 17)", "1 1 D10"),
    ("aligned(p: f(1))", "1 1 D10"),
    ("uniform(x) aligned(p: x)", "1 1 D10"),
    ("aligned(x: 3)", "1 1 D10"),
    ("aligned(z: 0)", "1 1 D10"),
    ("aligned(p) aligned(q: 0)", "1 1 D10"),
];

#[test]
fn numbers_of_aligned(rt: HostRuntime) -> Result<(), Fail> {
    compare_clauses(&rt, rt.alloc(), &ALIGNMENTS)
}

// Steps that are constants.
static STEPS: [(&str, &str); 31] = [
    ("linear(n: 0)", "1 1 D6"),
    ("linear(n: 1)", "ok"),
    ("linear(n: -1)", "ok"),
    ("linear(n: 3)", "ok"),
    ("linear(n: 2147483647)", "ok"),
    ("linear(n: 2147483648)", "1 1 D6"),
    ("linear(n: -2147483647)", "ok"),
    ("linear(n: -2147483648)", "1 1 D6"),
    ("linear(n: 4294967295)", "1 1 D6"),
    ("linear(n: 4294967297)", "1 1 D6"),
    ("linear(n: (int)4294967297)", "ok"),
    ("linear(n: 2147483647 + 1)", "1 1 D6"),
    ("linear(n: -2147483647 - 1)", "1 1 D6"),
    ("linear(n: -9223372036854775807 - 1)", "1 1 D6"),
    ("linear(n: 18446744073709551615u)", "1 1 D6"),
    ("linear(n: 1 - 1)", "1 1 D6"),
    ("linear(n: 1 / 0)", "1 1 D6"),
    ("linear(n: 1 % 0)", "1 1 D6"),
    ("linear(n: 4 / 2)", "ok"),
    ("linear(n: 1 - 2)", "ok"),
    ("linear(n: 1u - 2)", "1 1 D6"),
    ("linear(n: (signed char)255)", "ok"),
    ("linear(n: (unsigned char)256)", "1 1 D6"),
    ("linear(n: 0 && 1 / 0)", "1 1 D6"),
    ("linear(n: 1 || 1 / 0)", "ok"),
    ("linear(n: ~0)", "ok"),
    ("linear(n: !1)", "1 1 D6"),
    ("linear(n: 0 ? 1 / 0 : 3)", "ok"),
    ("linear(n: 1 ? 3 : x)", "1 1 D6"),
    ("linear(n: f(1))", "1 1 D6"),
    ("linear(n: *p)", "1 1 D6"),
];

#[test]
fn constant_steps(rt: HostRuntime) -> Result<(), Fail> {
    compare_clauses(&rt, rt.alloc(), &STEPS)
}

// Steps of pointers, which count in bytes.
static BYTES: [(&str, &str); 24] = [
    ("linear(r: 2147483647)", "ok"),
    ("linear(r: 2147483648)", "1 1 D6"),
    ("linear(r: -2147483647)", "ok"),
    ("linear(r: -2147483648)", "1 1 D6"),
    ("linear(q: 1073741823)", "ok"),
    ("linear(q: 1073741824)", "1 1 D6"),
    ("linear(q: -1073741823)", "ok"),
    ("linear(q: -1073741824)", "1 1 D6"),
    ("linear(p: 536870911)", "ok"),
    ("linear(p: 536870912)", "1 1 D6"),
    ("linear(p: -536870911)", "ok"),
    ("linear(p: -536870912)", "1 1 D6"),
    ("linear(s: 268435455)", "ok"),
    ("linear(s: 268435456)", "1 1 D6"),
    ("linear(s: -268435455)", "ok"),
    ("linear(s: -268435456)", "1 1 D6"),
    ("linear(n: 536870912)", "ok"),
    ("linear(n, p: 536870911)", "ok"),
    ("linear(n, p: 536870912)", "1 1 D6"),
    ("linear(p: 0)", "1 1 D6"),
    ("linear(val(p): 536870912)", "1 1 D6"),
    ("linear(p: step(536870912))", "1 1 D6"),
    ("linear(p: val, step(536870911))", "ok"),
    ("linear(p: 1 << 29)", "1 1 D6"),
];

#[test]
fn steps_of_pointers(rt: HostRuntime) -> Result<(), Fail> {
    compare_clauses(&rt, rt.alloc(), &BYTES)
}

// Steps that are parameters.
static NAMED: [(&str, &str); 24] = [
    ("uniform(x) linear(n: x)", "ok"),
    ("linear(n: x) uniform(x)", "ok"),
    ("uniform(n) linear(x: n)", "ok"),
    ("uniform(x) linear(p: x)", "ok"),
    ("uniform(x) linear(n, p: x)", "ok"),
    ("uniform(x) linear(n: step(x))", "ok"),
    ("uniform(x) linear(n: val, step(x))", "ok"),
    ("uniform(x) linear(val(n): x)", "ok"),
    ("uniform(x) linear(n: x) linear(p: x)", "ok"),
    ("linear(n: x)", "1 1 D6"),
    ("linear(x) linear(n: x)", "1 1 D6"),
    ("linear(n: n)", "1 1 D6"),
    ("linear(n: step(x))", "1 1 D6"),
    ("linear(n: z)", "1 1 D6"),
    ("linear(n: f)", "1 1 D6"),
    ("uniform(p) linear(n: p)", "1 1 D6"),
    ("uniform(x) linear(n: -x)", "1 1 D6"),
    ("uniform(x) linear(n: x + 0)", "1 1 D6"),
    ("uniform(x) linear(n: x ? 1 : 1)", "1 1 D6"),
    ("uniform(z) linear(n: z)", "1 1 D2"),
    ("linear(n: z) uniform(z)", "1 1 D6"),
    ("uniform(x) linear(x: x)", "1 1 D3"),
    ("linear(x: x) uniform(x)", "1 1 D3"),
    ("uniform(x) linear(n: (long)x)", "1 1 D6"),
];

#[test]
fn steps_by_name(rt: HostRuntime) -> Result<(), Fail> {
    compare_clauses(&rt, rt.alloc(), &NAMED)
}
