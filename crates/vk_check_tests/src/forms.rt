// Clauses and their forms: D1, D7, D11.

use crate::verdict::compare_clauses;
use std::test::Fail;

// Clauses of a form.
static CLAUSES: [(&str, &str); 15] = [
    ("", "ok"),
    ("inbranch", "ok"),
    ("notinbranch", "ok"),
    ("simdlen(4)", "ok"),
    ("uniform(x)", "ok"),
    ("uniform(x, n)", "ok"),
    ("uniform(x) linear(n)", "ok"),
    ("uniform(x), linear(n)", "ok"),
    (", uniform(x)", "ok"),
    ("aligned(p)", "ok"),
    ("aligned(p: 16)", "ok"),
    ("aligned(p, q: 16)", "ok"),
    ("linear(n)", "ok"),
    ("linear(x, n: 2)", "ok"),
    (
        "notinbranch, simdlen(4) uniform(x), linear(n: 2) aligned(p: 16)",
        "ok",
    ),
];

#[test]
fn clauses_of_a_form(rt: HostRuntime) -> Result<(), Fail> {
    compare_clauses(&rt, rt.alloc(), &CLAUSES)
}

// Clauses of no form.
static OTHERS: [(&str, &str); 26] = [
    ("fast", "1 1 D1"),
    ("safelen(4)", "1 1 D1"),
    ("if(1)", "1 1 D1"),
    ("4", "1 1 D1"),
    ("inbranch()", "1 1 D1"),
    ("notinbranch(x)", "1 1 D1"),
    ("inbranch,", "1 1 D1"),
    ("inbranch,, simdlen(4)", "1 1 D1"),
    ("simdlen", "1 1 D1"),
    ("simdlen 4", "1 1 D1"),
    ("simdlen()", "1 1 D1"),
    ("simdlen(4", "1 1 D1"),
    ("simdlen(4, 8)", "1 1 D1"),
    ("simdlen(4;)", "1 1 D1"),
    ("simdlen(x = 4)", "1 1 D1"),
    ("simdlen(int)", "1 1 D1"),
    ("simdlen(4) fast", "1 1 D1"),
    ("uniform", "1 1 D1"),
    ("uniform()", "1 1 D1"),
    ("uniform(x,)", "1 1 D1"),
    ("uniform(x n)", "1 1 D1"),
    ("uniform(x: 1)", "1 1 D1"),
    ("uniform(3)", "1 1 D1"),
    ("uniform(int)", "1 1 D1"),
    ("uniform[x]", "1 1 D1"),
    ("uniform(x))", "1 1 D1"),
];

#[test]
fn clauses_of_no_form(rt: HostRuntime) -> Result<(), Fail> {
    compare_clauses(&rt, rt.alloc(), &OTHERS)
}

// Lists of no form.
static LISTS: [(&str, &str); 26] = [
    ("aligned", "1 1 D1"),
    ("aligned()", "1 1 D1"),
    ("aligned(: 16)", "1 1 D1"),
    ("aligned(p:)", "1 1 D1"),
    ("aligned(p: 8, 16)", "1 1 D1"),
    ("aligned(p: 16: 4)", "1 1 D1"),
    ("linear", "1 1 D1"),
    ("linear()", "1 1 D1"),
    ("linear(n:)", "1 1 D1"),
    ("linear(n x)", "1 1 D1"),
    ("linear(n: -)", "1 1 D1"),
    ("linear(n: 2: 3)", "1 1 D1"),
    ("linear(n: 2, 3)", "1 1 D1"),
    ("linear(n: 2, val)", "1 1 D1"),
    ("linear(n: val,)", "1 1 D1"),
    ("linear(n: , val)", "1 1 D1"),
    ("linear(n: val val)", "1 1 D1"),
    ("linear(n: val(2))", "1 1 D1"),
    ("linear(n: val + 1)", "1 1 D1"),
    ("linear(n: foo(1), val)", "1 1 D1"),
    ("linear(val n)", "1 1 D1"),
    ("linear(val())", "1 1 D1"),
    ("linear(val(n), x)", "1 1 D1"),
    ("linear(val(n): val)", "1 1 D1"),
    ("linear(val(n): step(2))", "1 1 D1"),
    ("linear(val(n)", "1 1 D1"),
];

#[test]
fn lists_of_no_form(rt: HostRuntime) -> Result<(), Fail> {
    compare_clauses(&rt, rt.alloc(), &LISTS)
}

// Modifiers of `linear`.
static MODIFIERS: [(&str, &str); 37] = [
    ("linear(n: val)", "ok"),
    ("linear(n: val, step(2))", "ok"),
    ("linear(n: step(2), val)", "ok"),
    ("linear(n: step(2))", "ok"),
    ("linear(val(n))", "ok"),
    ("linear(val(n): 2)", "ok"),
    ("linear(val(x, n): -2)", "ok"),
    ("linear(val)", "1 1 D2"),
    ("linear(foo(n))", "1 1 D7"),
    ("linear(step(n))", "1 1 D7"),
    ("linear(foo(n): 2)", "1 1 D7"),
    ("linear(n: foo, step(2))", "1 1 D7"),
    ("linear(n: foo, val)", "1 1 D7"),
    ("linear(n: val, foo)", "1 1 D7"),
    ("linear(n: val, val)", "1 1 D7"),
    ("linear(n: val, ref)", "1 1 D7"),
    ("linear(n: ref, uval)", "1 1 D7"),
    ("linear(n: step(2), step(2))", "1 1 D7"),
    ("linear(n: step(2), step(0))", "1 1 D7"),
    ("linear(n: step(0), step(2))", "1 1 D6"),
    ("linear(n: foo, step(0))", "1 1 D6"),
    ("linear(foo(n): 0)", "1 1 D6"),
    ("linear(ref(n))", "1 1 D11"),
    ("linear(uval(n))", "1 1 D11"),
    ("linear(ref(n): 2)", "1 1 D11"),
    ("linear(ref(n): 0)", "1 1 D6"),
    ("linear(n: ref)", "1 1 D11"),
    ("linear(n: uval)", "1 1 D11"),
    ("linear(n: ref, step(2))", "1 1 D11"),
    ("linear(n: step(2), uval)", "1 1 D11"),
    ("linear(n: step(0), uval)", "1 1 D6"),
    ("linear(ref(z))", "1 1 D11"),
    ("uniform(x) linear(ref(x))", "1 1 D11"),
    ("linear(n: step)", "1 1 D6"),
    ("linear(n: step + 1)", "1 1 D6"),
    ("linear(n: foo)", "1 1 D6"),
    ("linear(n: foo(1))", "1 1 D6"),
];

#[test]
fn modifiers(rt: HostRuntime) -> Result<(), Fail> {
    compare_clauses(&rt, rt.alloc(), &MODIFIERS)
}
