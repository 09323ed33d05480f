// What is told of a unit.

use std::alloc::Global;
use std::process::Abort;
use std::test::Fail;
use vk_ast::Unit;
use vk_kinds::Target;
use vk_lex::lex;
use vk_parse::parse;
use vk_rules::{CheckFail, check};
use vk_unit_rules::UnitFail;

// The tree of a text.
fn unit_of(alloc: Global, bytes: &[u8]) -> Result<Unit, UnitFail> {
    if bytes.len() > 100000 {
        return Err(UnitFail::Memory);
    }
    let tokens = lex(alloc, bytes)?;
    parse(alloc, &tokens)
}

// The line, the directive and the label of a unit's first fault, or `ok`.
fn verdict(alloc: Global, target: Target, text: &str) -> Result<String, Fail> {
    let Ok(unit) = unit_of(alloc, text.as_bytes()) else {
        return Ok(format!(in alloc; "no unit")?);
    };
    match check(alloc, unit, target) {
        Ok(_) => Ok(format!(in alloc; "ok")?),
        Err(
            CheckFail::Rule {
                line,
                directive,
                rule,
            },
        ) => Ok(format!(in alloc; "{line} {directive} {rule:?}")?),
        Err(CheckFail::Memory) => Ok(format!(in alloc; "no memory")?),
    }
}

/// Compares what is told of a unit, which `row` names, with what is wanted.
pub(crate) fn compare_unit(
    rt: &impl Abort,
    alloc: Global,
    target: Target,
    row: &str,
    text: &str,
    want: &str,
) -> Result<(), Fail> {
    let found = verdict(alloc, target, text)?;
    assert!(rt; found.as_str() == want, "{row}\n{found}");
    Ok(())
}

/// Compares what is told of each unit with what is wanted.
pub(crate) fn compare(
    rt: &impl Abort,
    alloc: Global,
    target: Target,
    rows: &[(&str, &str)],
) -> Result<(), Fail> {
    for (text, want) in rows {
        compare_unit(rt, alloc, target, text, text, want)?;
    }
    Ok(())
}

/// The same for the clauses of a directive of one function.
pub(crate) fn compare_clauses(
    rt: &impl Abort,
    alloc: Global,
    rows: &[(&str, &str)],
) -> Result<(), Fail> {
    for (clauses, want) in rows {
        let text = format!(in alloc;
            "#pragma omp declare simd {clauses}\nlong f(int x, long n, const int *p, short *q, const signed char *r, const long *s);"
        )?;
        compare_unit(rt, alloc, Target::X86, clauses, text.as_str(), want)?;
    }
    Ok(())
}
