// What is told of a unit.

use std::alloc::{AllocError, Global};
use std::process::Abort;
use std::test::Fail;
use vk_ast::Unit;
use vk_kinds::Target;
use vk_lex::lex;
use vk_parse::parse;
use vk_rules_book::Fault;
use vk_rules_functions::judge_functions;
use vk_rules_names::Note;
use vk_unit_rules::UnitFail;

/// The tree of a text.
pub(crate) fn unit_of(alloc: Global, bytes: &[u8]) -> Result<Unit, UnitFail> {
    if bytes.len() > 100000 {
        return Err(UnitFail::Memory);
    }
    let tokens = lex(alloc, bytes)?;
    parse(alloc, &tokens)
}

fn shown(alloc: Global, fault: Option<Fault>) -> Result<String, AllocError> {
    match fault {
        Some(f) => format!(in alloc; "{} {} {:?}", f.line, f.directive, f.rule),
        None => format!(in alloc; "ok"),
    }
}

// The line, the directive and the label of the first fault in a unit's functions, or `ok`.
fn verdict(alloc: Global, text: &str) -> Result<String, Fail> {
    let Ok(unit) = unit_of(alloc, text.as_bytes()) else {
        return Ok(format!(in alloc; "no unit")?);
    };
    let mut note = Note { first: None };
    judge_functions(alloc, Target::X86, &unit.names, &unit.items, &mut note).map_err(
        |_| "no memory",
    )?;
    Ok(shown(alloc, note.first)?)
}

/// Compares what is told of each unit with what is wanted.
pub(crate) fn compare(rt: &impl Abort, alloc: Global, rows: &[(&str, &str)]) -> Result<(), Fail> {
    for (text, want) in rows {
        let found = verdict(alloc, text)?;
        assert!(rt; found.as_str() == *want, "{text}\n{found}");
    }
    Ok(())
}
