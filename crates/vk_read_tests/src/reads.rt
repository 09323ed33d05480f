// The reading of programs from their texts.

use std::alloc::Global;
use std::process::Abort;
use std::test::Fail;
use vk_ast::Unit;
use vk_io::{MemSink, Memory};
use vk_kinds::Target;
use vk_lex::lex;
use vk_meaning::{Reading, RunFail};
use vk_parse::parse;
use vk_reading_programs::read_program;
use vk_rules::{Checked, check};
use vk_unit_rules::UnitFail;

/// A program, how many turns a loop may make, and what it prints, each number and then its end.
pub(crate) struct Row {
    pub(crate) units: &'static [&'static str],
    pub(crate) turns: u32,
    pub(crate) want: &'static str,
}

// The tree of a text.
fn unit_of(alloc: Global, bytes: &[u8]) -> Result<Unit, UnitFail> {
    if bytes.len() > 100000 {
        return Err(UnitFail::Memory);
    }
    let tokens = lex(alloc, bytes)?;
    parse(alloc, &tokens)
}

/// The units of a program, none where one of them breaks a rule.
pub(crate) fn units_of(alloc: Global, texts: &[&str]) -> Result<Option<Vec<Checked>>, Memory> {
    let mut units = Vec::new(alloc);
    for text in texts {
        let Ok(unit) = unit_of(alloc, text.as_bytes()) else {
            return Ok(None);
        };
        let Ok(checked) = check(alloc, unit, Target::X86) else {
            return Ok(None);
        };
        units.push(checked)?;
    }
    Ok(Some(units))
}

/// How a reading ends, as a word.
pub(crate) fn end_of(end: Result<Reading, RunFail>) -> &'static str {
    match end {
        Ok(Reading::Done) => "done",
        Ok(Reading::Stopped(stop)) => match stop {
            vk_types::Stop::Divide => "divide",
            vk_types::Stop::Bounds => "bounds",
            vk_types::Stop::Turns => "turns",
        },
        Err(RunFail::Write) => "write",
        Err(RunFail::Memory) => "memory",
    }
}

/// What a program prints, each number with a blank behind it, and how it ends.
pub(crate) fn reading_of(alloc: Global, texts: &[&str], turns: u32) -> Result<Vec<u8>, Memory> {
    let mut text = Vec::new(alloc);
    let Some(units) = units_of(alloc, texts)? else {
        text.extend_from_slice(b"refused")?;
        return Ok(text);
    };
    let mut sink = MemSink::new(alloc, &[])?;
    let end = read_program(alloc, &units, turns, &mut sink);
    for byte in sink.bytes() {
        text.push(if *byte == b'\n' { b' ' } else { *byte })?;
    }
    text.extend_from_slice(end_of(end).as_bytes())?;
    Ok(text)
}

/// Compares what programs print and how they end with what is wanted.
pub(crate) fn compare(rt: &impl Abort, alloc: Global, rows: &[Row]) -> Result<(), Fail> {
    for (number, row) in rows.iter().enumerate() {
        let found = reading_of(alloc, row.units, row.turns)?;
        assert!(rt;
            found.as_slice() == row.want.as_bytes(),
            "{number} {found:?}"
        );
    }
    Ok(())
}
