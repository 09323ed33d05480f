//! Prints the scalar reading of the units that its words name: `vk_read TURNS UNIT..`.
//!
//! It prints each number on a line, then how the program ends, as a word: `done`, `divide`, `bounds`, `turns`, or `refused` where a
//! unit is not accepted.
#![tactic(auto)]

use std::alloc::Global;
use std::env;
use std::process::ExitCode;
use vk_ast::Unit;
use vk_io::{DirStore, Memory, Sink, Store, StreamSink, Words, read_whole};
use vk_kinds::Target;
use vk_lex::lex;
use vk_meaning::{Reading, RunFail};
use vk_parse::parse;
use vk_reading_programs::read_program;
use vk_rules::{Checked, check};
use vk_types::Stop;
use vk_unit_rules::UnitFail;

/// The longest unit.
const MAX_UNIT: u64 = 1048576;

// The tree of a text.
fn unit_of(alloc: Global, bytes: &[u8]) -> Result<Unit, UnitFail> {
    if bytes.len() > 1048576 {
        return Err(UnitFail::Memory);
    }
    let tokens = lex(alloc, bytes)?;
    parse(alloc, &tokens)
}

// The units of these files, none where one of them is not accepted.
fn units_of<S: Store>(
    alloc: Global,
    store: &mut S,
    names: &[String],
) -> Result<Option<Vec<Checked>>, Memory> {
    let mut units = Vec::new(alloc);
    for name in names {
        let Ok(bytes) = read_whole(alloc, store, name.as_str(), MAX_UNIT) else {
            return Ok(None);
        };
        let Ok(unit) = unit_of(alloc, &bytes) else {
            return Ok(None);
        };
        let Ok(checked) = check(alloc, unit, Target::X86) else {
            return Ok(None);
        };
        units.push(checked)?;
    }
    Ok(Some(units))
}

// How a reading ends, as a line.
fn end_of(end: Result<Reading, RunFail>) -> &'static str {
    match end {
        Ok(Reading::Done) => "done\n",
        Ok(Reading::Stopped(Stop::Divide)) => "divide\n",
        Ok(Reading::Stopped(Stop::Bounds)) => "bounds\n",
        Ok(Reading::Stopped(Stop::Turns)) => "turns\n",
        Err(RunFail::Write) => "write\n",
        Err(RunFail::Memory) => "memory\n",
    }
}

// Reads the program of these words: how many turns a loop may make, and the names of units.
fn read<S: Store, O: Sink>(
    alloc: Global,
    store: &mut S,
    out: &mut O,
    words: &Words,
) -> Result<&'static str, Memory> {
    let [turns, names @ ..] = words.texts() else {
        return Ok("words\n");
    };
    let Ok(turns) = turns.as_str().parse::<u32>() else {
        return Ok("words\n");
    };
    match units_of(alloc, store, names)? {
        Some(units) => Ok(end_of(read_program(alloc, &units, turns, out))),
        None => Ok("refused\n"),
    }
}

fn main(rt: HostRuntime) -> ExitCode {
    let alloc = rt.alloc();
    let mut out = StreamSink::new(rt.stdout());
    let words = match words_of(&rt) {
        Ok(words) => words,
        Err(Memory) => return ExitCode::from(6),
    };
    let mut store = DirStore::new(alloc, rt);
    let Ok(end) = read(alloc, &mut store, &mut out, &words) else {
        return ExitCode::from(6);
    };
    match out.put(end.as_bytes()) {
        Ok(()) => ExitCode::from(0),
        Err(_) => ExitCode::from(5),
    }
}

// The words after the program's name. Words that are not all text count as none.
fn words_of(rt: &HostRuntime) -> Result<Words, Memory> {
    let mut words = Words::new(rt.alloc());
    if let Ok(args) = env::args(rt) {
        for arg in args.skip(1) {
            words.push(&arg)?;
        }
    }
    Ok(words)
}
