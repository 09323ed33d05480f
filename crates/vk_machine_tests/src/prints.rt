// Printed numbers, and a sink that fails at each of them.

use crate::images::{INT, LONG, Line, MINUS_1, code, entry, image, run};
use std::alloc::Global;
use std::test::Fail;
use vk_code::Opcode::*;
use vk_io::{MemSink, Memory};
use vk_meaning::{Reading, RunFail};
use vk_object::EntryKind;

static LINES: [Line; 6] = [
    (Const, 3, 0, 0, 0, 7),
    (Print, 0, 0, 0, 0, 0),
    (Const, 3, 0, 0, 0, MINUS_1),
    (Print, 0, 0, 0, 0, 0),
    (Const, 3, 0, 0, 0, 1 << 40),
    (Print, 0, 0, 0, 0, 0),
];

// Whether the program ends so and has put this text, where the call of the sink with this number fails.
fn puts(
    alloc: Global,
    failing: u64,
    end: Result<Reading, RunFail>,
    text: &str,
) -> Result<bool, Memory> {
    let main = code(alloc, false, 0, Some(1), &[LONG, INT], 1, &LINES)?;
    let of_main = entry(alloc, "main", EntryKind::Ordinary, 1, 0, &[])?;
    let Some(image) = image(
        alloc,
        Some(0),
        vec![in alloc; main]?,
        vec![in alloc; of_main]?,
    )?
    else {
        return Ok(false);
    };
    let mut out = MemSink::new(alloc, &[failing])?;
    let Some(ran) = run(alloc, image, 1, &mut out)? else {
        return Ok(false);
    };
    Ok(ran.end == end && out.bytes() == text.as_bytes())
}

#[test]
fn numbers_are_lines_up_to_the_fault(rt: HostRuntime) -> Result<(), Fail> {
    let alloc = rt.alloc();
    assert!(rt; puts(alloc, 0, Ok(Reading::Done), "7\n-1\n1099511627776\n")?);
    assert!(rt; puts(alloc, 1, Err(RunFail::Write), "")?);
    assert!(rt; puts(alloc, 2, Err(RunFail::Write), "7\n")?);
    assert!(rt; puts(alloc, 3, Err(RunFail::Write), "7\n-1\n")?);
    Ok(())
}
