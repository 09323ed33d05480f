// Sinks that fail: what was printed stays printed.

use crate::reads::{end_of, units_of};
use std::alloc::Global;
use std::test::Fail;
use vk_io::{MemSink, Memory};
use vk_reading_programs::read_program;

// A program that prints three numbers into a sink of which the call with this number fails: how it ends, and the bytes.
fn is_read(alloc: Global, failing: u64, end: &str, text: &str) -> Result<bool, Memory> {
    let program = "int main(void) { print(1); print(2); print(3); print(1 / 0); return 0; }";
    let Some(units) = units_of(alloc, &[program])? else {
        return Ok(false);
    };
    let mut sink = MemSink::new(alloc, &[failing])?;
    let found = end_of(read_program(alloc, &units, 10, &mut sink));
    Ok(found == end && sink.bytes() == text.as_bytes())
}

#[test]
fn failing_sinks(rt: HostRuntime) -> Result<(), Fail> {
    assert!(rt; is_read(rt.alloc(), 0, "divide", "1\n2\n3\n")?);
    assert!(rt; is_read(rt.alloc(), 1, "write", "")?);
    assert!(rt; is_read(rt.alloc(), 2, "write", "1\n")?);
    assert!(rt; is_read(rt.alloc(), 3, "write", "1\n2\n")?);
    Ok(())
}
