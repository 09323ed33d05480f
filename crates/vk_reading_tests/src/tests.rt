use std::alloc::Global;
use std::test::Fail;
use vk_io::{MemSink, Memory};
use vk_meaning::RunFail;
use vk_reading::prints::print;
use vk_types::Word;

// Two numbers that are put into a sink of which the call with this number fails, 0 for none: how the second one ended, and the bytes.
fn is_put(
    alloc: Global,
    failing: u64,
    end: Result<(), RunFail>,
    text: &str,
) -> Result<bool, Memory> {
    let mut sink = MemSink::new(alloc, &[failing])?;
    if print(alloc, &mut sink, Word(18446744073709551609)).is_err() {
        return Ok(false);
    }
    let second = print(alloc, &mut sink, Word(9223372036854775807));
    Ok(second == end && sink.bytes() == text.as_bytes())
}

#[test]
fn numbers_are_lines(rt: HostRuntime) -> Result<(), Fail> {
    assert!(rt; is_put(rt.alloc(), 0, Ok(()), "-7\n9223372036854775807\n")?);
    assert!(rt; is_put(rt.alloc(), 2, Err(RunFail::Write), "-7\n")?);
    Ok(())
}
