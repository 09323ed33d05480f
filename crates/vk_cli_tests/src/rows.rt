// Rows of calls, over files and sinks in memory.

use std::alloc::Global;
use vk_cli::vfabi;
use vk_io::{MemSink, MemStore, Memory, Words};

// The unit in the file `f.c`, the words, the bytes of `out` and `err`, and the status.
pub type Row = (&'static str, &'static str, &'static str, &'static str, u8);

// The words of a text.
fn split(alloc: Global, text: &str) -> Result<Words, Memory> {
    let mut words = Words::new(alloc);
    for word in text.split(' ') {
        words.push(word)?;
    }
    Ok(words)
}

// Whether a call is as the row says.
fn is_so(alloc: Global, row: &Row) -> Result<bool, Memory> {
    let (unit, text, out, err, status) = row;
    let mut store = MemStore::new(alloc, &[])?;
    store.set("f.c", unit.as_bytes())?;
    let mut said = MemSink::new(alloc, &[])?;
    let mut told = MemSink::new(alloc, &[])?;
    let words = split(alloc, text)?;
    let end = vfabi(alloc, &words, &mut store, &mut said, &mut told);
    Ok(end.status() == *status && said.bytes() == out.as_bytes() && told.bytes() == err.as_bytes())
}

/// The words of the first row that is not so.
pub fn other(alloc: Global, rows: &[Row]) -> Result<&'static str, Memory> {
    for row in rows {
        if !is_so(alloc, row)? {
            return Ok(row.1);
        }
    }
    Ok("none")
}
