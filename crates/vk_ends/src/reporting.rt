// The line of an end on standard error.

ghost use Rattle.std.specs.Prelude.{◌≡◌, ◌⊎◌, ℕ, List, map};
ghost use Rattle.vk_ends.specs.Reports.{Reports, told_end};

use crate::ends::{End, NO_MEMORY};
use std::alloc::{AllocError, Global};
use vk_io::{Outside, Sink};

/// Puts the line of an end of a command with these input files, none where it is done, and tells the end.
///
/// Want of memory while the line is made or put is told in its place, as `Memory`, by a line that takes none; a fault of `err`
/// changes no end.
pub fn report<E: Sink>(alloc: Global, end: End, files: &[&str], err: &mut E) -> End
    ensures end { (result ≡ end) ⊎ (result ≡ End.Memory) }
    ensures reports { Reports (map (λ file. file.now) files.now) result (E.state err.old) (E.state err.new) }
{
    if end == End::Done {
        return end;
    }
    let text = match end.message(alloc, files) {
        Ok(text) => text,
        Err(AllocError) => return report_memory(err),
    };
    let put = err.put(text.as_bytes());
    told(end, put)
}

/// Puts the line of want of memory, which takes none to make, and tells that end.
pub fn report_memory<E: Sink>(err: &mut E) -> End
    ensures end { result ≡ End.Memory }
    ensures reports { (files : List (List ℕ)) → Reports files result (E.state err.old) (E.state err.new) }
{
    let _ = err.put(NO_MEMORY.as_bytes());
    End::Memory
}

// The end that is told where its line was put so.
fn told(end: End, put: Result<(), Outside>) -> End
    ensures { result ≡ told_end end put }
{
    match put {
        Ok(()) => end,
        Err(Outside::Failed) => end,
        Err(Outside::Memory) => End::Memory,
    }
}
