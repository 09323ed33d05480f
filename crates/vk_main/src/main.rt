//! The vfabi program: vector variants of C functions, by the vector function ABIs of x86-64 and AArch64.
#![tactic(auto)]

#[cfg(test)]
mod tests;

use std::env;
use std::process::ExitCode;
use vk_cli::vfabi;
use vk_ends::report_memory;
use vk_io::{DirStore, Memory, StreamSink, Words};

fn main(rt: HostRuntime) -> ExitCode {
    let alloc = rt.alloc();
    let mut out = StreamSink::new(rt.stdout());
    let mut err = StreamSink::new(rt.stderr());
    let end = match words_of(&rt) {
        Ok(words) => {
            let mut store = DirStore::new(alloc, rt);
            vfabi(alloc, &words, &mut store, &mut out, &mut err)
        }
        Err(Memory) => report_memory(&mut err),
    };
    ExitCode::from(end.status())
}

// The words after the program's name. Words that are not all text count as none.
fn words_of(rt: &HostRuntime) -> Result<Words, Memory> {
    let mut words = Words::new(rt.alloc());
    if let Ok(args) = env::args(rt) {
        for arg in args.skip(1) {
            words.push(&arg)?;
        }
    }
    Ok(words)
}
