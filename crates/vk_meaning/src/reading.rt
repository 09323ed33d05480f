// How the run of a program ends.

use vk_types::Stop;

/// How a program ends: it returned from `main`, or it was stopped.
#[derive(Clone, Copy, PartialEq, Eq, Debug)]
pub enum Reading {
    Done,
    Stopped(Stop),
}

/// Why there is no such end: a fault of the sink, or want of memory.
#[derive(Clone, Copy, PartialEq, Eq, Debug)]
pub enum RunFail {
    Write,
    Memory,
}
