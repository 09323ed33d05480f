//! What a program reads and writes: stores of files by name, sinks of bytes, and lists of words.
//!
//! Code that is generic over `Store` and `Sink` runs on the system's files and streams, and on
//! memory, where its contracts can name each byte.
#![tactic(auto)]

mod directory;
mod file_map;
mod lines;
mod memory_sink;
mod memory_store;
mod outside;
mod pure_sink;
mod pure_store;
mod schedule;
mod sink;
mod store;
mod stream;
mod tally;
mod whole;
mod words;

pub use directory::DirStore;
pub use lines::{Lines, put_lines};
pub use memory_sink::MemSink;
pub use memory_store::MemStore;
pub use outside::Outside;
pub use pure_sink::PureSink;
pub use pure_store::PureStore;
pub use sink::Sink;
pub use store::Store;
pub use stream::StreamSink;
pub use vk_memory::Memory;
pub use whole::{WholeFail, read_whole};
pub use words::Words;

#[cfg(test)]
mod tests;
