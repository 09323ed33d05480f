//! Want of memory: the one answer that no contract ties to a cause.
#![tactic(auto)]

pub mod want;

pub use want::Memory;
