//! The command `demangle`: vector names in words.
#![tactic(auto)]

pub mod command;
pub mod describe;
pub mod laws;
pub mod names;

pub use command::demangle;
